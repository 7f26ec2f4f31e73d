// First lines as they stand in files, and lines that are none.
use crate::{Before, Form, HeadFault, LogName, head, read_head};
use gs_base::Config;
use std::alloc::{AllocError, Global};
use std::test::Fail;

/// The line of a log of each form, with a name and without.
const HEADS: [&str; 4] = [
    "chunkkeep 1 --servers 3 --racks 1 --replicas 2 --chunk 1024 --block 64",
    "chunkkeep 2 --servers 3 --racks 1 --replicas 2 --chunk 1024 --block 64 name 00112233445566778899aabbccddeeff",
    "chunkkeep 3 --servers 3 --racks 1 --replicas 2 --chunk 1024 --block 64 image 7 000102030405060708090a0b0c0d0e0f101112131415161718191a1b1c1d1e1f lines 18446744073709551615 ffffffffffffffffffffffffffffffffffffffffffffffffffffffffffffffff 0a0a0a0a0a0a0a0a0a0a0a0a0a0a0a0a0a0a0a0a0a0a0a0a0a0a0a0a0a0a0a0a",
    "chunkkeep 3 --servers 3 --racks 1 --replicas 2 --chunk 1024 --block 64 name 00112233445566778899aabbccddeeff image 7 000102030405060708090a0b0c0d0e0f101112131415161718191a1b1c1d1e1f lines 18446744073709551615 ffffffffffffffffffffffffffffffffffffffffffffffffffffffffffffffff 0a0a0a0a0a0a0a0a0a0a0a0a0a0a0a0a0a0a0a0a0a0a0a0a0a0a0a0a0a0a0a0a",
];

/// Lines of another version.
const LATER: [&str; 2] = [
    "chunkkeep 4 --servers 3 --racks 1 --replicas 2 --chunk 1024 --block 64 image 7 000102030405060708090a0b0c0d0e0f101112131415161718191a1b1c1d1e1f lines 18446744073709551615 ffffffffffffffffffffffffffffffffffffffffffffffffffffffffffffffff 0a0a0a0a0a0a0a0a0a0a0a0a0a0a0a0a0a0a0a0a0a0a0a0a0a0a0a0a0a0a0a0a",
    "chunkkeep 0 --servers 3 --racks 1 --replicas 2 --chunk 1024 --block 64",
];

/// Lines that are none: of form 3 without an image and of form 2 with one, with upper case in a digest, a zero before a number, a number above 64
/// bits, a digit too few, the name at the end, a digest too few, and another word.
const NONE: [&str; 9] = [
    "chunkkeep 3 --servers 3 --racks 1 --replicas 2 --chunk 1024 --block 64",
    "chunkkeep 2 --servers 3 --racks 1 --replicas 2 --chunk 1024 --block 64 image 7 000102030405060708090a0b0c0d0e0f101112131415161718191a1b1c1d1e1f lines 18446744073709551615 ffffffffffffffffffffffffffffffffffffffffffffffffffffffffffffffff 0a0a0a0a0a0a0a0a0a0a0a0a0a0a0a0a0a0a0a0a0a0a0a0a0a0a0a0a0a0a0a0a",
    "chunkkeep 3 --servers 3 --racks 1 --replicas 2 --chunk 1024 --block 64 image 7 000102030405060708090a0b0c0d0e0f101112131415161718191a1b1c1d1e1f lines 18446744073709551615 FFFFFFFFFFFFFFFFFFFFFFFFFFFFFFFFFFFFFFFFFFFFFFFFFFFFFFFFFFFFFFFF 0a0a0a0a0a0a0a0a0a0a0a0a0a0a0a0a0a0a0a0a0a0a0a0a0a0a0a0a0a0a0a0a",
    "chunkkeep 3 --servers 3 --racks 1 --replicas 2 --chunk 1024 --block 64 image 07 000102030405060708090a0b0c0d0e0f101112131415161718191a1b1c1d1e1f lines 18446744073709551615 ffffffffffffffffffffffffffffffffffffffffffffffffffffffffffffffff 0a0a0a0a0a0a0a0a0a0a0a0a0a0a0a0a0a0a0a0a0a0a0a0a0a0a0a0a0a0a0a0a",
    "chunkkeep 3 --servers 3 --racks 1 --replicas 2 --chunk 1024 --block 64 image 7 000102030405060708090a0b0c0d0e0f101112131415161718191a1b1c1d1e1f lines 18446744073709551616 ffffffffffffffffffffffffffffffffffffffffffffffffffffffffffffffff 0a0a0a0a0a0a0a0a0a0a0a0a0a0a0a0a0a0a0a0a0a0a0a0a0a0a0a0a0a0a0a0a",
    "chunkkeep 3 --servers 3 --racks 1 --replicas 2 --chunk 1024 --block 64 image 7 000102030405060708090a0b0c0d0e0f101112131415161718191a1b1c1d1e1f lines 18446744073709551615 ffffffffffffffffffffffffffffffffffffffffffffffffffffffffffffffff 0a0a0a0a0a0a0a0a0a0a0a0a0a0a0a0a0a0a0a0a0a0a0a0a0a0a0a0a0a0a0a0",
    "chunkkeep 3 --servers 3 --racks 1 --replicas 2 --chunk 1024 --block 64 image 7 000102030405060708090a0b0c0d0e0f101112131415161718191a1b1c1d1e1f lines 18446744073709551615 ffffffffffffffffffffffffffffffffffffffffffffffffffffffffffffffff 0a0a0a0a0a0a0a0a0a0a0a0a0a0a0a0a0a0a0a0a0a0a0a0a0a0a0a0a0a0a0a0a name 00112233445566778899aabbccddeeff",
    "chunkkeep 3 --servers 3 --racks 1 --replicas 2 --chunk 1024 --block 64 image 7 000102030405060708090a0b0c0d0e0f101112131415161718191a1b1c1d1e1f lines 18446744073709551615 ffffffffffffffffffffffffffffffffffffffffffffffffffffffffffffffff",
    "chunkkeep 3 --servers 3 --racks 1 --replicas 2 --chunk 1024 --block 64 image 7 000102030405060708090a0b0c0d0e0f101112131415161718191a1b1c1d1e1f line 18446744073709551615 ffffffffffffffffffffffffffffffffffffffffffffffffffffffffffffffff 0a0a0a0a0a0a0a0a0a0a0a0a0a0a0a0a0a0a0a0a0a0a0a0a0a0a0a0a0a0a0a0a",
];

/// What was before the logs of form 3.
const BEFORE: Before = Before {
    image: 7,
    sum: [
        0, 1, 2, 3, 4, 5, 6, 7, 8, 9, 10, 11, 12, 13, 14, 15, 16, 17, 18, 19, 20, 21, 22, 23, 24,
        25, 26, 27, 28, 29, 30, 31,
    ],
    lines: 18_446_744_073_709_551_615,
    text: [255; 32],
    answers: [10; 32],
};

/// The name of those that have one.
const NAME: LogName = LogName {
    bytes: [
        0, 17, 34, 51, 68, 85, 102, 119, 136, 153, 170, 187, 204, 221, 238, 255,
    ],
};

/// A line that is read and written again, or why it isn't read.
fn again(alloc: Global, line: &str) -> Result<String, AllocError> {
    match read_head(alloc, line.as_bytes()) {
        Ok(said) => head(alloc, said.form, &said.config, said.name),
        Err(HeadFault::Version) => String::from_str(alloc, "another version"),
        Err(HeadFault::Other) => String::from_str(alloc, "none"),
        Err(HeadFault::Memory) => Err(AllocError),
    }
}

#[test]
fn first_lines_are_read_as_they_are_written(rt: HostRuntime) -> Result<(), Fail> {
    for line in HEADS {
        assert_eq!(rt; again(rt.alloc(), line)?.as_str(), line);
    }
    for line in LATER {
        assert_eq!(rt; again(rt.alloc(), line)?.as_str(), "another version");
    }
    for line in NONE {
        assert_eq!(rt; again(rt.alloc(), line)?.as_str(), "none");
    }
    Ok(())
}

#[test]
fn what_was_before_is_written(rt: HostRuntime) -> Result<(), Fail> {
    let config = Config::new(3, 1, 2, 64, 1024)?;
    let plain = head(rt.alloc(), Form::Three(BEFORE), &config, None)?;
    assert_eq!(rt; plain.as_str(), HEADS[2]);
    let named = head(rt.alloc(), Form::Three(BEFORE), &config, Some(NAME))?;
    assert_eq!(rt; named.as_str(), HEADS[3]);
    Ok(())
}

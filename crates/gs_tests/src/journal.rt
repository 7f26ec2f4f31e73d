use gs_base::Refusal;
use gs_journal::{Disk, FailingDisk, Fault, Journal, MemoryDisk, Record};
use std::alloc::Global;
use std::test::Fail;

// Mkdirs of `/a` by client 1 under number 1.
const MKDIRS: [u8; 17] = [0, 0, 0, 1, 0, 0, 0, 0, 0, 0, 0, 1, 1, 0, 2, b'/', b'a'];

// A header of generation 1, three finalizes, and a closed gate.
const THREE: [u8; 56] = [
    1, b'G', b'S', b'J', b'2', 0, 0, 0, 0, 0, 0, 0, 1, //
    1, 0, 0, 0, 8, 6, 0, 0, 0, 0, 0, 0, 0, 2, //
    1, 0, 0, 0, 8, 6, 0, 0, 0, 0, 0, 0, 0, 4, //
    1, 0, 0, 0, 8, 6, 0, 0, 0, 0, 0, 0, 0, 6, //
    0,
];

// The checkpoint of a new store.
const EMPTY: [u8; 61] = [
    0, 0, 0, 0, 0, 0, 0, 1, 0, 0, 0, 0, 0, 0, 0, 1, 0, 0, 0, 0, 0, 0, 0, 1, 0, 0, 0, 0, 0, 0, 0, 0,
    0, 0, 0, 0, 0, 0, 0, 0, 0, 0, 0, 0, 0, 0, 0, 0, 0, 0, 0, 0, 0, 0, 0, 0, 0, 0, 0, 0, 0,
];

// A header of generation 1, the mkdirs, and a closed gate.
const APPENDED: [u8; 37] = [
    1, b'G', b'S', b'J', b'2', 0, 0, 0, 0, 0, 0, 0, 1, //
    1, 0, 0, 0, 17, 1, //
    0, 0, 0, 1, 0, 0, 0, 0, 0, 0, 0, 1, 1, 0, 2, b'/', b'a', //
    0, //
];

// A header of generation 2, the checkpoint of a new store, and a closed gate.
const CHECKPOINTED: [u8; 81] = [
    1, b'G', b'S', b'J', b'2', 0, 0, 0, 0, 0, 0, 0, 2, //
    1, 0, 0, 0, 61, 9, //
    0, 0, 0, 0, 0, 0, 0, 1, 0, 0, 0, 0, 0, 0, 0, 1, 0, 0, 0, 0, 0, 0, 0, 1, //
    0, 0, 0, 0, 0, 0, 0, 0, 0, 0, 0, 0, 0, 0, 0, 0, 0, 0, 0, 0, 0, 0, 0, 0, //
    0, 0, 0, 0, 0, 0, 0, 0, 0, 0, 0, 0, 0, //
    0, //
];

// The disks after a record was added to a journal and a checkpoint was made, whether each was, and the room behind each.
#[derive(Drop)]
struct Edited<D> {
    added: bool,
    made: bool,
    rooms: (u32, u32),
    first: D,
    second: D,
}

fn edit<D: Disk + Drop>(alloc: Global, first: D, second: D) -> Result<Edited<D>, Refusal> {
    let entry = Record::new(alloc, 1, &MKDIRS)?;
    match Journal::open(alloc, first, second, 1_000) {
        Err(unopened) => Ok(Edited {
            added: false,
            made: false,
            rooms: (0, 0),
            first: unopened.first,
            second: unopened.second,
        }),
        Ok(mut journal) => {
            let added = journal.append(&entry).is_ok();
            let room = journal.room();
            let made = journal.checkpoint(alloc, &EMPTY).is_ok();
            let rooms = (room, journal.room());
            let (first, second) = journal.into_disks();
            Ok(Edited {
                added,
                made,
                rooms,
                first,
                second,
            })
        }
    }
}

#[test]
fn records_are_written_as_laid_down(rt: HostRuntime) -> Result<(), Fail> {
    let alloc = rt.alloc();
    let first = MemoryDisk::new(Vec::new(alloc));
    let second = MemoryDisk::new(Vec::new(alloc));
    let edited = edit(alloc, first, second)?;
    assert_eq!(rt; edited.rooms, (1_000 - 13 - 23 - 1, 1_000 - 13 - 67 - 1));
    let written = (edited.first.bytes(), edited.second.bytes());
    assert_eq!(rt; written, (APPENDED.as_slice(), CHECKPOINTED.as_slice()));
    Ok(())
}

// How many records there are, or 99 where the disks aren't opened.
fn count(alloc: Global, first: MemoryDisk, second: MemoryDisk) -> Result<usize, Refusal> {
    match Journal::open(alloc, first, second, 1_000) {
        Err(_) => Ok(99),
        Ok(mut journal) => Ok(journal.records(alloc)?.len()),
    }
}

fn disk(alloc: Global, bytes: &[u8]) -> Result<MemoryDisk, Refusal> {
    Ok(MemoryDisk::new(bytes.to_vec(alloc)?))
}

// The same of a disk of these bytes and an empty one.
fn count_in(alloc: Global, bytes: &[u8]) -> Result<usize, Refusal> {
    count(alloc, disk(alloc, bytes)?, MemoryDisk::new(Vec::new(alloc)))
}

// How many records there are once one more was added, or 99.
fn added_to(alloc: Global, bytes: &[u8]) -> Result<usize, Refusal> {
    let edited = edit(alloc, disk(alloc, bytes)?, MemoryDisk::new(Vec::new(alloc)))?;
    if edited.added {
        count(alloc, edited.first, MemoryDisk::new(Vec::new(alloc)))
    } else {
        Ok(99)
    }
}

// Whether the old records or the new are left after an append to three records and a checkpoint, where the disks have these
// faults: of what was made nothing is missing, and of what wasn't made the next may be there.
fn is_whole(alloc: Global, on_first: Fault, on_second: Fault) -> Result<bool, Refusal> {
    let first = FailingDisk::new(MemoryDisk::new(THREE.to_vec(alloc)?), on_first);
    let second = FailingDisk::new(MemoryDisk::new(Vec::new(alloc)), on_second);
    let Edited {
        added,
        made,
        first,
        second,
        ..
    } = edit(alloc, first, second)?;
    let found = count(alloc, first.into_disk(), second.into_disk())?;
    let least = match (made, added) {
        (true, _) => 1,
        (false, true) => 4,
        (false, false) => 3,
    };
    Ok(found == least || (found, least) == (1, 4) || (found, least) == (4, 3))
}

// The same where each disk stops after so many calls.
fn stopped(alloc: Global, on_first: u64, on_second: u64) -> Result<bool, Refusal> {
    is_whole(alloc, Fault::Stop(on_first), Fault::Stop(on_second))
}

// The same where a write of each disk leaves bytes of its own.
fn torn(alloc: Global, on_first: u64, on_second: u64, byte: u8) -> Result<bool, Refusal> {
    let bytes = [byte; 40];
    let on_first = Fault::Tear(on_first, bytes.to_vec(alloc)?);
    let on_second = Fault::Tear(on_second, bytes.to_vec(alloc)?);
    is_whole(alloc, on_first, on_second)
}

#[test]
fn a_stop_or_a_torn_write_leaves_the_old_records_or_the_new(rt: HostRuntime) -> Result<(), Fail> {
    let alloc = rt.alloc();
    for calls in 0..20 {
        assert!(rt; stopped(alloc, calls, 100)?);
        assert!(rt; stopped(alloc, 100, calls)?);
        for byte in [0, 1, 255] {
            assert!(rt; torn(alloc, calls, 100, byte)?);
            assert!(rt; torn(alloc, 100, calls, byte)?);
        }
    }
    Ok(())
}

#[test]
fn a_call_that_fails_is_told_and_closes_the_journal(rt: HostRuntime) -> Result<(), Fail> {
    let alloc = rt.alloc();
    let entry = Record::new(alloc, 1, &MKDIRS)?;
    for calls in 0..6 {
        let first = FailingDisk::new(MemoryDisk::new(THREE.to_vec(alloc)?), Fault::Never);
        let second = FailingDisk::new(MemoryDisk::new(Vec::new(alloc)), Fault::Never);
        let Ok(mut journal) = Journal::open(alloc, first, second, 1_000) else {
            assert!(rt; false);
            return Ok(());
        };
        journal.arm_first(Fault::Fail(calls));
        // an append has four calls: two writes, and a sync behind each
        let added = journal.append(&entry).is_ok();
        assert_eq!(rt; (added, journal.is_open()), (4 <= calls, 4 <= calls));
        assert!(rt; added || journal.append(&entry).is_err());
        let (first, second) = journal.into_disks();
        let found = count(alloc, first.into_disk(), second.into_disk())?;
        assert!(rt; found == 4 || !added && found == 3);
    }
    Ok(())
}

// Three records with these bytes from an offset on.
fn count_behind(alloc: Global, offset: usize, bytes: &[u8]) -> Result<usize, Refusal> {
    let mut text = THREE[..offset.min(56)].to_vec(alloc)?;
    text.extend_from_slice(bytes)?;
    count_in(alloc, &text)
}

#[test]
fn whole_records_are_read_and_torn_bytes_are_none(rt: HostRuntime) -> Result<(), Fail> {
    let alloc = rt.alloc();
    for length in 0..=THREE.len() {
        let whole = if length < 13 { 0 } else { (length - 13) / 14 };
        let bytes = &THREE[..length];
        assert_eq!(rt;
            (count_in(alloc, bytes)?, added_to(alloc, bytes)?),
            (whole, whole + 1)
        );
    }
    for byte in 0..=255u8 {
        let want = if byte == 1 { 4 } else { 3 };
        let gate = [byte, 0, 0, 0, 8, 7, 0, 0, 0, 0, 0, 0, 0, 8, 0];
        let found = (
            count_behind(alloc, 56, &[byte; 14])?,
            count_behind(alloc, 55, &gate)?,
        );
        assert_eq!(rt; found, (3, want));
    }
    Ok(())
}

// A disk of one record: its version, the record's kind and length, the last byte of its body.
fn lone(version: u8, kind: u8, length: u8, last: u8) -> [u8; 29] {
    [
        1, b'G', b'S', b'J', version, 0, 0, 0, 0, 0, 0, 0, 1, //
        1, 0, 0, 0, length, kind, 0, 0, 0, 0, 0, 0, 0, 2, last, 0, //
    ]
}

// The number of the refusal to open a disk of these bytes, or 0.
fn refused(alloc: Global, bytes: &[u8]) -> Result<u8, Refusal> {
    match Journal::open(
        alloc,
        disk(alloc, bytes)?,
        MemoryDisk::new(Vec::new(alloc)),
        1_000,
    ) {
        Err(unopened) => Ok(unopened.refusal.number()),
        Ok(_) => Ok(0),
    }
}

// A holder whose server is 16, one in the first version, one that is right; a finalize with a byte too many; no kind.
#[test]
fn records_that_are_not_of_their_form_are_refused(rt: HostRuntime) -> Result<(), Fail> {
    for (disk, number) in [
        (lone(b'2', 10, 9, 16), 34),
        (lone(b'1', 10, 9, 0), 34),
        (lone(b'2', 10, 9, 15), 0),
        (lone(b'2', 6, 9, 0), 34),
        (lone(b'2', 11, 9, 0), 34),
    ] {
        assert_eq!(rt; refused(rt.alloc(), &disk)?, number);
    }
    Ok(())
}

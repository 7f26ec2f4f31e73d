// An image is read again by a log that names it, and by no other.
use crate::{Image, LoadFault, desk_of, image_of, is_due, may_rest};
use gs_base::Config;
use gs_desk_image::close;
use gs_fields::Fault;
use gs_journal::MemoryDisk;
use gs_nodes::empty_disks;
use gs_shell_desk::Desk;
use gs_shell_script::Answering;
use std::alloc::Global;
use std::test::Fail;

// What is done before the image is taken.
const BEFORE: &[&[u8]] = &[
    b"mkdir /a",
    b"create /a/f",
    b"append /a/f 616263",
    b"restart 0",
    b"restart 1",
    b"restart 2",
];

fn config() -> Result<Config, Fail> {
    Ok(Config::new(3, 1, 3, 4, 16)?)
}

fn begun(alloc: Global) -> Result<Desk<MemoryDisk>, Fail> {
    match Desk::new(alloc, config()?, empty_disks(alloc)) {
        Ok(desk) => Ok(desk),
        Err(unopened) => Err(Fail::from(unopened.refusal)),
    }
}

// A store behind its lines, with the disks of its master closed.
fn rested(alloc: Global) -> Result<Desk<MemoryDisk>, Fail> {
    let mut desk = begun(alloc)?;
    for line in BEFORE {
        let _answer = desk.answer(alloc, line)?;
    }
    close(&mut desk);
    Ok(desk)
}

fn taken(alloc: Global) -> Result<Option<Image>, Fail> {
    match image_of(&rested(alloc)?, alloc) {
        Ok(image) => Ok(Some(image)),
        Err(_) => Ok(None),
    }
}

// Why an image isn't read, if it isn't.
fn fault_of(alloc: Global, bytes: &[u8], config: &Config, sum: &[u8; 32]) -> Option<LoadFault> {
    match desk_of(alloc, bytes, config, sum) {
        Ok(_desk) => None,
        Err(fault) => Some(fault),
    }
}

#[test]
fn a_store_goes_on_from_its_image(rt: HostRuntime) -> Result<(), Fail> {
    let alloc = rt.alloc();
    let Some(image) = taken(alloc)? else {
        assert!(rt; false);
        return Ok(());
    };
    match desk_of(alloc, &image.bytes, &config()?, &image.sum) {
        Ok(mut desk) => {
            assert!(rt; may_rest(&desk));
            assert_eq!(rt; desk.answer(alloc, b"restart master")?.as_str(), "ok");
            assert_eq!(rt; desk.answer(alloc, b"read /a/f 0 9")?.as_str(), "ok 616263");
        }
        Err(_) => assert!(rt; false),
    }
    Ok(())
}

#[test]
fn each_flipped_bit_is_told(rt: HostRuntime) -> Result<(), Fail> {
    let alloc = rt.alloc();
    let Some(mut image) = taken(alloc)? else {
        assert!(rt; false);
        return Ok(());
    };
    let config = config()?;
    for at in 0..image.bytes.len() {
        if at % 7 != 0 {
            continue;
        }
        if let Some(byte) = image.bytes.get_mut(at) {
            *byte ^= 16;
        }
        assert!(rt;
            fault_of(alloc, &image.bytes, &config, &image.sum).is_some(),
            "at {at}"
        );
        if let Some(byte) = image.bytes.get_mut(at) {
            *byte ^= 16;
        }
    }
    assert!(rt; fault_of(alloc, &image.bytes, &config, &image.sum).is_none());
    Ok(())
}

#[test]
fn another_log_reads_none(rt: HostRuntime) -> Result<(), Fail> {
    let alloc = rt.alloc();
    let Some(image) = taken(alloc)? else {
        assert!(rt; false);
        return Ok(());
    };
    let other = Config::new(3, 1, 3, 4, 32)?;
    assert!(rt; fault_of(alloc, &image.bytes, &other, &image.sum) == Some(LoadFault::Sizes));
    assert!(rt; fault_of(alloc, &image.bytes, &config()?, &[7; 32]) == Some(LoadFault::Other));
    Ok(())
}

#[test]
fn what_is_held_back_has_no_image(rt: HostRuntime) -> Result<(), Fail> {
    let alloc = rt.alloc();
    let mut desk = begun(alloc)?;
    assert!(rt; may_rest(&desk));
    assert!(rt; matches!(image_of(&desk, alloc), Err(Fault::Form)));
    let _answer = desk.answer(alloc, b"hold on edit")?;
    assert!(rt; !may_rest(&desk));
    close(&mut desk);
    assert!(rt; matches!(image_of(&desk, alloc), Err(Fault::Form)));
    Ok(())
}

#[test]
fn an_image_is_taken_once_a_log_is_long(rt: HostRuntime) {
    assert!(rt; is_due(2, 1_048_576, 0));
    assert!(rt; !is_due(2, 1_048_575, 0));
    assert!(rt; is_due(2, 4_000_000, 2_000_000));
    assert!(rt; !is_due(2, 3_999_999, 2_000_000));
    assert!(rt; !is_due(0, 4_000_000, 0));
    assert!(rt; !is_due(18_446_744_073_709_551_615, 4_000_000, 2));
}

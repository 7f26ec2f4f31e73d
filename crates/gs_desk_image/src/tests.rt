// A store with files, a snapshot and an upgrade that stands, which goes on from its image as it would have gone on, and parts of none.
use crate::{close, desk_of, put_parts};
use gs_base::Config;
use gs_fields::Fault;
use gs_journal::MemoryDisk;
use gs_nodes::empty_disks;
use gs_shell_desk::Desk;
use gs_shell_script::Answering;
use std::alloc::Global;
use std::test::Fail;

// What is done before the image is taken.
const BEFORE: &[&[u8]] = &[
    b"mkdir /a",
    b"create /a/f",
    b"append /a/f 616263",
    b"snapshot /a /b",
    b"rollingUpgrade prepare",
    b"append /a/f 64",
    b"write /b/f 0 78",
    b"rm /b/f",
    b"at 30",
    b"append /a/none 64",
    b"restart 0",
    b"restart 1",
    b"restart 2",
];

// What is asked behind it.
const BEHIND: &[&[u8]] = &[
    b"restart master",
    b"ls /",
    b"read /a/f 0 9",
    b"ls /b",
    b"append /a/f 65",
    b"rollingUpgrade query",
    b"rollingUpgrade rollback",
    b"read /a/f 0 9",
    b"read /b/f 0 9",
    b"scan",
];

fn begun(alloc: Global) -> Result<Desk<MemoryDisk>, Fail> {
    let config = Config::new(3, 1, 3, 4, 16)?;
    match Desk::new(alloc, config, empty_disks(alloc)) {
        Ok(desk) => Ok(desk),
        Err(unopened) => Err(Fail::from(unopened.refusal)),
    }
}

// The answers to lines.
fn answers(
    alloc: Global,
    desk: &mut Desk<MemoryDisk>,
    lines: &[&[u8]],
) -> Result<Vec<String>, Fail> {
    let mut answers = Vec::new(alloc);
    for line in lines {
        answers.push(desk.answer(alloc, line)?)?;
    }
    Ok(answers)
}

fn pointed(alloc: Global, parts: &[Vec<u8>]) -> Result<Vec<&[u8]>, Fail> {
    let mut slices: Vec<&[u8]> = Vec::new(alloc);
    for part in parts {
        slices.push(part.as_slice())?;
    }
    Ok(slices)
}

// The same without the first byte of one of them.
fn cut_at(alloc: Global, parts: &[Vec<u8>], place: usize) -> Result<Vec<&[u8]>, Fail> {
    let mut slices: Vec<&[u8]> = Vec::new(alloc);
    let mut at = 0;
    for part in parts {
        let bytes = part.as_slice();
        if at == place && 1 <= bytes.len() {
            slices.push(&bytes[1..])?;
        } else {
            slices.push(bytes)?;
        }
        at = at.wrapping_add(1);
    }
    Ok(slices)
}

// Whether this was answered there.
fn is_answered(told: &[String], place: usize, text: &str) -> bool {
    match told.get(place) {
        Some(answer) => answer.as_str() == text,
        None => false,
    }
}

// A store behind its lines, with the disks of its master closed.
fn rested(alloc: Global) -> Result<Desk<MemoryDisk>, Fail> {
    let mut desk = begun(alloc)?;
    let _answers = answers(alloc, &mut desk, BEFORE)?;
    close(&mut desk);
    Ok(desk)
}

fn is_refused(alloc: Global, parts: &[&[u8]]) -> bool {
    matches!(desk_of(alloc, parts), Err(Fault::Form))
}

#[test]
fn a_store_goes_on_from_its_image(rt: HostRuntime) -> Result<(), Fail> {
    let alloc = rt.alloc();
    let mut desk = rested(alloc)?;
    let parts = put_parts(&desk, alloc)?;
    assert!(rt; parts.len() == 6);
    let mut again = desk_of(alloc, &pointed(alloc, &parts)?)?;
    assert!(rt; put_parts(&again, alloc)? == parts);
    let wanted = answers(alloc, &mut desk, BEHIND)?;
    assert!(rt; answers(alloc, &mut again, BEHIND)? == wanted);
    assert!(rt; is_answered(&wanted, 6, "ok 2"));
    assert!(rt; is_answered(&wanted, 7, "ok 616263"));
    Ok(())
}

#[test]
fn what_stands_has_no_image(rt: HostRuntime) -> Result<(), Fail> {
    let alloc = rt.alloc();
    let mut desk = begun(alloc)?;
    assert!(rt; put_parts(&desk, alloc).is_err());
    close(&mut desk);
    assert!(rt; put_parts(&desk, alloc).is_ok());
    let _answers = answers(alloc, &mut desk, &[b"hold on edit"])?;
    assert!(rt; put_parts(&desk, alloc).is_err());
    Ok(())
}

#[test]
fn each_part_is_needed_whole(rt: HostRuntime) -> Result<(), Fail> {
    let alloc = rt.alloc();
    let parts = put_parts(&rested(alloc)?, alloc)?;
    let slices = pointed(alloc, &parts)?;
    for end in 0..slices.len() {
        assert!(rt; is_refused(alloc, &slices[..end]));
    }
    for at in [0, 3, 4, 5] {
        assert!(rt; is_refused(alloc, &cut_at(alloc, &parts, at)?));
    }
    Ok(())
}

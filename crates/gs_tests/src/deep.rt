// A path that a caller puts together itself may have more elements than one that is read. The master refuses a call that names one.
use crate::example::new_store;
use gs_base::Refusal;
use gs_client::Client;
use gs_journal::MemoryDisk;
use gs_path::Path;
use gs_shell_desk::Wire;
use std::alloc::{AllocError, Global};
use std::test::Fail;

/// A path of so many elements, put together one by one.
fn path_of(alloc: Global, count: u64) -> Result<Path, Refusal> {
    let one = Path::parse(alloc, "/d")?;
    let mut path = Path::root(alloc);
    for _ in 0..count {
        if let Some(name) = one.name() {
            path = path.join(alloc, name)?;
        }
    }
    Ok(path)
}

/// The line of an answer.
fn line_of<A: Drop>(alloc: Global, answer: Result<A, Refusal>) -> Result<String, AllocError> {
    match answer {
        Ok(_) => String::from_str(alloc, "ok"),
        Err(refusal) => format!(in alloc; "{refusal}"),
    }
}

/// What is answered to calls that name a path of so many elements.
fn answers(
    client: &mut Client,
    link: &mut Wire<MemoryDisk>,
    count: u64,
) -> Result<String, Refusal> {
    let alloc = link.alloc;
    let made = client.mkdirs(link, path_of(alloc, count)?);
    let listed = client.list(link, path_of(alloc, count)?);
    let copied = client.snapshot(link, path_of(alloc, 1)?, path_of(alloc, count)?);
    let lines = vec![in alloc;
        line_of(alloc, made)?,
        line_of(alloc, listed)?,
        line_of(alloc, copied)?,
    ]?;
    Ok(lines.join(alloc, "\n")?)
}

#[test]
fn a_path_of_65_elements_is_refused(rt: HostRuntime) -> Result<(), Fail> {
    let mut store = new_store(rt.alloc())?;
    assert_eq!(rt;
        answers(&mut store.caller.client, &mut store.wire, 65)?.as_str(),
        "refused 1 BadPath\nrefused 1 BadPath\nrefused 1 BadPath"
    );
    assert_eq!(rt;
        answers(&mut store.caller.client, &mut store.wire, 64)?.as_str(),
        "ok\nok\nrefused 8 IntoItself"
    );
    Ok(())
}

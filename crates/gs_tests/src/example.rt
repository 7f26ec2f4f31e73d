// A store as a library: an upgrade is prepared, what is done in it goes wrong, and it is rolled back.
use gs_base::{Config, Refusal};
use gs_client::Client;
use gs_journal::MemoryDisk;
use gs_path::Path;
use gs_shell_desk::{Desk, Wire};
use std::alloc::Global;
use std::test::Fail;

/// What carries a client's requests to the nodes of the store.
type Link = Wire<MemoryDisk>;

/// A disk in memory with nothing on it.
fn empty_disk(alloc: Global) -> MemoryDisk {
    MemoryDisk::new(Vec::new(alloc))
}

/// A new store of three servers in one rack, with each chunk on all three, in blocks of 4 KiB and chunks of 1 MiB. The two disks
/// are those of its master's journal.
pub fn new_store(alloc: Global) -> Result<Desk<MemoryDisk>, Refusal> {
    let config = Config::new(3, 1, 3, 4096, 1_048_576)?;
    let disks = (empty_disk(alloc), empty_disk(alloc));
    Desk::new(alloc, config, disks).map_err(|unopened| unopened.refusal)
}

/// Writes at the beginning of a file. What is open for writing has to be closed, also where a write was refused.
fn write(client: &mut Client, link: &mut Link, path: &str, text: &str) -> Result<(), Refusal> {
    let alloc = link.alloc;
    let mut file = client.open_write(link, Path::parse(alloc, path)?)?;
    let written = file.write(client, link, 0, text.as_bytes());
    let _edits = file.close();
    written
}

/// Adds a record at the end of a file, and tells where it stands.
fn append(client: &mut Client, link: &mut Link, path: &str, text: &str) -> Result<u64, Refusal> {
    let alloc = link.alloc;
    let mut file = client.open_write(link, Path::parse(alloc, path)?)?;
    let place = file.append(client, link, text.as_bytes());
    let _edits = file.close();
    place
}

/// Deletes what stands at a path, with all under it, and tells the path under which it is hidden.
fn delete(client: &mut Client, link: &mut Link, path: &str) -> Result<String, Refusal> {
    let alloc = link.alloc;
    match client.delete(link, Path::parse(alloc, path)?, true)? {
        Some(hidden) => Ok(hidden.text(alloc)?),
        None => Err(Refusal::NotFound),
    }
}

/// Begins an upgrade, which can be rolled back from here on, and tells its epoch. Where a chunk is still written to, what was
/// begun is given up.
fn prepare(client: &mut Client, link: &mut Link) -> Result<u64, Refusal> {
    client.prepare_begin(link)?;
    let committed = client.prepare_commit(link);
    if let Err(Refusal::NotQuiet(_)) = &committed {
        client.prepare_abort(link)?;
    }
    committed
}

/// Gives back the tree and the bytes of the prepare, and tells the epoch behind the upgrade.
fn roll_back(client: &mut Client, link: &mut Link) -> Result<u64, Refusal> {
    client.rollback_begin(link)?;
    client.rollback_commit(link)
}

/// Tells the names in a directory.
fn show_names(client: &mut Client, link: &mut Link, told: &mut Vec<String>) -> Result<(), Refusal> {
    let alloc = link.alloc;
    let names = client.list(link, Path::parse(alloc, "/trips")?)?;
    for child in names.as_slice() {
        told.push(format!(in alloc; "/trips has {}", child.name.as_str())?)?;
    }
    Ok(())
}

/// Tells the first 100 bytes of a file.
fn show_text(client: &mut Client, link: &mut Link, told: &mut Vec<String>) -> Result<(), Refusal> {
    let alloc = link.alloc;
    let mut file = client.open_read(link, Path::parse(alloc, "/trips/alps")?)?;
    let bytes = file.read(client, link, 0, 100)?;
    let text = str::from_utf8(bytes.as_slice()).unwrap_or("no text");
    told.push(format!(in alloc; "/trips/alps says: {text}")?)?;
    Ok(())
}

/// Tells the names in the directory, and what the file in it says.
fn show(client: &mut Client, link: &mut Link, told: &mut Vec<String>) -> Result<(), Refusal> {
    show_names(client, link, told)?;
    show_text(client, link, told)
}

/// What is in the store before an upgrade.
fn begin(client: &mut Client, link: &mut Link, told: &mut Vec<String>) -> Result<(), Refusal> {
    let alloc = link.alloc;
    client.mkdirs(link, Path::parse(alloc, "/trips")?)?;
    client.create(link, Path::parse(alloc, "/trips/alps")?)?;
    write(client, link, "/trips/alps", "Hut booked.")?;
    let place = append(client, link, "/trips/alps", " Train too.")?;
    told.push(format!(in alloc; "the record stands at byte {place}")?)?;
    show(client, link, told)
}

/// What goes wrong in the upgrade.
fn upgrade(client: &mut Client, link: &mut Link, told: &mut Vec<String>) -> Result<(), Refusal> {
    let alloc = link.alloc;
    let epoch = prepare(client, link)?;
    told.push(format!(in alloc; "epoch {epoch}: an upgrade")?)?;
    write(client, link, "/trips/alps", "Hut closed.")?;
    show(client, link, told)?;
    let hidden = delete(client, link, "/trips")?;
    told.push(format!(in alloc; "/trips is deleted, and hidden as {hidden}")?)?;
    Ok(())
}

/// What is in the store before an upgrade, in it, and behind its rollback.
fn tour(client: &mut Client, link: &mut Link, told: &mut Vec<String>) -> Result<(), Refusal> {
    begin(client, link, told)?;
    upgrade(client, link, told)?;
    let epoch = roll_back(client, link)?;
    told.push(format!(in link.alloc; "epoch {epoch}: rolled back")?)?;
    show(client, link, told)
}

/// What a tour of a new store tells, a line each.
fn tale(alloc: Global) -> Result<String, Refusal> {
    let mut told = Vec::new(alloc);
    let mut store = new_store(alloc)?;
    tour(&mut store.caller.client, &mut store.wire, &mut told)?;
    Ok(told.join(alloc, "\n")?)
}

#[test]
fn what_stood_at_the_prepare_comes_back(rt: HostRuntime) -> Result<(), Fail> {
    assert_eq!(rt;
        tale(rt.alloc())?.as_str(),
        "the record stands at byte 11
/trips has alps
/trips/alps says: Hut booked. Train too.
epoch 1: an upgrade
/trips has alps
/trips/alps says: Hut closed. Train too.
/trips is deleted, and hidden as /.deleted.00000000000000000000.00000000000000000001.trips
epoch 2: rolled back
/trips has alps
/trips/alps says: Hut booked. Train too."
    );
    Ok(())
}

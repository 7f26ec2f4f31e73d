// Replicas and stores as another program writes them, and bytes of none.
use crate::{put_replica, put_store, read_replica, read_store};
use gs_base::{ClientId, EpochEnd, Handle, ReqId, Stamp};
use gs_block::Sizes;
use gs_fields::Cursor;
use gs_replica::{Op, Replica};
use gs_store::Store;
use std::alloc::Global;
use std::test::Fail;

// A sealed replica of the bytes `xycdef` in blocks of 4, which were `abcdef` when it was sealed: what stands, then the seal.
const SEALED: [u8; 296] = [
    0, 0, 0, 0, 0, 0, 0, 1, 0, 0, 0, 0, 0, 0, 0, 1, 0, 0, 0, 0, 0, 0, 0, 2, //
    0, 0, 0, 0, 0, 0, 0, 1, 0, 0, 0, 7, 0, 0, 0, 0, 0, 0, 0, 2, 0, 0, 0, 0, 0, 0, 0, 0, 0, //
    0, 0, 0, 0, 0, 0, 0, 6, b'x', b'y', b'c', b'd', b'e', b'f', 0, 0, 0, 0, 0, 0, 0, 2, //
    201, 47, 216, 140, 15, 163, 226, 189, 80, 76, 59, 26, 107, 109, 238, 67, 145, 220, 204, 138,
    203, 93, 71, 107, 213, 17, 254, 153, 1, 16, 208, 233, //
    76, 166, 105, 172, 55, 19, 209, 244, 174, 160, 125, 174, 141, 204, 13, 28, 152, 103, 210, 126,
    168, 42, 59, 164, 230, 21, 138, 66, 32, 111, 149, 155, //
    1, 0, 0, 0, 0, 0, 0, 0, 1, 0, 0, 0, 0, 0, 0, 0, 1, 0, 0, 0, 0, 0, 0, 0, 1, //
    0, 0, 0, 0, 0, 0, 0, 6, 0, 0, 0, 0, 0, 0, 0, 2, //
    136, 212, 38, 111, 212, 230, 51, 141, 19, 184, 69, 252, 242, 137, 87, 157, 32, 156, 137, 120,
    35, 185, 33, 125, 163, 225, 97, 147, 111, 3, 21, 137, //
    76, 166, 105, 172, 55, 19, 209, 244, 174, 160, 125, 174, 141, 204, 13, 28, 152, 103, 210, 126,
    168, 42, 59, 164, 230, 21, 138, 66, 32, 111, 149, 155, //
    0, 0, 0, 0, 0, 0, 0, 2, 1, 0, 0, 0, 0, 0, 0, 0, 4, b'a', b'b', b'c', b'd', 0, //
    0, 0, 0, 0, 0, 0, 0, 1, 0, 0, 0, 7, 1, 0, 0, 0, 0, 0, 0, 0, 1, 1, 0, 0, 0, 0, 0, 0, 0, 0,
];

// Where the two tags of options stand, of the seal and of its first image, and that of an outcome.
const TAGS: [usize; 3] = [44, 139, 252];

fn sizes() -> Sizes {
    Sizes {
        block: 4,
        chunk: 16,
    }
}

fn stamp(version: u64) -> Stamp {
    Stamp { epoch: 1, version }
}

fn req(number: u64) -> ReqId {
    ReqId {
        client: ClientId(7),
        number,
    }
}

fn sealed(alloc: Global) -> Result<Replica, Fail> {
    let mut replica = Replica::new(alloc, sizes(), stamp(1));
    replica.apply(stamp(1), 1, req(1), Op::Append, b"abcdef")?;
    replica.seal()?;
    replica.apply(stamp(1), 2, req(2), Op::Write(0), b"xy")?;
    Ok(replica)
}

// Whether bytes are read as a replica.
fn is_read(alloc: Global, bytes: &[u8]) -> bool {
    let mut cursor = Cursor { rest: bytes };
    read_replica(alloc, sizes(), &mut cursor).is_ok()
}

// A store of two handles: of the first a sealed replica with a bad block, and of the second one in the trash.
fn stored(alloc: Global) -> Result<Store, Fail> {
    let mut store = Store::new(alloc, sizes())?;
    let first = Handle::first();
    let second = first.next()?;
    store.create(first, stamp(1))?;
    store.apply(first, stamp(1), 1, req(1), Op::Append, b"abcdef")?;
    store.take_lease(first, stamp(1))?;
    store.create(second, stamp(2))?;
    store.learn(1, EpochEnd::Prepare)?;
    store.drop_replica(second, stamp(2))?;
    store.mark_bad(first, 1);
    Ok(store)
}

fn bytes_of(alloc: Global, store: &Store) -> Result<Vec<u8>, Fail> {
    let mut out = Vec::new(alloc);
    put_store(store, alloc, &mut out)?;
    Ok(out)
}

#[test]
fn a_sealed_replica_is_as_another_program_writes_it(rt: HostRuntime) -> Result<(), Fail> {
    let alloc = rt.alloc();
    let mut out = Vec::new(alloc);
    put_replica(&sealed(alloc)?, alloc, &mut out)?;
    assert!(rt; out.as_slice() == SEALED.as_slice());
    Ok(())
}

#[test]
fn it_is_read_with_what_undoing_gives(rt: HostRuntime) -> Result<(), Fail> {
    let alloc = rt.alloc();
    let mut cursor = Cursor { rest: &SEALED };
    let replica = read_replica(alloc, sizes(), &mut cursor)?;
    assert!(rt; cursor.rest.is_empty());
    assert!(rt; replica.bytes() == b"xycdef".as_slice());
    match replica.roll_back(stamp(2)) {
        Ok(back) => assert!(rt; back.bytes() == b"abcdef".as_slice()),
        Err(_) => assert!(rt; false),
    }
    Ok(())
}

#[test]
fn each_cut_and_each_other_tag_is_refused(rt: HostRuntime) -> Result<(), Fail> {
    let alloc = rt.alloc();
    for end in 0..SEALED.len() {
        assert!(rt; !is_read(alloc, &SEALED[..end]));
    }
    for at in TAGS {
        let mut bytes = SEALED;
        bytes[at] = 3;
        assert!(rt; !is_read(alloc, &bytes));
    }
    Ok(())
}

#[test]
fn a_store_is_read_again(rt: HostRuntime) -> Result<(), Fail> {
    let alloc = rt.alloc();
    let bytes = bytes_of(alloc, &stored(alloc)?)?;
    let mut cursor = Cursor { rest: &bytes };
    let store = read_store(alloc, sizes(), &mut cursor)?;
    assert!(rt; cursor.rest.is_empty());
    assert!(rt; bytes_of(alloc, &store)? == bytes);
    let first = Handle::first();
    let second = first.next()?;
    assert!(rt; store.epoch() == 1);
    assert!(rt; store.bad(first) == Some(1));
    assert!(rt; store.is_taken(first, stamp(1)));
    assert!(rt; store.promised(second) == stamp(2));
    assert!(rt; store.count(second).is_none());
    Ok(())
}

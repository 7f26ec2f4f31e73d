// The parts of a store as another program writes them, and parts of none.
use crate::{Head, put_parts, read_parts};
use gs_base::{Config, ServerId};
use gs_fields::Fault;
use gs_server::Server;
use std::alloc::Global;
use std::test::Fail;

// Two servers in one rack, one replica, chunks of 16 bytes and blocks of 4; moment 3, request 258, memory was wanting, 5 drops.
const HEAD: [u8; 65] = [
    0, 0, 0, 0, 0, 0, 0, 2, 0, 0, 0, 0, 0, 0, 0, 1, 0, 0, 0, 0, 0, 0, 0, 1, //
    0, 0, 0, 0, 0, 0, 0, 16, 0, 0, 0, 0, 0, 0, 0, 4, //
    0, 0, 0, 0, 0, 0, 0, 3, 0, 0, 0, 0, 0, 0, 1, 2, 1, 0, 0, 0, 0, 0, 0, 0, 5,
];

// A server that has heard nothing: epoch 0, no chunk, and nothing that it refused.
const SILENT: [u8; 24] = [0; 24];

// What else may stand where in the head: a third server, no server, a block of 5 bytes, and a flag that is none.
const OTHERS: [(usize, u8); 4] = [(7, 3), (7, 0), (39, 5), (56, 2)];

fn made(alloc: Global) -> Result<Vec<Vec<u8>>, Fail> {
    let config = Config::new(2, 1, 1, 4, 16)?;
    let head = Head {
        config,
        moment: 3,
        last: 258,
        is_short: true,
        drops: 5,
    };
    let mut servers = Vec::new(alloc);
    servers.push(Server::new(alloc, config, ServerId::new(0).unwrap())?)?;
    servers.push(Server::new(alloc, config, ServerId::new(1).unwrap())?)?;
    let disks = (b"one".as_slice(), b"".as_slice());
    Ok(put_parts(alloc, head, disks, &servers)?)
}

fn is_refused(alloc: Global, parts: &[&[u8]]) -> bool {
    matches!(read_parts(alloc, parts), Err(Fault::Form))
}

#[test]
fn a_store_is_as_another_program_writes_it(rt: HostRuntime) -> Result<(), Fail> {
    let alloc = rt.alloc();
    let parts = made(alloc)?;
    assert!(rt; parts.len() == 5);
    assert!(rt; parts[0].as_slice() == HEAD.as_slice());
    assert!(rt; parts[1].as_slice() == b"one".as_slice());
    assert!(rt; parts[2].is_empty());
    assert!(rt; parts[3].as_slice() == SILENT.as_slice());
    assert!(rt; parts[4].as_slice() == SILENT.as_slice());
    Ok(())
}

#[test]
fn it_is_read_again(rt: HostRuntime) -> Result<(), Fail> {
    let alloc = rt.alloc();
    let parts = [HEAD.as_slice(), b"one", b"", &SILENT, &SILENT];
    let store = read_parts(alloc, &parts)?;
    assert!(rt; store.head.last == 258);
    assert!(rt; store.head.is_short);
    assert!(rt; store.servers.len() == 2);
    let disks = (store.first, store.second);
    assert!(rt; put_parts(alloc, store.head, disks, &store.servers)? == made(alloc)?);
    Ok(())
}

#[test]
fn parts_of_no_store_are_refused(rt: HostRuntime) -> Result<(), Fail> {
    let alloc = rt.alloc();
    let parts = [HEAD.as_slice(), b"one", b"", &SILENT, &SILENT];
    for end in 0..parts.len() {
        assert!(rt; is_refused(alloc, &parts[..end]));
    }
    for (at, other) in OTHERS {
        let mut head = HEAD;
        head[at] = other;
        assert!(rt; is_refused(alloc, &[&head, b"one", b"", &SILENT, &SILENT]));
    }
    let more = [HEAD.as_slice(), b"one", b"", &SILENT, &SILENT, &SILENT];
    assert!(rt; is_refused(alloc, &more));
    let longer = [HEAD.as_slice(), b"one", b"", &[0; 25], &SILENT];
    assert!(rt; is_refused(alloc, &longer));
    Ok(())
}

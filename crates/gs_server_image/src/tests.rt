// A server as another program writes it, and bytes of none.
use crate::{put_server, read_server};
use gs_base::{ClientId, Handle, Refusal, ServerId, Stamp};
use gs_base_table::Table;
use gs_block::Sizes;
use gs_fields::Cursor;
use gs_server::{KeptRefusal, Server};
use gs_store::Store;
use std::alloc::Global;
use std::test::Fail;

// A server in epoch 0, which keeps nothing of a chunk: request 2 of client 5 was `Old`, and request 3 of client 7 was `Stamp 1.4`.
const SERVER: [u8; 57] = [
    0, 0, 0, 0, 0, 0, 0, 0, 0, 0, 0, 0, 0, 0, 0, 0, //
    0, 0, 0, 0, 0, 0, 0, 2, //
    0, 0, 0, 5, 0, 0, 0, 0, 0, 0, 0, 2, 19, 0, 0, //
    0, 0, 0, 7, 0, 0, 0, 0, 0, 0, 0, 3, 22, 0, 3, b'1', b'.', b'4',
];

// What else may stand where: a refusal without a number, a detail that a refusal has none of, and a client that stands twice.
const OTHERS: [(usize, u8); 5] = [(36, 39), (36, 23), (51, 19), (55, b'-'), (42, 5)];

fn sizes() -> Sizes {
    Sizes {
        block: 4,
        chunk: 16,
    }
}

fn with_refusals(alloc: Global, store: Store) -> Result<Server, Fail> {
    let mut refused = Table::new(alloc);
    refused.reserve(ClientId(7))?;
    refused.reserve(ClientId(5))?;
    let stamp = Stamp {
        epoch: 1,
        version: 4,
    };
    let later = KeptRefusal {
        number: 3,
        refusal: Refusal::Stamp(stamp),
    };
    let old = KeptRefusal {
        number: 2,
        refusal: Refusal::Old,
    };
    refused.put(ClientId(7), later);
    refused.put(ClientId(5), old);
    let id = ServerId::new(2).unwrap();
    Ok(Server::of(alloc, id, store, refused))
}

fn bytes_of(alloc: Global, server: &Server) -> Result<Vec<u8>, Fail> {
    let mut out = Vec::new(alloc);
    put_server(server, alloc, &mut out)?;
    Ok(out)
}

// Whether bytes are read as a server.
fn is_read(alloc: Global, bytes: &[u8]) -> bool {
    let mut cursor = Cursor { rest: bytes };
    read_server(alloc, ServerId::new(2).unwrap(), sizes(), &mut cursor).is_ok()
}

#[test]
fn a_server_is_as_another_program_writes_it(rt: HostRuntime) -> Result<(), Fail> {
    let alloc = rt.alloc();
    let server = with_refusals(alloc, Store::new(alloc, sizes())?)?;
    assert!(rt; bytes_of(alloc, &server)?.as_slice() == SERVER.as_slice());
    Ok(())
}

#[test]
fn it_is_read_with_what_it_refused(rt: HostRuntime) -> Result<(), Fail> {
    let alloc = rt.alloc();
    let mut cursor = Cursor { rest: &SERVER };
    let server = read_server(alloc, ServerId::new(2).unwrap(), sizes(), &mut cursor)?;
    assert!(rt; cursor.rest.is_empty());
    for (client, kept) in server.refusals() {
        let wanted = if client == ClientId(5) { 19 } else { 22 };
        assert!(rt; kept.refusal.number() == wanted);
    }
    assert!(rt; bytes_of(alloc, &server)?.as_slice() == SERVER.as_slice());
    Ok(())
}

#[test]
fn each_cut_and_other_bytes_are_refused(rt: HostRuntime) -> Result<(), Fail> {
    let alloc = rt.alloc();
    for end in 0..SERVER.len() {
        assert!(rt; !is_read(alloc, &SERVER[..end]));
    }
    for (at, other) in OTHERS {
        let mut bytes = SERVER;
        bytes[at] = other;
        assert!(rt; !is_read(alloc, &bytes));
    }
    Ok(())
}

#[test]
fn what_it_keeps_is_read_again(rt: HostRuntime) -> Result<(), Fail> {
    let alloc = rt.alloc();
    let mut store = Store::new(alloc, sizes())?;
    let handle = Handle::first();
    let stamp = Stamp {
        epoch: 0,
        version: 1,
    };
    store.create(handle, stamp)?;
    let bytes = bytes_of(alloc, &with_refusals(alloc, store)?)?;
    let mut cursor = Cursor { rest: &bytes };
    let server = read_server(alloc, ServerId::new(2).unwrap(), sizes(), &mut cursor)?;
    assert!(rt; server.store().promised(handle) == stamp);
    assert!(rt; bytes_of(alloc, &server)? == bytes);
    Ok(())
}

// Headers and records as they stand on a disk.
ghost use Rattle.std.specs.Prelude.{◌≡◌, ◌≤◌, ◌<◌, ◌^◌, length, true, IfSome, IfOk, IfErr, is_some};
ghost use Rattle.gs_base.specs.declared.refusal.Refusal.TheVariants.{Memory};
ghost use Rattle.gs_journal.specs.Records.{header_length, records_of};
ghost use Rattle.gs_journal.specs.Forms.{are_of_form};
ghost use Rattle.gs_journal.specs.inner.Frames.{FindsRecord, FindsHeader, IsEnd};

use crate::form::is_of_form;
use crate::record::Record;
use crate::version::Version;
use byteorder::{BigEndian, ByteOrder};
use gs_base::Refusal;
use gs_journal_disk::is_open;
use std::alloc::Global;

/// How many bytes a header has: a gate, a mark of four, and a generation of eight.
pub(crate) const HEADER: usize = 13;

/// What a disk's header says.
#[derive(Clone, Copy)]
pub(crate) struct Header {
    pub(crate) version: Version,
    pub(crate) generation: u64,
}

/// A record as it stands on a disk.
#[derive(Clone, Copy)]
pub(crate) struct Found<'a> {
    pub(crate) kind: u8,
    pub(crate) body: &'a [u8],
    pub(crate) rest: &'a [u8],
}

/// The header of a disk that may count.
pub(crate) fn header_of(bytes: &[u8]) -> Option<Header>
    ensures { FindsHeader result bytes.now }
{
    if bytes.len() < HEADER || !is_open(bytes[0]) {
        return None;
    }
    if bytes[1] != b'G' || bytes[2] != b'S' || bytes[3] != b'J' {
        return None;
    }
    let version = match bytes[4] {
        b'1' => Version::One,
        b'2' => Version::Two,
        _ => return None,
    };
    Some(Header {
        version,
        generation: BigEndian::read_u64(&bytes[5..]),
    })
}

/// The record at the front, if its gate is open and it is whole.
pub(crate) fn record_at(bytes: &[u8]) -> Option<Found<'_>>
    ensures fits { IfSome result (λ found. length found.body.now < 2 ^ 32) }
    ensures found { FindsRecord result bytes.now }
{
    let (gate, behind) = bytes.split_first()?;
    if !is_open(*gate) || behind.len() < 5 {
        return None;
    }
    let length = BigEndian::read_u32(behind) as usize;
    if behind.len() - 5 < length {
        return None;
    }
    Some(Found {
        kind: behind[4],
        body: &behind[5..5 + length],
        rest: &behind[5 + length..],
    })
}

/// Where the records end, if each is of its form.
pub(crate) fn end_of_records(bytes: &[u8], version: Version) -> Option<usize>
    requires { header_length ≤ length bytes.now }
    ensures end { IfSome result (λ end. IsEnd end bytes.now) }
    ensures form { is_some result ≡ are_of_form version true (records_of bytes.now) }
{
    let mut end = HEADER;
    let mut rest = &bytes[HEADER..];
    let mut is_first = true;
    while let Some(found) = record_at(rest) {
        if !is_of_form(version, is_first, found.kind, found.body) {
            return None;
        }
        end += 6 + found.body.len();
        rest = found.rest;
        is_first = false;
    }
    Some(end)
}

/// The records of a disk.
pub(crate) fn records_in(alloc: Global, bytes: &[u8]) -> Result<Vec<Record>, Refusal>
    requires { header_length ≤ length bytes.now }
    ensures records { IfOk result (λ records. records.items ≡ records_of bytes.now) }
    ensures refused { IfErr result (λ e. e ≡ Memory) }
{
    let mut records = Vec::new(alloc);
    let mut rest = &bytes[HEADER..];
    while let Some(found) = record_at(rest) {
        records.push(Record::new(alloc, found.kind, found.body)?)?;
        rest = found.rest;
    }
    Ok(records)
}

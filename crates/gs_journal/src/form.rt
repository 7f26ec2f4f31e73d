// The form of each kind's body.
ghost use Rattle.std.specs.Prelude.{◌≡◌, ◌*◌, ◌<◌, ◌^◌};
ghost use Rattle.gs_journal.specs.Reading as reading;
ghost use Rattle.gs_journal.specs.Bodies as bodies;
ghost use Rattle.gs_journal.specs.inner.Items.{passes, part_of};

use crate::version::Version;
use byteorder::{BigEndian, ByteOrder};

/// What a byte has to be.
#[derive(Clone, Copy)]
enum Test {
    Server,
    Primary,
    Refusal,
    Outcome,
    Flag,
    Phase,
    EndOfEpoch,
}

/// What a list is of.
#[derive(Clone, Copy)]
enum Listed {
    Text,
    EndOfEpoch,
    TreeEntry,
    SettledEntry,
    Reply,
    PreparedView(Version),
}

/// The bytes behind the first `n`.
fn skip(bytes: &[u8], n: usize) -> Option<&[u8]>
    ensures { reading.LeavesRest result (reading.skip n bytes.now) }
{
    if n <= bytes.len() {
        Some(&bytes[n..])
    } else {
        None
    }
}

fn passes(test: Test, byte: u8) -> bool
    ensures { result ≡ passes test byte }
{
    match test {
        Test::Server => byte <= 15,
        Test::Primary => byte <= 15 || byte == 255,
        Test::Refusal => 1 <= byte && byte <= 38,
        Test::Outcome => byte <= 38,
        Test::Flag => byte <= 1,
        Test::Phase => byte == 0 || (byte == 2 || byte == 3),
        Test::EndOfEpoch => 1 <= byte && byte <= 3,
    }
}

/// The bytes behind one that passes the test.
fn byte(bytes: &[u8], test: Test) -> Option<&[u8]>
    ensures { reading.LeavesRest result (reading.byte (passes test) bytes.now) }
{
    match bytes {
        [first, rest @ ..] if passes(test, *first) => Some(rest),
        _ => None,
    }
}

/// The bytes behind a text.
fn text(bytes: &[u8]) -> Option<&[u8]>
    ensures { reading.LeavesRest result (reading.text bytes.now) }
{
    let rest = skip(bytes, 2)?;
    skip(rest, usize::from(BigEndian::read_u16(bytes)))
}

/// The number that stands in the first four bytes, and the bytes behind it.
fn count(bytes: &[u8]) -> Option<(u32, &[u8])>
    ensures { reading.Counts result bytes.now }
{
    let rest = skip(bytes, 4)?;
    Some((BigEndian::read_u32(bytes), rest))
}

/// The bytes behind a list of items of `size` bytes.
fn items(bytes: &[u8], size: usize) -> Option<&[u8]>
    requires { size < 2 ^ 16 }
    ensures { reading.LeavesRest result (reading.items size bytes.now) }
{
    let (n, rest) = count(bytes)?;
    skip(rest, n as usize * size)
}

/// The bytes behind a settled view.
fn settled(bytes: &[u8]) -> Option<&[u8]>
    ensures { reading.LeavesRest result (bodies.settled bytes.now) }
{
    let rest = skip(bytes, 34)?;
    let rest = byte(rest, Test::Primary)?;
    skip(rest, 8)
}

/// The bytes behind an entry of a checkpoint's tree.
fn tree_entry(bytes: &[u8]) -> Option<&[u8]>
    ensures { reading.LeavesRest result (bodies.tree_entry bytes.now) }
{
    let rest = text(bytes)?;
    match rest {
        [0, rest @ ..] => Some(rest),
        [1, rest @ ..] => items(rest, 8),
        _ => None,
    }
}

/// The bytes behind a kept reply of a checkpoint.
fn reply(bytes: &[u8]) -> Option<&[u8]>
    ensures { reading.LeavesRest result (bodies.reply bytes.now) }
{
    let rest = skip(bytes, 12)?;
    let rest = byte(rest, Test::Outcome)?;
    text(rest)
}

/// The bytes behind a prepared view of a checkpoint.
fn prepared_view(bytes: &[u8], version: Version) -> Option<&[u8]>
    ensures { reading.LeavesRest result (bodies.prepared_view version bytes.now) }
{
    let rest = settled(bytes)?;
    match version {
        Version::One => Some(rest),
        Version::Two => skip(rest, 2),
    }
}

/// The bytes behind a settled view with its flag.
fn settled_entry(bytes: &[u8]) -> Option<&[u8]>
    ensures { reading.LeavesRest result (bodies.settled_entry bytes.now) }
{
    let rest = settled(bytes)?;
    byte(rest, Test::Flag)
}

/// The bytes behind an item.
fn item(bytes: &[u8], of: Listed) -> Option<&[u8]>
    ensures { reading.LeavesRest result (part_of of bytes.now) }
{
    match of {
        Listed::Text => text(bytes),
        Listed::EndOfEpoch => byte(bytes, Test::EndOfEpoch),
        Listed::TreeEntry => tree_entry(bytes),
        Listed::SettledEntry => settled_entry(bytes),
        Listed::Reply => reply(bytes),
        Listed::PreparedView(version) => prepared_view(bytes, version),
    }
}

/// The bytes behind a list.
fn list(bytes: &[u8], of: Listed) -> Option<&[u8]>
    ensures { reading.LeavesRest result (reading.list (part_of of) bytes.now) }
{
    let (n, mut rest) = count(bytes)?;
    for _ in 0..n {
        rest = item(rest, of)?;
    }
    Some(rest)
}

/// The bytes behind two texts.
fn two_texts(bytes: &[u8]) -> Option<&[u8]>
    ensures { reading.LeavesRest result (reading.two_texts bytes.now) }
{
    let rest = text(bytes)?;
    text(rest)
}

/// The bytes behind a text and `n` bytes more.
fn text_and(bytes: &[u8], n: usize) -> Option<&[u8]>
    ensures { reading.LeavesRest result (reading.text_and n bytes.now) }
{
    let rest = text(bytes)?;
    skip(rest, n)
}

/// The bytes behind an inverse.
fn inverse(bytes: &[u8]) -> Option<&[u8]>
    ensures { reading.LeavesRest result (bodies.inverse bytes.now) }
{
    let (tag, rest) = bytes.split_first()?;
    match *tag {
        1 | 2 => list(rest, Listed::Text),
        3 | 4 | 5 => two_texts(rest),
        6 => list(rest, Listed::TreeEntry),
        7 | 9 => text(rest),
        8 => text_and(rest, 12),
        10 => items(rest, 8),
        _ => None,
    }
}

/// The bytes behind a list of inverses.
fn inverses(bytes: &[u8]) -> Option<&[u8]>
    ensures { reading.LeavesRest result (reading.list bodies.inverse bytes.now) }
{
    let (n, mut rest) = count(bytes)?;
    for _ in 0..n {
        rest = inverse(rest)?;
    }
    Some(rest)
}

/// The bytes behind an edit.
fn edit(bytes: &[u8]) -> Option<&[u8]>
    ensures { reading.LeavesRest result (bodies.edit bytes.now) }
{
    let (tag, rest) = bytes.split_first()?;
    match *tag {
        1 | 2 | 5 | 6 => text(rest),
        3 | 9 => two_texts(rest),
        4 => text_and(rest, 16),
        7 => text_and(rest, 8),
        8 => text_and(rest, 20),
        10 => items(rest, 8),
        _ => None,
    }
}

/// The bytes behind the lists of a checkpoint.
fn checkpoint_lists(bytes: &[u8], version: Version) -> Option<&[u8]>
    ensures { reading.LeavesRest result (bodies.checkpoint_lists version bytes.now) }
{
    let rest = list(bytes, Listed::TreeEntry)?;
    let rest = items(rest, 12)?;
    let rest = list(rest, Listed::SettledEntry)?;
    let rest = list(rest, Listed::Reply)?;
    let rest = list(rest, Listed::PreparedView(version))?;
    inverses(rest)
}

/// The bytes behind a checkpoint.
fn checkpoint(bytes: &[u8], version: Version) -> Option<&[u8]>
    ensures { reading.LeavesRest result (bodies.checkpoint version bytes.now) }
{
    let rest = skip(bytes, 32)?;
    let rest = byte(rest, Test::Phase)?;
    let rest = list(rest, Listed::EndOfEpoch)?;
    checkpoint_lists(rest, version)
}

/// The bytes behind the body of an edit.
fn edit_body(bytes: &[u8]) -> Option<&[u8]>
    ensures { reading.LeavesRest result (bodies.edit_body bytes.now) }
{
    let rest = skip(bytes, 12)?;
    edit(rest)
}

/// The bytes behind the body of a kept refusal.
fn said_body(bytes: &[u8]) -> Option<&[u8]>
    ensures { reading.LeavesRest result (bodies.said_body bytes.now) }
{
    let rest = skip(bytes, 12)?;
    let rest = byte(rest, Test::Refusal)?;
    text(rest)
}

/// The bytes behind the body of a rollback.
fn rollback_body(bytes: &[u8]) -> Option<&[u8]>
    ensures { reading.LeavesRest result (bodies.rollback_body bytes.now) }
{
    let rest = skip(bytes, 8)?;
    items(rest, 10)
}

/// The bytes behind the body of a holder.
fn holder_body(bytes: &[u8]) -> Option<&[u8]>
    ensures { reading.LeavesRest result (bodies.holder_body bytes.now) }
{
    let rest = skip(bytes, 8)?;
    byte(rest, Test::Server)
}

/// The bytes behind the body of a record.
fn body(bytes: &[u8], version: Version, is_first: bool, kind: u8) -> Option<&[u8]>
    ensures { reading.LeavesRest result (bodies.body version is_first kind bytes.now) }
{
    match kind {
        1 => edit_body(bytes),
        2 => said_body(bytes),
        3 => skip(bytes, 16),
        4 => settled(bytes),
        5 => skip(bytes, 20),
        6 | 7 => skip(bytes, 8),
        8 => rollback_body(bytes),
        9 if is_first => checkpoint(bytes, version),
        10 if version == Version::Two => holder_body(bytes),
        _ => None,
    }
}

/// Whether a record is of its form. Its kind is known, and its body has the lengths, the counts and the tags of its kind.
/// A checkpoint is of its form as the first record of a disk alone, and a holder from version 2 on. Texts are any
/// bytes here, and numbers any numbers: whether a record can be replayed is another question.
pub fn is_of_form(version: Version, is_first: bool, kind: u8, bytes: &[u8]) -> bool
    ensures { result ≡ bodies.is_of_form version is_first (kind, bytes.now) }
{
    match body(bytes, version, is_first, kind) {
        Some(rest) => rest.is_empty(),
        None => false,
    }
}

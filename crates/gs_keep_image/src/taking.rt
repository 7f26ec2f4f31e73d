// The image of a desk that rests.
ghost use Rattle.std.specs.Prelude.{◌≡◌, ◌≤◌, length, IfOk};
ghost use Rattle.gs_image.specs.Images.{AreParts, written};
ghost use Rattle.gs_keep_image.specs.Images.{MakesImage, asks_nothing, last_of, may_rest};
ghost use Rattle.gs_parts_image.specs.Work.{bytes_of};

use gs_client::ClientNode;
use gs_desk_image::put_parts;
use gs_fields::Fault;
use gs_image::ImageWriter;
use gs_journal::{Disk, MemoryDisk};
use gs_keep_head::SUM_BYTES;
use gs_shell_desk::Desk;
use std::alloc::{AllocError, Global};

/// An image, as a file has it.
#[derive(Drop)]
pub struct Image {
    pub bytes: Vec<u8>,
    /// The digest that its last bytes tell: that of all before them.
    pub sum: [u8; SUM_BYTES],
}

/// The frame of some parts.
fn framed(alloc: Global, parts: &[Vec<u8>]) -> Result<Vec<u8>, AllocError>
    ensures image { IfOk result (λ bytes. bytes.items ≡ written (bytes_of parts.now)) }
    ensures parts { IfOk result (λ bytes. AreParts (bytes_of parts.now)) }
{
    let mut writer = ImageWriter::new(alloc)?;
    for part in parts {
        writer = writer.with(part)?;
    }
    writer.finish()
}

/// The last bytes of an image, which tell its digest.
pub(crate) fn last_of(bytes: &[u8]) -> [u8; SUM_BYTES]
    requires { 32 ≤ length bytes.now }
    ensures { result ≡ last_of bytes.now }
{
    let mut sum = [0u8; SUM_BYTES];
    sum.copy_from_slice(&bytes[bytes.len() - SUM_BYTES..]);
    sum
}

/// Whether the only client waits for nothing, and has heard nothing since.
fn asks_nothing(clients: &[ClientNode]) -> bool
    ensures { result ≡ asks_nothing clients.now }
{
    match clients {
        [node] => node.waits_for().is_none() && node.reply().is_none(),
        _ => false,
    }
}

/// Whether a desk rests once the disks of its master are closed: nothing is under way or held back, and its client waits for nothing.
pub fn may_rest<D: Disk + Drop>(desk: &Desk<D>) -> bool
    ensures { result ≡ may_rest desk.now }
{
    let wire = &desk.wire;
    wire.queue.is_empty()
        && wire.held_kind.is_none()
        && wire.held.is_empty()
        && asks_nothing(&wire.nodes.clients)
}

/// The image of a desk. `Form` exactly where it doesn't rest, its disks closed, or as many bytes as a field has don't tell of it.
pub fn image_of(desk: &Desk<MemoryDisk>, alloc: Global) -> Result<Image, Fault>
    ensures { MakesImage desk.now result }
{
    let parts = put_parts(desk, alloc)?;
    let bytes = framed(alloc, &parts)?;
    let sum = last_of(&bytes);
    Ok(Image { bytes, sum })
}

// A desk of an image.
ghost use Rattle.std.specs.Prelude.{◌≡◌};
ghost use Rattle.gs_keep_image.specs.Images.{Loads};

use crate::fault::LoadFault;
use crate::taking::last_of;
use gs_base::Config;
use gs_fields::Fault;
use gs_image::ImageFault;
use gs_journal::MemoryDisk;
use gs_keep_head::SUM_BYTES;
use gs_shell_desk::Desk;
use std::alloc::Global;

/// The desk whose image these bytes are, for a log that has these sizes and names this digest. It rests: a restart of the master opens its
/// disks. `Frame` exactly where the bytes are no image, and says why; `Other` where they are one with another digest; `Form` where its
/// parts are those of no store; and `Sizes` where they are those of a store of other sizes.
pub fn desk_of(
    alloc: Global,
    bytes: &[u8],
    config: &Config,
    sum: &[u8; SUM_BYTES],
) -> Result<Desk<MemoryDisk>, LoadFault>
    ensures { Loads config.now sum.now bytes.now result }
{
    let parts = match gs_image::read(alloc, bytes) {
        Ok(parts) => parts,
        Err(ImageFault::Memory) => return Err(LoadFault::Memory),
        Err(fault) => return Err(LoadFault::Frame(fault)),
    };
    if last_of(bytes) != *sum {
        return Err(LoadFault::Other);
    }
    let desk = match gs_desk_image::desk_of(alloc, &parts) {
        Ok(desk) => desk,
        Err(Fault::Memory) => return Err(LoadFault::Memory),
        Err(Fault::Form) => return Err(LoadFault::Form),
    };
    if desk.wire.nodes.config != *config {
        return Err(LoadFault::Sizes);
    }
    Ok(desk)
}

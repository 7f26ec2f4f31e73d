// A desk as parts.
ghost use Rattle.std.specs.Prelude.{◌≡◌, IfNone, IfSome, false};
ghost use Rattle.gs_desk_image.specs.Desks.{IsImageOf, head_of, is_closed};
ghost use Rattle.gs_nodes.specs.declared.place.MasterPlace.TheVariants.{Closed};
ghost use Rattle.gs_parts_image.specs.Stores as stores;

use crate::resting::is_resting;
use gs_fields::Fault;
use gs_journal::{Disk, MemoryDisk};
use gs_nodes::MasterPlace;
use gs_parts_image::Head;
use gs_shell_desk::Desk;
use std::alloc::Global;

/// What the image of a desk tells beside its disks and servers.
fn head_of<D: Disk + Drop>(desk: &Desk<D>) -> Head
    ensures { stores.head_of result ≡ head_of desk.now }
{
    Head {
        config: desk.wire.nodes.config,
        moment: desk.wire.moment.0,
        last: desk.caller.client.last().number,
        is_short: desk.wire.is_short,
        drops: desk.wire.drops,
    }
}

/// The disks of a master that wait to be opened, if they do.
fn closed_disks<D: Disk>(place: &MasterPlace<D>) -> Option<(&D, &D)>
    ensures some { IfSome result (λ disks. place.now ≡ Closed disks.0.now disks.1.now) }
    ensures none { IfNone result (is_closed place.now ≡ false) }
{
    match place {
        MasterPlace::Closed { first, second } => Some((first, second)),
        _ => None,
    }
}

/// The parts of a desk's image. `Form` exactly where it doesn't rest, or as many bytes as a field has don't tell of it. What a restart
/// drops of its servers isn't written, nor the number that its client's node used last: it is the client's. Nor is it written which client
/// it is: who reads the image has client 1, of the sizes.
pub fn put_parts(desk: &Desk<MemoryDisk>, alloc: Global) -> Result<Vec<Vec<u8>>, Fault>
    ensures { IsImageOf desk.now result }
{
    if !is_resting(desk) {
        return Err(Fault::Form);
    }
    let Some((first, second)) = closed_disks(&desk.wire.nodes.master) else {
        return Err(Fault::Form);
    };
    let disks = (first.bytes(), second.bytes());
    gs_parts_image::put_parts(alloc, head_of(desk), disks, &desk.wire.nodes.servers)
}

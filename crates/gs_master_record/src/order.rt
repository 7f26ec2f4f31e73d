// The order of a checkpoint's lists.
ghost use Rattle.std.specs.Prelude.{◌≡◌, IfOk, Bool, map};
ghost use Rattle.gs_master_record.specs.Order.{rises, is_in_order};
ghost use Rattle.gs_master_record.specs.Plain.{plain_checkpoint};

use crate::checkpoint::{Checkpoint, PreparedView, Reference, Reply, SettledEntry};
use gs_tree::TreeEntry;
use std::alloc::{AllocError, Global};

/// What stands in a list of its own order.
trait Ordered: Sized {
    ghost Plain: { Type 0 };

    ghost plain: { Self → Plain };

    ghost before: { Plain → Plain → Bool };

    /// Whether this stands before the other.
    fn is_before(&self, other: &Self, alloc: Global) -> Result<bool, AllocError>
        ensures { IfOk result (λ b. b ≡ before (plain self.now) (plain other.now)) };
}

impl Ordered for TreeEntry {
    ghost use Rattle.gs_master_record.specs.Plain.{PlainNode, plain_node};
    ghost use Rattle.gs_master_record.specs.Order.{entry_before};

    ghost Plain = { PlainNode };

    ghost plain = { plain_node };

    ghost before = { entry_before };

    fn is_before(&self, other: &TreeEntry, alloc: Global) -> Result<bool, AllocError> {
        let first = self.path().text(alloc)?;
        let second = other.path().text(alloc)?;
        Ok(first < second)
    }
}

impl Ordered for Reference {
    ghost use Rattle.gs_master_record.specs.declared.checkpoint.Reference.{Reference as AnyReference};
    ghost use Rattle.gs_master_record.specs.Order.{reference_before};

    ghost Plain = { AnyReference };

    ghost plain = { λ r. r };

    ghost before = { reference_before };

    fn is_before(&self, other: &Reference, _alloc: Global) -> Result<bool, AllocError> {
        Ok(self.handle < other.handle)
    }
}

impl Ordered for SettledEntry {
    ghost use Rattle.gs_master_record.specs.declared.checkpoint.SettledEntry.{SettledEntry as AnySettledEntry};
    ghost use Rattle.gs_master_record.specs.Order.{settled_before};

    ghost Plain = { AnySettledEntry };

    ghost plain = { λ s. s };

    ghost before = { settled_before };

    fn is_before(&self, other: &SettledEntry, _alloc: Global) -> Result<bool, AllocError> {
        Ok(self.settled.handle < other.settled.handle)
    }
}

impl Ordered for Reply {
    ghost use Rattle.gs_master_record.specs.Plain.{PlainReply, plain_reply};
    ghost use Rattle.gs_master_record.specs.Order.{reply_before};

    ghost Plain = { PlainReply };

    ghost plain = { plain_reply };

    ghost before = { reply_before };

    fn is_before(&self, other: &Reply, _alloc: Global) -> Result<bool, AllocError> {
        Ok(self.to.client.0 < other.to.client.0)
    }
}

impl Ordered for PreparedView {
    ghost use Rattle.gs_master_record.specs.declared.checkpoint.PreparedView.{PreparedView as AnyPrepared};
    ghost use Rattle.gs_master_record.specs.Order.{prepared_before};

    ghost Plain = { AnyPrepared };

    ghost plain = { λ v. v };

    ghost before = { prepared_before };

    fn is_before(&self, other: &PreparedView, _alloc: Global) -> Result<bool, AllocError> {
        Ok(self.settled.handle < other.settled.handle)
    }
}

/// Whether each item stands before the next.
fn rises<T: Ordered>(items: &[T], alloc: Global) -> Result<bool, AllocError>
    ensures { IfOk result (λ b. b ≡ rises T.before (map T.plain items.now)) }
{
    let Some((first, rest)) = items.split_first() else {
        return Ok(true);
    };
    let mut last = first;
    for item in rest {
        if !last.is_before(item, alloc)? {
            return Ok(false);
        }
        last = item;
    }
    Ok(true)
}

/// Whether the lists of a checkpoint stand in their order.
pub(crate) fn is_in_order(checkpoint: &Checkpoint, alloc: Global) -> Result<bool, AllocError>
    ensures { IfOk result (λ b. b ≡ is_in_order (plain_checkpoint checkpoint.now)) }
{
    Ok(
        rises(&checkpoint.tree, alloc)?
            && rises(&checkpoint.references, alloc)?
            && rises(&checkpoint.settled, alloc)?
            && rises(&checkpoint.replies, alloc)?
            && rises(&checkpoint.prepared, alloc)?,
    )
}

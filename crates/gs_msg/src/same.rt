// Whether views, and what is told of chunks, are the same.
ghost use Rattle.std.specs.Prelude.{◌≡◌, ◌↔◌, IsTrue};

use crate::answer::ChunkStatus;
use gs_lease::{Grant, View};

pub(crate) fn same_view(left: &View, right: &View) -> bool
    ensures { IsTrue result ↔ (left.now ≡ right.now) }
{
    left == right
}

pub(crate) fn same_grant(left: &Grant, right: &Grant) -> bool
    ensures { IsTrue result ↔ (left.now ≡ right.now) }
{
    left == right
}

pub(crate) fn same_chunks(left: &[ChunkStatus], right: &[ChunkStatus]) -> bool
    ensures { IsTrue result ↔ (left.now ≡ right.now) }
{
    left == right
}

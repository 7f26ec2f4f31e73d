use crate::digests::Digest;
use std::marker::Model;

/// What takes an edit of a chunk back: the bytes that it overwrote, and the digests of the blocks that it touched.
#[derive(Debug)]
pub struct BlockInverse {
    pub(crate) at: usize,
    pub(crate) old_length: usize,
    pub(crate) new_length: usize,
    pub(crate) bytes: Vec<u8>,
    pub(crate) digests: Vec<Digest>,
}

impl Drop for BlockInverse {
    fn drop(self) {
        let Self {
            at: _,
            old_length: _,
            new_length: _,
            bytes: _,
            digests: _,
        } = self;
    }
}

impl Model for BlockInverse {
    ghost use Rattle.gs_block.specs.Inverses.{Inverse};

    ghost Value = { Inverse };

    ghost view = { λ i. record { at = i.at; old_length = i.old_length; new_length = i.new_length; bytes = i.bytes.items; digests = i.digests.items } };
}

use gs_base::{Handle, Moment};
use gs_path::Path;
use gs_tree::TreeInverse;

/// An edit of the names.
#[derive(Debug, Drop)]
pub enum Edit {
    /// Makes a directory, with those above it that are missing.
    Mkdirs(Path),
    /// Makes a file of no chunk, with the directories above it that are missing.
    Create(Path),
    /// Moves the first path to the second.
    Rename(Path, Path),
    /// Moves a path to its hidden name, which holds a moment and a number.
    Hide(Path, Moment, u64),
    /// Moves a hidden path back to its old name.
    Unhide(Path),
    /// Takes out what is hidden at a path, with all under it. Its chunks stay listed.
    Remove(Path),
    /// Adds a chunk that isn't listed to the end of a file.
    AddChunk(Path, Handle),
    /// Puts a chunk that isn't listed, the second, in the place of one of a file's, the first.
    Cow(Path, usize, Handle, Handle),
    /// Copies what is visible at and under the first path to the second. The copies have the same chunks.
    Snapshot(Path, Path),
    /// Lists chunks without references no more. Their handles rise.
    Forget(Vec<Handle>),
}

/// What takes an edit back.
#[derive(Drop)]
pub enum Inverse {
    /// The tree's own inverse. The references go with it: a chunk that was added or changed is listed no more, and the
    /// one in whose place it stood has its reference again. The chunks of what was removed have theirs again, and those
    /// of a copy lose them.
    Tree(TreeInverse),
    /// Lists chunks without references again.
    Remember(Vec<Handle>),
}

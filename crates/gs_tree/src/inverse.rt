use crate::node::Node;
use gs_base::Handle;
use gs_path::Path;

/// What takes an edit of a tree back.
#[derive(Drop)]
pub enum TreeInverse {
    /// All of a path but the first elements, of which this many stood before, was made.
    Made(Path, usize),
    /// What stands at the second path came from the first.
    Moved(Path, Path),
    /// This stood at a path, with all under it.
    Removed(Path, Node),
    /// The last chunk of a file was added.
    Added(Path),
    /// A chunk of a file, by its place, was this.
    Changed(Path, usize, Handle),
    /// What stands at a path is a copy.
    Copied(Path),
}

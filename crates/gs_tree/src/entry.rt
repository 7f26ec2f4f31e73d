ghost use Rattle.std.specs.Prelude.{◌≡◌, ◌∷◌, [], IfOk};
ghost use Rattle.gs_tree.specs.Build.{path_of_entry, kind_of_entry};

use crate::node::{Leaf, Node};
use gs_base::Handle;
use gs_path::Path;
use std::alloc::{AllocError, Global};

/// What stands at a path of a tree.
#[derive(Drop)]
pub enum TreeEntry {
    Dir(Path),
    /// A file with its chunks in order.
    File(Path, Vec<Handle>),
}

impl TreeEntry {
    pub fn path(&self) -> &Path
        ensures { result.now ≡ path_of_entry self.now }
    {
        match self {
            TreeEntry::Dir(path) => path,
            TreeEntry::File(path, _) => path,
        }
    }

    /// The directory, with nothing in it, or the file, in memory of its own.
    pub(crate) fn node(&self, alloc: Global) -> Result<Node, AllocError>
        ensures { IfOk result (λ node. node ≡ ([], kind_of_entry self.now) ∷ []) }
    {
        match self {
            TreeEntry::Dir(_) => Ok(Node::new(alloc, Leaf::Dir)),
            TreeEntry::File(_, chunks) => Node::file(alloc, chunks),
        }
    }
}

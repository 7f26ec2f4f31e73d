// What stands at each path of a desk's store, hidden names too.
ghost use Rattle.std.specs.Prelude.{◌≡◌, IfOk, string_bytes};
ghost use Rattle.gs_keep_desk.specs.Names.{AreNames, name_line};

use gs_journal::Disk;
use gs_nodes::MasterPlace;
use gs_shell_desk::Desk;
use gs_tree::TreeEntry;
use std::alloc::{AllocError, Global};

/// What stands at each path but the root, in the order of the paths, or `None` where the master's disks aren't open.
pub(crate) fn names_of<D: Disk + Drop>(
    desk: &Desk<D>,
    alloc: Global,
) -> Result<Option<Vec<TreeEntry>>, AllocError>
    ensures { IfOk result (λ found. AreNames desk.now.wire.nodes.master found) }
{
    match &desk.wire.nodes.master {
        MasterPlace::Standing(master) => Ok(Some(master.entries(alloc)?)),
        _ => Ok(None),
    }
}

/// The line that tells of one: `dir` or `file`, and its path.
pub fn name_line(alloc: Global, entry: &TreeEntry) -> Result<String, AllocError>
    ensures { IfOk result (λ text. string_bytes text ≡ name_line entry.now) }
{
    match entry {
        TreeEntry::Dir(path) => {
            let path = path.text(alloc)?;
            format!(in alloc; "dir {path}")
        }
        TreeEntry::File(path, _) => {
            let path = path.text(alloc)?;
            format!(in alloc; "file {path}")
        }
    }
}

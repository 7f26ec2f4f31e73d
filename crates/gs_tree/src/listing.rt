//! What a look-up lists.
ghost use Rattle.std.specs.Prelude.{◌≡◌, false, map, IfOk};
ghost use Rattle.gs_tree.specs.Find.{at};
ghost use Rattle.gs_tree.specs.Edits.{last};
ghost use Rattle.gs_tree.specs.Listing.{Lists, pairs_of};

use crate::node::{Listed, Node};
use gs_base::Refusal;
use gs_path::Path;
use std::alloc::{AllocError, Global};

/// What a look-up of a path lists.
pub(crate) fn list_in(root: &Node, alloc: Global, path: &Path) -> Result<Vec<Listed>, Refusal>
    ensures { Lists (at root.now) path.now result }
{
    let Some(node) = root.find(path.elements()) else {
        return Err(Refusal::NotFound);
    };
    if node.is_dir() {
        return Ok(node.list(alloc)?);
    }
    Ok(own_name(alloc, path)?)
}

/// What is listed of a file.
fn own_name(alloc: Global, path: &Path) -> Result<Vec<Listed>, AllocError>
    ensures { IfOk result (λ listed. pairs_of listed.items ≡ map (λ name. (name, false)) (last path.now)) }
{
    let mut listed = Vec::new(alloc);
    let Some((name, _)) = path.elements().split_last() else {
        return Ok(listed);
    };
    let name = name.copy(alloc)?;
    listed.push(Listed {
        name,
        is_dir: false,
    })?;
    Ok(listed)
}

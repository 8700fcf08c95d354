// What several tests read from texts: values, paths, and values with marks. A text that is not
// read is told as want of memory: an error that `?` hands on as it is costs the least to prove.
ghost use Rattle.std.specs.Prelude.{◌≤◌, length, IfOk};
ghost use Rattle.sd_outside.specs.Limits.{json_depth_max};
ghost use Rattle.claim_tree.specs.Tree.{depth};
ghost use Rattle.claim_tree.specs.View.{tree_of};
ghost use Rattle.marked_tree.specs.Choice.{IsUnmixed};
ghost use Rattle.marked_tree.specs.Marked.{strip as strip_of};
ghost use Rattle.marked_tree.specs.View.{marked_of};

use claim_tree::{PathList, Tree, read, read_pointer};
use marked_tree::{Marked, mark};
use sd_outside::NoMemory;
use std::alloc::Global;

// The paths of pointers with blanks between them.
pub(crate) fn paths_of(alloc: Global, pointers: &str) -> Result<PathList, NoMemory>
    ensures { IfOk result (λ paths. length paths ≤ 100) }
{
    let mut paths = PathList::new(alloc);
    for pointer in pointers.split(' ') {
        let Ok(path) = read_pointer(alloc, pointer) else {
            return Err(NoMemory);
        };
        paths.push(path)?;
    }
    if paths.len() > 100 {
        return Err(NoMemory);
    }
    Ok(paths)
}

// The value of a JSON text.
pub(crate) fn value(alloc: Global, text: &str) -> Result<Tree, NoMemory>
    ensures depth { IfOk result (λ tree. depth (tree_of tree) ≤ json_depth_max) }
{
    match read(alloc, text.as_bytes()) {
        Ok(tree) => Ok(tree),
        Err(_) => Err(NoMemory),
    }
}

// The value of a JSON text with a mark at each of these places.
pub(crate) fn marked(alloc: Global, text: &str, pointers: &str) -> Result<Marked, NoMemory>
    ensures depth { IfOk result (λ marked. depth (strip_of (marked_of marked)) ≤ json_depth_max) }
    ensures unmixed { IfOk result (λ marked. IsUnmixed (marked_of marked)) }
{
    let tree = value(alloc, text)?;
    let paths = paths_of(alloc, pointers)?;
    Ok(mark(alloc, &tree, &paths)?)
}

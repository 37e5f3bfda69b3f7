//! The parent of each instance.
ghost use Rattle.std.specs.Prelude.{◌≡◌, ◌+◌, ◌<◌, length, map, slice_get, Some, IfOk, MatchOption};
ghost use Rattle.k_optab.specs.Tree.{EachWith};
ghost use Rattle.k_optab.specs.Instances.{IsParent};
ghost use Rattle.k_graph.specs.declared.level.Measured.{Measured};
ghost use Rattle.k_graph.specs.Listings.{AreNested, EachHasParent, HasParent, closed_of};

use crate::level::Measured;
use crate::tree::{Instance, Tree};
use k_num::{NoMemory, Seq};
use std::alloc::Global;

/// The index before this one.
fn index_before(index: usize) -> Option<u64>
    ensures { MatchOption result (index ≡ 0) (λ before. index ≡ before + 1) }
{
    if index > 0 {
        Some((index - 1) as u64)
    } else {
        None
    }
}

/// The index of the nearest instance of the list that encloses the one at this index, where those before it have their
/// parents. It is looked for from the one before outwards, over those that are left by then.
fn parent_of(list: &[Measured], tree: &[Instance], index: usize) -> Option<u64>
    requires there { index < length list.now }
    requires so_far { index ≡ length tree.now }
    requires parents { EachHasParent list.now tree.now }
    requires nested { AreNested (map closed_of list.now) }
    ensures { (m : Measured) → slice_get list.now index ≡ Some m → IsParent (map closed_of list.now) (closed_of m) result }
{
    let enter = list[index].closed.enter;
    let mut outer = index_before(index);
    while let Some(candidate) = outer {
        if enter < list[candidate as usize].closed.exit {
            return outer;
        }
        outer = tree[candidate as usize].parent;
    }
    None
}

/// These instances, each with its parent.
pub(crate) fn with_parents(alloc: Global, list: &[Measured]) -> Result<Tree, NoMemory>
    requires { AreNested (map closed_of list.now) }
    ensures { IfOk result (λ tree. EachWith (HasParent (map closed_of list.now)) list.now tree) }
{
    let mut tree: Tree = Seq::new(alloc);
    for (index, item) in list.iter().enumerate() {
        let parent = parent_of(list, tree.as_slice(), index);
        tree.push(Instance {
            region: item.closed.region,
            depth: item.closed.depth,
            start: item.closed.start,
            end: item.closed.end,
            work: item.work,
            path: item.path,
            parent,
        })?;
    }
    Ok(tree)
}

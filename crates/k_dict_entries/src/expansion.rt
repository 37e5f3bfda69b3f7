//! The tree that an entry stands for.
ghost use Rattle.std.specs.Prelude.{◌≡◌, ◌+◌, ◌<◌, ◌≤◌, ◌++◌, length, map, OnOk};
ghost use Rattle.k_dict_entries.specs.Expanding.{Expands, less_one, pending_at, visited};

use crate::dict::Dict;
use crate::entry::{Entry, Run};
use k_num::{NoMemory, Seq, Stack};
use k_optab::Node;
use std::alloc::Global;

/// Why a tree is not given.
#[derive(Clone, Copy, Debug, PartialEq, Eq)]
pub enum ExpandFault {
    /// It has more instances than were asked for.
    Large,
    /// No memory was found.
    Memory,
}

/// A run whose instances are still to be given, at this depth.
#[derive(Clone, Copy, Debug)]
pub(crate) struct Pending {
    pub run: Run,
    pub depth: u32,
}

/// Runs at this depth, the first on top.
fn push_runs(pending: &mut Stack<Pending>, runs: &[Run], depth: u32) -> Result<(), NoMemory>
    ensures { OnOk result (pending.new ≡ map (pending_at depth) runs.now ++ pending.old) }
{
    let mut rest = runs;
    while let Some((last, before)) = rest.split_last() {
        pending.push(Pending { run: *last, depth })?;
        rest = before;
    }
    Ok(())
}

/// The rest of a run of which one instance was given.
fn push_rest(pending: &mut Stack<Pending>, given: Pending) -> Result<(), NoMemory>
    requires { 1 ≤ given.run.count }
    ensures { OnOk result (pending.new ≡ less_one given ++ pending.old) }
{
    if given.run.count == 1 {
        return Ok(());
    }
    pending.push(Pending {
        run: Run {
            entry: given.run.entry,
            count: given.run.count - 1,
        },
        depth: given.depth,
    })
}

/// What is pending once an instance of a run is given: its children, and then the rest of the run.
fn visit(pending: &mut Stack<Pending>, given: Pending, entry: &Entry) -> Result<(), NoMemory>
    requires count { 1 ≤ given.run.count }
    requires depth { given.depth < 1048576 }
    ensures { OnOk result (pending.new ≡ visited given entry.now pending.old) }
{
    push_rest(pending, given)?;
    push_runs(pending, entry.runs.as_slice(), given.depth + 1)
}

/// The instances that an entry stands for, in order of entry, with the children in the order of the runs. `Large` comes exactly
/// where they are more than `limit`.
pub fn expand(alloc: Global, dict: &Dict, root: u32, limit: u64) -> Result<Seq<Node>, ExpandFault>
    requires { root < length dict.now }
    ensures { Expands dict.now root limit result }
{
    let mut nodes: Seq<Node> = Seq::new(alloc);
    let mut pending = Stack::new(alloc);
    let first = Pending {
        run: Run {
            entry: root,
            count: 1,
        },
        depth: 0,
    };
    if let Err(NoMemory) = pending.push(first) {
        return Err(ExpandFault::Memory);
    }
    while let Some(given) = pending.pop() {
        if pending.len() as u64 >= limit - nodes.len() as u64 {
            return Err(ExpandFault::Large);
        }
        let entry = dict.entry(given.run.entry);
        let node = Node {
            region: entry.region,
            work: entry.work,
            path: entry.path,
            depth: given.depth,
        };
        if let Err(NoMemory) = nodes.push(node) {
            return Err(ExpandFault::Memory);
        }
        if let Err(NoMemory) = visit(&mut pending, given, entry) {
            return Err(ExpandFault::Memory);
        }
    }
    Ok(nodes)
}

//! The instances of a run.
ghost use Rattle.std.specs.Prelude.{◌^◌, ◌<◌, IfOk, map};
ghost use Rattle.k_optab.specs.Events.{SourcesAreEarlier, operations, total_latency};
ghost use Rattle.k_optab.specs.Tree.{IsTree};
ghost use Rattle.k_graph.specs.Listings.{AreBounded, IsListing, node_of};

use crate::parents::with_parents;
use crate::pass::Pass;
use crate::tree::Tree;
use k_num::{NoMemory, Seq};
use k_optab::Event;
use std::alloc::Global;

/// The closed instances of depth below `depth`, in order of entry.
pub fn instances(alloc: Global, events: &Seq<Event>, depth: u32) -> Result<Tree, NoMemory>
    requires sources { SourcesAreEarlier (operations events.now) }
    requires latencies { total_latency (operations events.now) < 2 ^ 62 }
    ensures listing { IfOk result (λ tree. IsListing depth events.now tree) }
    ensures tree { IfOk result (λ tree. IsTree depth events.now (map node_of tree)) }
    ensures meaning { IfOk result (λ tree. AreBounded tree) }
{
    let mut pass = Pass::new(alloc, depth);
    for event in events.as_slice() {
        pass.take(alloc, event)?;
    }
    let list = pass.finish()?;
    with_parents(alloc, list.as_slice())
}

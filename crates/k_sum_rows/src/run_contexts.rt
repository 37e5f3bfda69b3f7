//! The contexts of a sum's runs.
ghost use Rattle.std.specs.Prelude.{length, IfOk};
ghost use Rattle.k_dict_entries.specs.Rules.{AreProfile, NameRegions};
ghost use Rattle.k_selfpar.specs.Contexts.{ContextsAreAtLeastOne};
ghost use Rattle.k_selfpar.specs.Nested.{CanPlan};
ghost use Rattle.k_sum.specs.Laws.{forest_of};
ghost use Rattle.k_sum_rows.specs.Runs.{AreRunRoots, GivesRunContexts, run_trees};
ghost use Rattle.k_sum_saved.specs.SumLines.{AreOfOneRegion};
ghost use Rattle.k_sum_saved.specs.SumRules.{IsSum};

use k_dict_entries::{Dict, Run};
use k_num::{NoMemory, Seq};
use k_optab::Region;
use k_selfpar::{ContextFault, ContextList, add_contexts, items_of};
use k_sum::Sum;
use std::alloc::Global;

/// The contexts of runs whose roots are these.
fn contexts_of_runs(
    alloc: Global,
    dict: &Dict,
    roots: &[Run],
    regions: &Seq<Region>,
) -> Result<ContextList, ContextFault>
    requires profile { AreProfile dict.now }
    requires roots { AreRunRoots dict.now roots.now }
    requires one { AreOfOneRegion dict.now roots.now }
    requires regions { NameRegions (length regions.now) dict.now }
    ensures contexts { GivesRunContexts regions.now (run_trees dict.now roots.now) result }
    ensures at_least_one { IfOk result ContextsAreAtLeastOne }
    ensures can_plan { IfOk result CanPlan }
{
    let Ok(items) = items_of(alloc, dict, roots) else {
        return Err(ContextFault::Memory);
    };
    let outermost = items.as_slice();
    let mut contexts = Seq::new(alloc);
    match add_contexts(alloc, dict, regions.as_slice(), 0, outermost, &mut contexts) {
        Ok(()) => Ok(contexts),
        Err(fault) => {
            drop(contexts);
            Err(fault)
        }
    }
}

/// The contexts of a sum: the instances of its runs, grouped by their lists of regions from the roots, which are of one region.
/// A context stands before those of its instances' children, and these in order of their regions. `Wide` comes exactly where
/// there are more than 65,536.
pub fn contexts(alloc: Global, sum: &Sum) -> Result<ContextList, ContextFault>
    requires { IsSum sum.now }
    ensures contexts { GivesRunContexts sum.now.regions (forest_of sum.now) result }
    ensures at_least_one { IfOk result ContextsAreAtLeastOne }
    ensures can_plan { IfOk result CanPlan }
{
    contexts_of_runs(alloc, &sum.dict, sum.roots.as_slice(), &sum.regions)
}

//! The rows of a sum's runs.
ghost use Rattle.std.specs.Prelude.{◌≤◌, length, IfOk};
ghost use Rattle.k_dict_entries.specs.Entries.{AreInterned, AreRuns};
ghost use Rattle.k_dict_entries.specs.Rules.{AreProfile};
ghost use Rattle.k_dict_entries.specs.Trees.{nodes_of, size};
ghost use Rattle.k_selfpar.specs.Rows.{AreAtLeastOne, AreRows};
ghost use Rattle.k_sum.specs.Laws.{forest_of};
ghost use Rattle.k_sum_rows.specs.Runs.{AreItemsOfRuns, AreRunRoots, run_trees};
ghost use Rattle.k_sum_saved.specs.SumRules.{IsSum};

use crate::counting::count_instances;
use k_dict_entries::{Dict, Run};
use k_num::{NoMemory, Seq};
use k_selfpar::{Item, Row, occurring_entries, rows_of, sort_by_region};
use k_sum::Sum;
use std::alloc::Global;

/// The entries that occur in the trees of runs, each as often as it does, in order of their regions.
fn items_of_runs(alloc: Global, dict: &Dict, roots: &[Run]) -> Result<Vec<Item>, NoMemory>
    requires interned { AreInterned dict.now }
    requires roots { AreRuns 0 (length dict.now) roots.now }
    requires few { size (run_trees dict.now roots.now) ≤ 576460752303423488 }
    ensures { IfOk result (λ items. AreItemsOfRuns dict.now roots.now items.items) }
{
    let counts = count_instances(alloc, dict, roots)?;
    let mut items = occurring_entries(alloc, dict, counts.as_slice())?;
    sort_by_region(&mut items)?;
    Ok(items)
}

/// One row for each region that has an instance in the trees of runs whose roots are these, in order of region number.
fn rows_of_runs(alloc: Global, dict: &Dict, roots: &[Run]) -> Result<Seq<Row>, NoMemory>
    requires profile { AreProfile dict.now }
    requires roots { AreRunRoots dict.now roots.now }
    ensures rows { IfOk result (AreRows (nodes_of 0 (run_trees dict.now roots.now))) }
    ensures at_least_one { IfOk result AreAtLeastOne }
{
    let items = items_of_runs(alloc, dict, roots)?;
    rows_of(alloc, dict, items.as_slice())
}

/// One row for each region that has an instance in the runs of a sum, in order of region number.
pub fn rows(alloc: Global, sum: &Sum) -> Result<Seq<Row>, NoMemory>
    requires { IsSum sum.now }
    ensures rows { IfOk result (AreRows (nodes_of 0 (forest_of sum.now))) }
    ensures at_least_one { IfOk result AreAtLeastOne }
{
    rows_of_runs(alloc, &sum.dict, sum.roots.as_slice())
}

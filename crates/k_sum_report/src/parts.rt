//! The rows, the contexts and the plan of a sum.
ghost use Rattle.std.specs.Prelude.{◌<◌, All, IfOk, length};
ghost use Rattle.k_plan.specs.Plan.{CanPlan};
ghost use Rattle.k_selfpar.specs.Rows.{AreRows};
ghost use Rattle.k_sum_report.specs.Parts.{AreParts, HasWideContexts};
ghost use Rattle.k_sum_report.specs.SumReport.{AreSumContexts, nodes_of_sum};
ghost use Rattle.k_sum_saved.specs.SumRules.{IsSum};

use k_num::{NoMemory, Seq};
use k_plan::{Advice, ContextFault, ContextList, plan, standard_limits};
use k_selfpar::Row;
use k_sum::Sum;
use k_sum_rows::{contexts, rows};
use std::alloc::Global;

/// What the texts of a sum tell of its instances.
#[derive(Drop)]
pub(crate) struct Parts {
    pub rows: Seq<Row>,
    /// The contexts that have a plan, and none where they are too many for one.
    pub contexts: ContextList,
    pub plan: Option<Advice>,
}

/// The parts of a sum that has at most 65,536 contexts.
fn planned(
    alloc: Global,
    sum: &Sum,
    rows: Seq<Row>,
    contexts: ContextList,
) -> Result<Parts, NoMemory>
    requires sum { IsSum sum.now }
    requires rows { AreRows (nodes_of_sum sum.now) rows }
    requires contexts { AreSumContexts sum.now contexts }
    requires can_plan { CanPlan contexts }
    ensures { IfOk result (AreParts sum.now) }
{
    let advice = plan(alloc, &contexts, &standard_limits())?;
    Ok(Parts {
        rows,
        contexts,
        plan: Some(advice),
    })
}

/// The parts of a sum that has more than 65,536 contexts.
fn unplanned(alloc: Global, sum: &Sum, rows: Seq<Row>) -> Parts
    requires sum { IsSum sum.now }
    requires rows { AreRows (nodes_of_sum sum.now) rows }
    requires many { HasWideContexts sum.now }
    ensures { AreParts sum.now result }
{
    Parts {
        rows,
        contexts: Seq::new(alloc),
        plan: None,
    }
}

/// The rows, the contexts and the plan of a sum.
pub(crate) fn parts_of(alloc: Global, sum: &Sum) -> Result<Parts, NoMemory>
    requires { IsSum sum.now }
    ensures { IfOk result (AreParts sum.now) }
{
    let rows = rows(alloc, sum)?;
    match contexts(alloc, sum) {
        Ok(contexts) => planned(alloc, sum, rows, contexts),
        Err(ContextFault::Wide) => Ok(unplanned(alloc, sum, rows)),
        Err(ContextFault::Memory) => Err(NoMemory),
    }
}

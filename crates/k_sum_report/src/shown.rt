//! The texts of a sum.
ghost use Rattle.std.specs.Prelude.{◌≡◌, IfOk, option_copied};
ghost use Rattle.k_report_profile.specs.Report.{asked};
ghost use Rattle.k_sum_report.specs.SumReport.{IsSumDocument, IsSumReport, IsSumTable};
ghost use Rattle.k_sum_saved.specs.SumRules.{IsSum};

use crate::parts::parts_of;
use k_data::{rows_csv, sum_json};
use k_dict_entries::Dict;
use k_num::NoMemory;
use k_report::{Heading, headed_report};
use k_sum::Sum;
use k_sum_rows::rows;
use std::alloc::Global;

/// The dictionary of a sum, where it is asked for.
fn listed(sum: &Sum, with_dict: bool) -> Option<&Dict>
    ensures { option_copied result ≡ asked with_dict sum.now.dict }
{
    if with_dict { Some(&sum.dict) } else { None }
}

/// The report of a sum: how many runs there were, how many operations they made, and of their instances together what the report of a
/// profile has of those of one run.
pub fn sum_report(alloc: Global, sum: &Sum, with_dict: bool) -> Result<Vec<u8>, NoMemory>
    requires { IsSum sum.now }
    ensures { IfOk result (λ text. IsSumReport sum.now with_dict text.items) }
{
    let parts = parts_of(alloc, sum)?;
    headed_report(
        alloc,
        &sum.regions,
        Heading::Runs(sum.runs),
        sum.ops,
        &parts.rows,
        listed(sum, with_dict),
        &parts.contexts,
        parts.plan.as_ref(),
    )
}

/// A sum as one JSON document, which differs from that of a profile in its first member: how many runs there were.
pub fn sum_document(alloc: Global, sum: &Sum, with_dict: bool) -> Result<Vec<u8>, NoMemory>
    requires { IsSum sum.now }
    ensures { IfOk result (λ text. IsSumDocument sum.now with_dict text.items) }
{
    let parts = parts_of(alloc, sum)?;
    sum_json(
        alloc,
        &sum.regions,
        sum.runs,
        sum.ops,
        &parts.rows,
        listed(sum, with_dict),
        &parts.contexts,
        parts.plan.as_ref(),
    )
}

/// The rows of a sum as CSV.
pub fn sum_table(alloc: Global, sum: &Sum) -> Result<Vec<u8>, NoMemory>
    requires { IsSum sum.now }
    ensures { IfOk result (λ text. IsSumTable sum.now text.items) }
{
    let rows = rows(alloc, sum)?;
    rows_csv(alloc, &sum.regions, &rows)
}

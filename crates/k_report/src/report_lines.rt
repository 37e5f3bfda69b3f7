//! The report of a run.
ghost use Rattle.std.specs.Prelude.{◌≡◌, ◌<◌, ◌++◌, All, IfOk, OnOk, length};
ghost use Rattle.std.specs.List.{flat_map};
ghost use Rattle.std.specs.Option.{ForSome, option_copied};
ghost use Rattle.k_plan.specs.Plan.{ParentsComeFirst};
ghost use Rattle.k_report.specs.PlanLines.{NamesContexts};
ghost use Rattle.k_report.specs.declared.heading.Heading.TheVariants.{Exit};
ghost use Rattle.k_report.specs.Report.{large_line, large_text, numbers_text, report_text, row_line, row_text};

use crate::dict_lines::push_dict;
use crate::heading::{Heading, push_title};
use crate::plan_lines::push_plan;
use crate::regions::region_at;
use k_dict_entries::Dict;
use k_num::{NoMemory, Seq};
use k_optab::Region;
use k_plan::Advice;
use k_selfpar::{ContextList, Row};
use k_text::{push, push_named, push_region};
use std::alloc::Global;

/// The numbers of a row.
fn push_numbers(text: &mut Vec<u8>, row: &Row) -> Result<(), NoMemory>
    ensures { OnOk result (text.new.items ≡ text.old.items ++ numbers_text row.now) }
{
    push_named(text, " n=", row.instances)?;
    push_named(text, " work=", row.work)?;
    push_named(text, " path=", row.path)?;
    push_named(text, " sp=", row.sp.num())?;
    push_named(text, "/", row.sp.den())?;
    push(text, "\n")
}

/// The line of a row of this region.
fn push_row_of(text: &mut Vec<u8>, row: &Row, region: &Region) -> Result<(), NoMemory>
    ensures { OnOk result (text.new.items ≡ text.old.items ++ row_text row.now region.now) }
{
    push_region(text, region)?;
    push_numbers(text, row)
}

/// The line of a row.
fn push_row(text: &mut Vec<u8>, regions: &[Region], row: &Row) -> Result<(), NoMemory>
    requires { row.now.region < length regions.now }
    ensures { OnOk result (text.new.items ≡ text.old.items ++ row_line regions.now row.now) }
{
    push_row_of(text, row, region_at(regions, row.region))
}

/// The lines of rows.
fn push_rows(text: &mut Vec<u8>, regions: &[Region], rows: &[Row]) -> Result<(), NoMemory>
    requires { All (λ row. row.region < length regions.now) rows.now }
    ensures { OnOk result (text.new.items ≡ text.old.items ++ flat_map (row_line regions.now) rows.now) }
{
    for row in rows {
        push_row(text, regions, row)?;
    }
    Ok(())
}

/// The report of a run that ended by a return, or of many runs: what main returned or how many runs there were, how many operations were
/// made, a line for each row, the lines of the dictionary where one is given, and the plan. Where no plan is given there were too many contexts for one.
pub fn headed_report(
    alloc: Global,
    regions: &Seq<Region>,
    heading: Heading,
    ops: u64,
    rows: &Seq<Row>,
    dict: Option<&Dict>,
    contexts: &ContextList,
    plan: Option<&Advice>,
) -> Result<Vec<u8>, NoMemory>
    requires rows { All (λ row. row.region < length regions.now) rows.now }
    requires contexts { All (λ context. context.region < length regions.now) contexts.now }
    requires parents { ParentsComeFirst contexts.now }
    requires plan { ForSome (option_copied plan) (NamesContexts contexts.now) }
    ensures { IfOk result (λ text. text.items ≡ report_text regions.now heading ops rows.now (option_copied dict.entry) contexts.now (option_copied plan.entry)) }
{
    let regions = regions.as_slice();
    let mut text = Vec::new(alloc);
    push_title(&mut text, heading, ops)?;
    push_rows(&mut text, regions, rows.as_slice())?;
    push_dict(&mut text, dict)?;
    push_plan(alloc, &mut text, regions, contexts.as_slice(), plan)?;
    Ok(text)
}

/// The report of a run that ended by a return, which is told by what main returned.
pub fn report(
    alloc: Global,
    regions: &Seq<Region>,
    exit: i32,
    ops: u64,
    rows: &Seq<Row>,
    dict: Option<&Dict>,
    contexts: &ContextList,
    plan: Option<&Advice>,
) -> Result<Vec<u8>, NoMemory>
    requires rows { All (λ row. row.region < length regions.now) rows.now }
    requires contexts { All (λ context. context.region < length regions.now) contexts.now }
    requires parents { ParentsComeFirst contexts.now }
    requires plan { ForSome (option_copied plan) (NamesContexts contexts.now) }
    ensures { IfOk result (λ text. text.items ≡ report_text regions.now (Exit exit) ops rows.now (option_copied dict.entry) contexts.now (option_copied plan.entry)) }
{
    headed_report(
        alloc,
        regions,
        Heading::Exit(exit),
        ops,
        rows,
        dict,
        contexts,
        plan,
    )
}

/// The line where the dictionary is over its limits.
pub fn large_line() -> &'static str
    ensures { result.now ≡ large_line }
{
    "profile: over the dictionary's limits\n"
}

/// The report of a run that ended by a return, where its dictionary is over its limits.
pub fn report_large(alloc: Global, exit: i32, ops: u64) -> Result<Vec<u8>, NoMemory>
    ensures { IfOk result (λ text. text.items ≡ large_text exit ops) }
{
    let mut text = Vec::new(alloc);
    push_title(&mut text, Heading::Exit(exit), ops)?;
    push(&mut text, large_line())?;
    Ok(text)
}

//! The extents of `switch` (C17 6.8.4.2).
ghost use Rattle.std.specs.Prelude.{◌≡◌, ◌+◌, ◌++◌, IfOk, OnOk};
ghost use Rattle.k_lower_extents.specs.StatementSums.{before_default as before_meant, case_size as case_meant, cases_size as cases_meant, in_order as in_order_meant, is_default as is_default_meant, part_size as part_meant, statement_in as statement_meant, statements_in as statements_meant, switch as switch_meant, switched as switched_meant};

use crate::expression::ExpressionExtent;
use crate::extent::{Extent, in_order, settled_unless};
use crate::sums::{size_by, sum, sum_of_three};
use k_marks_jumps::any;
use k_marks_meaning::Jumps;
use k_num::NoMemory;
use std::alloc::Global;

/// A part of the braces of a `switch`: a case, a default, or a statement by its extent.
#[derive(Clone, Copy)]
pub(crate) enum PartExtent {
    Case,
    Default,
    Statement(Extent),
}

/// The size of what a part adds to the cases: a comparison and a select for each.
fn case_size(part: PartExtent) -> u32
    ensures { result ≡ case_meant part }
{
    match part {
        PartExtent::Case => 2,
        PartExtent::Default | PartExtent::Statement(_) => 0,
    }
}

/// The size of the cases.
fn cases_size(parts: &[PartExtent]) -> Result<u32, NoMemory>
    ensures { IfOk result (λ n. n ≡ cases_meant parts.now) }
{
    let mut size = 0;
    for part in parts {
        size = sum(size, case_size(*part))?;
    }
    Ok(size)
}

/// Lists the statement that a part is, if it is one.
fn list_statement(part: PartExtent, found: &mut Vec<Extent>) -> Result<(), NoMemory>
    ensures { OnOk result (found.new.items ≡ found.old.items ++ statement_meant part) }
{
    match part {
        PartExtent::Case | PartExtent::Default => Ok(()),
        PartExtent::Statement(extent) => Ok(found.push(extent)?),
    }
}

/// The statements among parts.
fn statements_in(alloc: Global, parts: &[PartExtent]) -> Result<Vec<Extent>, NoMemory>
    ensures { IfOk result (λ found. found.items ≡ statements_meant parts.now) }
{
    let mut found = Vec::new(alloc);
    for part in parts {
        list_statement(*part, &mut found)?;
    }
    Ok(found)
}

/// Whether a part is the default.
fn is_default(part: PartExtent) -> bool
    ensures { result ≡ is_default_meant part }
{
    match part {
        PartExtent::Default => true,
        PartExtent::Case | PartExtent::Statement(_) => false,
    }
}

/// The size of a part among the statements.
fn part_size(part: PartExtent) -> u32
    ensures { result ≡ part_meant part }
{
    match part {
        PartExtent::Case | PartExtent::Default => 0,
        PartExtent::Statement(extent) => extent.size,
    }
}

/// The size of the statements before the default, or of all where there is none.
fn before_default(parts: &[PartExtent]) -> Result<u32, NoMemory>
    ensures { IfOk result (λ n. n ≡ before_meant parts.now) }
{
    let mut size = 0;
    for part in parts {
        if is_default(*part) {
            return Ok(size);
        }
        size = sum(size, part_size(*part))?;
    }
    Ok(size)
}

/// A switch, by the sizes of its cases, of the text before its default, and by its statements. Its value is used where there is a case,
/// and the text before the default is jumped over where there is any.
fn switched(
    on: ExpressionExtent,
    cases: u32,
    skipped: u32,
    statements: Extent,
) -> Result<Extent, NoMemory>
    ensures { IfOk result (λ x. x ≡ switched_meant on cases skipped statements) }
{
    let value = size_by(cases, on.unused, on.used);
    let front = sum_of_three(value, cases, size_by(skipped, 0, 1))?;
    let size = sum(front, statements.size)?;
    let jumps = Jumps {
        breaks: false,
        continues: statements.jumps.continues,
        returns: statements.jumps.returns,
    };
    let text = Extent {
        size,
        jumps,
        opens: 0,
    };
    settled_unless(any(jumps), text)
}

/// A switch, by its value and its parts.
pub(crate) fn switch(
    alloc: Global,
    on: ExpressionExtent,
    parts: &[PartExtent],
) -> Result<Extent, NoMemory>
    ensures { IfOk result (λ x. x ≡ switch_meant on parts.now) }
{
    let statements = statements_in(alloc, parts)?;
    let all = in_order(statements.as_slice())?;
    let cases = cases_size(parts)?;
    let skipped = before_default(parts)?;
    switched(on, cases, skipped, all)
}

//! The walk over statements that lists the extent of each.
ghost use Rattle.std.specs.Prelude.{◌≡◌, ◌+◌, ◌++◌, ◌∷◌, [], map, IfOk, OnOk};
ghost use Rattle.std.specs.Option.{option_map};
ghost use Rattle.k_marks_meaning.specs.Jumps.{a_break as a_break_meant, a_continue as a_continue_meant};
ghost use Rattle.k_lower_extents.specs.StatementSums.{all_within, for_loop as for_loop_meant, in_order as in_order_meant, loop_around as loop_around_meant, numbered, option_itself, option_within, parts_themselves, parts_within, return_extent, step_size as step_meant, summed_part, summed_stmt, test_size as test_meant, themselves, within_stmt};
ghost use Rattle.k_types_meaning.specs.declared.tree.statement.TStmt.{out-TStmt};

use crate::declaration::{all_declared, started};
use crate::expression::boxed;
use crate::extent::{Extent, NumberedExtent, followed_by, if_else, in_order, of_size, one_jump};
use crate::loops::source_loop;
use crate::sums::sum;
use crate::switches::{PartExtent, switch};
use crate::table::spot_of;
use k_marks_meaning::Jumps;
use k_num::{Box, NoMemory, Seq};
use k_types_meaning::{Spot, TExpr, TFirst, TPart, TStmt, TVariable};
use std::alloc::Global;

/// Lists the extent of a statement at a spot, and answers it.
fn list(spot: Spot, extent: Extent, found: &mut Vec<NumberedExtent>) -> Result<Extent, NoMemory>
    ensures extent { IfOk result (λ x. x ≡ extent) }
    ensures found { OnOk result (found.new.items ≡ found.old.items ++ numbered spot extent ∷ []) }
{
    found.push(NumberedExtent {
        number: spot.number,
        extent,
    })?;
    Ok(extent)
}

/// The size of a test that may be left out.
fn test_size(test: &Option<Box<TExpr>>, variables: &[TVariable]) -> Result<u32, NoMemory>
    ensures { IfOk result (λ n. n ≡ test_meant variables.now test.now) }
{
    match test {
        None => Ok(0),
        Some(test) => {
            let e = boxed(test, variables)?;
            Ok(e.used)
        }
    }
}

/// The size of a step that may be left out.
fn step_size(step: &Option<Box<TExpr>>, variables: &[TVariable]) -> Result<u32, NoMemory>
    ensures { IfOk result (λ n. n ≡ step_meant variables.now step.now) }
{
    match step {
        None => Ok(0),
        Some(step) => {
            let e = boxed(step, variables)?;
            Ok(e.unused)
        }
    }
}

/// A `break`.
fn a_break() -> Jumps
    ensures { result ≡ a_break_meant }
{
    Jumps {
        breaks: true,
        continues: false,
        returns: false,
    }
}

/// A `continue`.
fn a_continue() -> Jumps
    ensures { result ≡ a_continue_meant }
{
    Jumps {
        breaks: false,
        continues: true,
        returns: false,
    }
}

/// `return`, with its value, if there is one.
fn returned(value: &Option<Box<TExpr>>, variables: &[TVariable]) -> Result<Extent, NoMemory>
    ensures { IfOk result (λ x. x ≡ return_extent variables.now value.now) }
{
    let jumps = Jumps {
        breaks: false,
        continues: false,
        returns: true,
    };
    match value {
        None => Ok(one_jump(jumps)),
        Some(value) => {
            let e = boxed(value, variables)?;
            let size = sum(e.used, 1)?;
            Ok(Extent {
                size,
                jumps,
                opens: 0,
            })
        }
    }
}

/// `for`, with the text in front of it: what that declares dies where the loop is left.
fn for_loop(
    first: &TFirst,
    test: &Option<Box<TExpr>>,
    step: &Option<Box<TExpr>>,
    turns: u32,
    body: Extent,
    variables: &[TVariable],
    counted: &[bool],
) -> Result<Extent, NoMemory>
    ensures { IfOk result (λ x. x ≡ for_loop_meant variables.now counted.now turns first.now test.now step.now body) }
{
    let start = started(first, variables)?;
    let test = test_size(test, variables)?;
    let step = step_size(step, variables)?;
    let text = source_loop(counted, turns, true, test, step, body)?;
    followed_by(start, text)
}

/// A loop around a body of this extent. What is no loop is as its body.
fn loop_around(
    stmt: &TStmt,
    body: Extent,
    variables: &[TVariable],
    counted: &[bool],
) -> Result<Extent, NoMemory>
    ensures { IfOk result (λ x. x ≡ loop_around_meant variables.now counted.now body (out-TStmt stmt.now)) }
{
    match stmt {
        TStmt::While { turns, test, .. } => {
            let test = boxed(test, variables)?;
            source_loop(counted, *turns, true, test.used, 0, body)
        }
        TStmt::DoWhile { turns, test, .. } => {
            let test = boxed(test, variables)?;
            source_loop(counted, *turns, false, test.used, 0, body)
        }
        TStmt::For {
            turns,
            first,
            test,
            step,
            ..
        } => for_loop(first, test, step, *turns, body, variables, counted),
        TStmt::Expr { .. }
        | TStmt::Empty { .. }
        | TStmt::Block { .. }
        | TStmt::If { .. }
        | TStmt::Switch { .. }
        | TStmt::Break { .. }
        | TStmt::Continue { .. }
        | TStmt::Return { .. }
        | TStmt::Declare { .. } => Ok(body),
    }
}

/// Lists the extents of a statement and of those in it, each behind those in it, in a function with these variables, where these loops
/// are counted. Answers its own.
#[cycle(statements)]
fn list_stmt(
    stmt: &TStmt,
    variables: &[TVariable],
    counted: &[bool],
    alloc: Global,
    found: &mut Vec<NumberedExtent>,
) -> Result<Extent, NoMemory>
    ensures extent { IfOk result (λ x. x ≡ (summed_stmt variables.now counted.now stmt.now).itself) }
    ensures found { OnOk result (found.new.items ≡ found.old.items ++ (summed_stmt variables.now counted.now stmt.now).extents) }
{
    let extent = list_within(stmt, variables, counted, alloc, found)?;
    list(spot_of(stmt), extent, found)
}

/// Lists the extents of the statements in a statement, and answers its own.
#[cycle(statements)]
fn list_within(
    stmt: &TStmt,
    variables: &[TVariable],
    counted: &[bool],
    alloc: Global,
    found: &mut Vec<NumberedExtent>,
) -> Result<Extent, NoMemory>
    ensures extent { IfOk result (λ x. x ≡ (summed_stmt variables.now counted.now stmt.now).itself) }
    ensures found { OnOk result (found.new.items ≡ found.old.items ++ within_stmt variables.now counted.now stmt.now) }
{
    match stmt {
        TStmt::Expr { value, .. } => {
            let e = boxed(value, variables)?;
            Ok(of_size(e.unused))
        }
        TStmt::Empty { .. } => Ok(of_size(0)),
        TStmt::Block { parts, .. } => list_stmts(parts, variables, counted, alloc, found),
        TStmt::If {
            test,
            then,
            other,
            ..
        } => {
            let test = boxed(test, variables)?;
            let one = list_boxed(then, variables, counted, alloc, found)?;
            let other = list_else(other, variables, counted, alloc, found)?;
            if_else(test.used, one, other)
        }
        TStmt::While { body, .. } => list_loop(body, stmt, variables, counted, alloc, found),
        TStmt::DoWhile { body, .. } => list_loop(body, stmt, variables, counted, alloc, found),
        TStmt::For { body, .. } => list_loop(body, stmt, variables, counted, alloc, found),
        TStmt::Switch { on, parts, .. } => {
            let on = boxed(on, variables)?;
            let parts = list_parts(parts, variables, counted, alloc, found)?;
            switch(alloc, on, parts.as_slice())
        }
        TStmt::Break { .. } => Ok(one_jump(a_break())),
        TStmt::Continue { .. } => Ok(one_jump(a_continue())),
        TStmt::Return { value, .. } => returned(value, variables),
        TStmt::Declare { list, .. } => all_declared(list, variables),
    }
}

/// Lists the extents of the body of a loop, and answers that of the loop.
#[cycle(statements)]
fn list_loop(
    body: &Box<TStmt>,
    stmt: &TStmt,
    variables: &[TVariable],
    counted: &[bool],
    alloc: Global,
    found: &mut Vec<NumberedExtent>,
) -> Result<Extent, NoMemory>
    ensures extent { IfOk result (λ x. x ≡ loop_around_meant variables.now counted.now (summed_stmt variables.now counted.now body.now).itself (out-TStmt stmt.now)) }
    ensures found { OnOk result (found.new.items ≡ found.old.items ++ (summed_stmt variables.now counted.now body.now).extents) }
{
    let body = list_boxed(body, variables, counted, alloc, found)?;
    loop_around(stmt, body, variables, counted)
}

/// The same of a statement in a box.
#[cycle(statements)]
fn list_boxed(
    stmt: &Box<TStmt>,
    variables: &[TVariable],
    counted: &[bool],
    alloc: Global,
    found: &mut Vec<NumberedExtent>,
) -> Result<Extent, NoMemory>
    ensures extent { IfOk result (λ x. x ≡ (summed_stmt variables.now counted.now stmt.now).itself) }
    ensures found { OnOk result (found.new.items ≡ found.old.items ++ (summed_stmt variables.now counted.now stmt.now).extents) }
{
    list_stmt(stmt.get(), variables, counted, alloc, found)
}

/// The same of statements, one behind the other.
#[cycle(statements)]
pub(crate) fn list_stmts(
    stmts: &Seq<TStmt>,
    variables: &[TVariable],
    counted: &[bool],
    alloc: Global,
    found: &mut Vec<NumberedExtent>,
) -> Result<Extent, NoMemory>
    ensures extent { IfOk result (λ x. x ≡ in_order_meant (themselves (map (summed_stmt variables.now counted.now) stmts.now))) }
    ensures found { OnOk result (found.new.items ≡ found.old.items ++ all_within (map (summed_stmt variables.now counted.now) stmts.now)) }
{
    let mut extents = Vec::new(alloc);
    for stmt in stmts.as_slice() {
        let one = list_stmt(stmt, variables, counted, alloc, found)?;
        extents.push(one)?;
    }
    in_order(extents.as_slice())
}

/// The same of a statement that may be left out.
#[cycle(statements)]
fn list_else(
    stmt: &Option<Box<TStmt>>,
    variables: &[TVariable],
    counted: &[bool],
    alloc: Global,
    found: &mut Vec<NumberedExtent>,
) -> Result<Option<Extent>, NoMemory>
    ensures extent { IfOk result (λ x. x ≡ option_itself (option_map (summed_stmt variables.now counted.now) stmt.now)) }
    ensures found { OnOk result (found.new.items ≡ found.old.items ++ option_within (option_map (summed_stmt variables.now counted.now) stmt.now)) }
{
    match stmt {
        None => Ok(None),
        Some(stmt) => {
            let one = list_stmt(stmt.get(), variables, counted, alloc, found)?;
            Ok(Some(one))
        }
    }
}

/// The same of the parts of a switch.
#[cycle(statements)]
fn list_parts(
    parts: &Seq<TPart>,
    variables: &[TVariable],
    counted: &[bool],
    alloc: Global,
    found: &mut Vec<NumberedExtent>,
) -> Result<Vec<PartExtent>, NoMemory>
    ensures extents { IfOk result (λ xs. xs.items ≡ parts_themselves (map (summed_part variables.now counted.now) parts.now)) }
    ensures found { OnOk result (found.new.items ≡ found.old.items ++ parts_within (map (summed_part variables.now counted.now) parts.now)) }
{
    let mut extents = Vec::new(alloc);
    for part in parts.as_slice() {
        let one = list_part(part, variables, counted, alloc, found)?;
        extents.push(one)?;
    }
    Ok(extents)
}

/// The same of a part of a switch.
#[cycle(statements)]
fn list_part(
    part: &TPart,
    variables: &[TVariable],
    counted: &[bool],
    alloc: Global,
    found: &mut Vec<NumberedExtent>,
) -> Result<PartExtent, NoMemory>
    ensures extent { IfOk result (λ x. x ≡ (summed_part variables.now counted.now part.now).part) }
    ensures found { OnOk result (found.new.items ≡ found.old.items ++ (summed_part variables.now counted.now part.now).extents) }
{
    match part {
        TPart::Case { .. } => Ok(PartExtent::Case),
        TPart::Default { .. } => Ok(PartExtent::Default),
        TPart::Does { stmt, .. } => {
            let one = list_stmt(stmt.get(), variables, counted, alloc, found)?;
            Ok(PartExtent::Statement(one))
        }
    }
}

//! What stands in statements, noted in text order.
ghost use Rattle.std.specs.Prelude.{◌≡◌, ◌∷◌, ◌++◌, [], map, option_map, IfOk, OnOk};
ghost use Rattle.k_pragma_texts.specs.Declarations.{first_occurs, first_sets as first_meant, option_occurs};
ghost use Rattle.k_pragma_texts.specs.Occurrences.{last_in, occurs_in};
ghost use Rattle.k_pragma_texts.specs.Texts.{for_text, held, loops_in_parts, loops_in_row, loops_there, occurs_in_parts, occurs_in_row, occurs_there, part_held, setter, setters_in_block, setters_in_parts, setters_there, tested_text};

use crate::actions::note_action;
use crate::canonical::is_canonical;
use crate::counters::counted_by;
use crate::declared::{note_declared, note_first, note_option};
use crate::expressions::note_expr;
use crate::lasts::{last_of, last_of_first, last_of_option, last_of_stmt, last_of_stmts};
use crate::occurrence::{LoopText, Setter};
use crate::setting::{first_sets, sets};
use crate::text::Text;
use k_num::{Box, NoMemory, Seq};
use k_types_meaning::{Spot, TExpr, TFirst, TPart, TStmt};
use std::alloc::Global;

/// The node of a statement.
fn node_of(stmt: &TStmt) -> u32
    ensures { result ≡ (held stmt.now).node }
{
    match stmt {
        TStmt::Expr { spot, .. }
        | TStmt::Empty { spot }
        | TStmt::Block { spot, .. }
        | TStmt::If { spot, .. }
        | TStmt::While { spot, .. }
        | TStmt::DoWhile { spot, .. }
        | TStmt::For { spot, .. }
        | TStmt::Switch { spot, .. }
        | TStmt::Break { spot }
        | TStmt::Continue { spot }
        | TStmt::Return { spot, .. }
        | TStmt::Declare { spot, .. } => spot.number,
    }
}

/// The variable v, where a statement is an expression statement `v = e` and e does not name v.
fn stmt_sets(alloc: Global, stmt: &TStmt) -> Result<Option<u32>, NoMemory>
    ensures { IfOk result (λ set. set ≡ (held stmt.now).sets) }
{
    match stmt {
        TStmt::Expr { value, .. } => sets(alloc, value.get()),
        _ => Ok(None),
    }
}

/// Notes that an assignment of this variable at a node feeds reads up to the last node.
fn note_setter(
    node: u32,
    last: u32,
    set: Option<u32>,
    setters: &mut Vec<Setter>,
) -> Result<(), NoMemory>
    ensures { OnOk result (setters.new.items ≡ setters.old.items ++ setter node last set) }
{
    match set {
        None => Ok(()),
        Some(variable) => Ok(setters.push(Setter {
            variable,
            node,
            last,
        })?),
    }
}

/// Notes a loop that is tested alone.
fn note_tested(
    spot: Spot,
    number: u32,
    last: u32,
    loops: &mut Vec<LoopText>,
) -> Result<(), NoMemory>
    ensures { OnOk result (loops.new.items ≡ loops.old.items ++ tested_text spot number last ∷ []) }
{
    Ok(loops.push(LoopText {
        number,
        node: spot.number,
        head: spot.number,
        test: spot.number,
        last,
        counter: None,
        canonical: false,
    })?)
}

/// Notes a `for`.
fn note_for(
    spot: Spot,
    number: u32,
    last: u32,
    first: &TFirst,
    test: &Option<Box<TExpr>>,
    step: &Option<Box<TExpr>>,
    loops: &mut Vec<LoopText>,
) -> Result<(), NoMemory>
    ensures { OnOk result (loops.new.items ≡ loops.old.items ++ for_text spot number last first.now test.now step.now ∷ []) }
{
    let head = last_of_first(spot.number, first);
    Ok(loops.push(LoopText {
        number,
        node: spot.number,
        head,
        test: last_of_option(head, test),
        last,
        counter: counted_by(step),
        canonical: is_canonical(first, test, step),
    })?)
}

/// Notes what stands in a statement.
#[cycle(statements)]
fn note_stmt(alloc: Global, stmt: &TStmt, text: &mut Text) -> Result<(), NoMemory>
    ensures occurs { OnOk result (text.new.occurs.items ≡ text.old.occurs.items ++ (held stmt.now).occurs) }
    ensures setters { OnOk result (text.new.setters.items ≡ text.old.setters.items ++ (held stmt.now).setters) }
    ensures loops { OnOk result (text.new.loops.items ≡ text.old.loops.items ++ (held stmt.now).loops) }
{
    match stmt {
        TStmt::Empty { .. } | TStmt::Break { .. } | TStmt::Continue { .. } => Ok(()),
        TStmt::Expr { value, .. } => note_action(value.get(), &mut text.occurs),
        TStmt::Block { spot, parts } => {
            note_block(alloc, last_of_stmts(spot.number, parts), parts, text)
        }
        TStmt::If {
            test,
            then,
            other,
            ..
        } => {
            note_expr(test.get(), &mut text.occurs)?;
            note_stmt(alloc, then.get(), text)?;
            note_else(alloc, other, text)
        }
        TStmt::While {
            spot,
            turns,
            test,
            body,
        } => note_while(alloc, body.get(), test.get(), *spot, *turns, text),
        TStmt::DoWhile {
            spot,
            turns,
            body,
            test,
        } => note_do(alloc, body.get(), test.get(), *spot, *turns, text),
        TStmt::For {
            spot,
            turns,
            first,
            test,
            step,
            body,
        } => note_counted(alloc, body.get(), first, test, step, *spot, *turns, text),
        TStmt::Switch { on, parts, .. } => note_switch(alloc, parts, on.get(), text),
        TStmt::Return { value, .. } => note_option(value, &mut text.occurs),
        TStmt::Declare { spot, list } => note_declared(spot.number, list, &mut text.occurs),
    }
}

/// Notes what stands in a `while`.
#[cycle(statements)]
fn note_while(
    alloc: Global,
    body: &TStmt,
    test: &TExpr,
    spot: Spot,
    turns: u32,
    text: &mut Text,
) -> Result<(), NoMemory>
    ensures occurs { OnOk result (text.new.occurs.items ≡ text.old.occurs.items ++ (occurs_in test.now ++ (held body.now).occurs)) }
    ensures setters { OnOk result (text.new.setters.items ≡ text.old.setters.items ++ (held body.now).setters) }
    ensures loops { OnOk result (text.new.loops.items ≡ text.old.loops.items ++ tested_text spot turns (held body.now).last ∷ (held body.now).loops) }
{
    note_tested(spot, turns, last_of_stmt(body), &mut text.loops)?;
    note_expr(test, &mut text.occurs)?;
    note_stmt(alloc, body, text)
}

/// Notes what stands in a `do`.
#[cycle(statements)]
fn note_do(
    alloc: Global,
    body: &TStmt,
    test: &TExpr,
    spot: Spot,
    turns: u32,
    text: &mut Text,
) -> Result<(), NoMemory>
    ensures occurs { OnOk result (text.new.occurs.items ≡ text.old.occurs.items ++ ((held body.now).occurs ++ occurs_in test.now)) }
    ensures setters { OnOk result (text.new.setters.items ≡ text.old.setters.items ++ (held body.now).setters) }
    ensures loops { OnOk result (text.new.loops.items ≡ text.old.loops.items ++ tested_text spot turns (last_in test.now) ∷ (held body.now).loops) }
{
    note_tested(spot, turns, last_of(test), &mut text.loops)?;
    note_stmt(alloc, body, text)?;
    note_expr(test, &mut text.occurs)
}

/// Notes what stands in a `for`.
#[cycle(statements)]
fn note_counted(
    alloc: Global,
    body: &TStmt,
    first: &TFirst,
    test: &Option<Box<TExpr>>,
    step: &Option<Box<TExpr>>,
    spot: Spot,
    turns: u32,
    text: &mut Text,
) -> Result<(), NoMemory>
    ensures occurs { OnOk result (text.new.occurs.items ≡ text.old.occurs.items ++ (first_occurs spot.number first.now ++ (option_occurs test.now ++ (option_occurs step.now ++ (held body.now).occurs)))) }
    ensures setters { OnOk result (text.new.setters.items ≡ text.old.setters.items ++ (setter spot.number (held body.now).last (first_meant first.now) ++ (held body.now).setters)) }
    ensures loops { OnOk result (text.new.loops.items ≡ text.old.loops.items ++ for_text spot turns (held body.now).last first.now test.now step.now ∷ (held body.now).loops) }
{
    let last = last_of_stmt(body);
    let set = first_sets(alloc, first)?;
    note_for(spot, turns, last, first, test, step, &mut text.loops)?;
    note_setter(spot.number, last, set, &mut text.setters)?;
    note_first(spot.number, first, &mut text.occurs)?;
    note_option(test, &mut text.occurs)?;
    note_option(step, &mut text.occurs)?;
    note_stmt(alloc, body, text)
}

/// Notes what stands in a switch.
#[cycle(statements)]
fn note_switch(
    alloc: Global,
    parts: &Seq<TPart>,
    on: &TExpr,
    text: &mut Text,
) -> Result<(), NoMemory>
    ensures occurs { OnOk result (text.new.occurs.items ≡ text.old.occurs.items ++ (occurs_in on.now ++ occurs_in_parts (map part_held parts.now))) }
    ensures setters { OnOk result (text.new.setters.items ≡ text.old.setters.items ++ setters_in_parts (map part_held parts.now)) }
    ensures loops { OnOk result (text.new.loops.items ≡ text.old.loops.items ++ loops_in_parts (map part_held parts.now)) }
{
    note_expr(on, &mut text.occurs)?;
    note_parts(alloc, parts, text)
}

/// Notes what stands in the statements of a block with this last node.
#[cycle(statements)]
pub(crate) fn note_block(
    alloc: Global,
    last: u32,
    parts: &Seq<TStmt>,
    text: &mut Text,
) -> Result<(), NoMemory>
    ensures occurs { OnOk result (text.new.occurs.items ≡ text.old.occurs.items ++ occurs_in_row (map held parts.now)) }
    ensures setters { OnOk result (text.new.setters.items ≡ text.old.setters.items ++ setters_in_block last (map held parts.now)) }
    ensures loops { OnOk result (text.new.loops.items ≡ text.old.loops.items ++ loops_in_row (map held parts.now)) }
{
    for part in parts.as_slice() {
        let set = stmt_sets(alloc, part)?;
        note_setter(node_of(part), last, set, &mut text.setters)?;
        note_stmt(alloc, part, text)?;
    }
    Ok(())
}

/// Notes what stands in a statement that may be left out.
#[cycle(statements)]
fn note_else(alloc: Global, stmt: &Option<Box<TStmt>>, text: &mut Text) -> Result<(), NoMemory>
    ensures occurs { OnOk result (text.new.occurs.items ≡ text.old.occurs.items ++ occurs_there (option_map held stmt.now)) }
    ensures setters { OnOk result (text.new.setters.items ≡ text.old.setters.items ++ setters_there (option_map held stmt.now)) }
    ensures loops { OnOk result (text.new.loops.items ≡ text.old.loops.items ++ loops_there (option_map held stmt.now)) }
{
    match stmt {
        None => Ok(()),
        Some(stmt) => note_stmt(alloc, stmt.get(), text),
    }
}

/// Notes what stands in the parts of a switch.
#[cycle(statements)]
fn note_parts(alloc: Global, parts: &Seq<TPart>, text: &mut Text) -> Result<(), NoMemory>
    ensures occurs { OnOk result (text.new.occurs.items ≡ text.old.occurs.items ++ occurs_in_parts (map part_held parts.now)) }
    ensures setters { OnOk result (text.new.setters.items ≡ text.old.setters.items ++ setters_in_parts (map part_held parts.now)) }
    ensures loops { OnOk result (text.new.loops.items ≡ text.old.loops.items ++ loops_in_parts (map part_held parts.now)) }
{
    for part in parts.as_slice() {
        note_part(alloc, part, text)?;
    }
    Ok(())
}

/// Notes what stands in a part of a switch.
#[cycle(statements)]
fn note_part(alloc: Global, part: &TPart, text: &mut Text) -> Result<(), NoMemory>
    ensures occurs { OnOk result (text.new.occurs.items ≡ text.old.occurs.items ++ occurs_there (part_held part.now)) }
    ensures setters { OnOk result (text.new.setters.items ≡ text.old.setters.items ++ setters_there (part_held part.now)) }
    ensures loops { OnOk result (text.new.loops.items ≡ text.old.loops.items ++ loops_there (part_held part.now)) }
{
    match part {
        TPart::Case { .. } | TPart::Default { .. } => Ok(()),
        TPart::Does { stmt, .. } => note_stmt(alloc, stmt.get(), text),
    }
}

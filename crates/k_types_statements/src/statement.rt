//! The typing of statements: a part is judged before the statement that it stands in (C17 6.8).
ghost use Rattle.std.specs.Prelude.{map};
ghost use Rattle.k_types_meaning.specs.Statements as spec;
ghost use Rattle.k_types_declarations.specs.Results.{seen};
ghost use Rattle.k_types_statements.specs.Around.{around_of};
ghost use Rattle.k_types_statements.specs.Labels.{judge_part, Holds, PartRuns};
ghost use Rattle.k_types_statements.specs.Results.{else_of, Runs};

use crate::around::{Around, inside_loop, inside_switch};
use crate::loops::{do_made, first_judged, for_made, while_made};
use crate::rules::{
    block_made, break_rule, continue_rule, declare_rule, empty_rule, expr_rule, if_made,
    return_rule,
};
use crate::scope::{close_scope, open_scope};
use crate::switch::{Labels, case_rule, default_rule, no_labels, promoted_or_int, switched};
use crate::valued::{judge_option, judge_value};
use k_num::{Box, Kind, Place, Seq};
use k_tree::{Expr, First, Part, Stmt};
use k_types_declarations::Known;
use k_types_meaning::{TPart, TStmt, TypeFault};
use std::alloc::Global;

/// The statements of a function's block: their trees, whose nodes have no numbers yet, or their first fault
/// (C17 6.8.2). What is known goes on behind them; the block's names stay in the innermost scope.
#[tactic(auto, unfolding(k_types_meaning::specs::Statements::judge_body))]
pub fn judge_body(
    alloc: Global,
    around: Around<'_>,
    known: &mut Known,
    body: &Seq<Stmt>,
) -> Result<Seq<TStmt>, TypeFault>
    ensures { Runs result (seen known.old) (seen known.new) (spec.judge_body (around_of around.entry) (seen known.old) body.now) }
{
    judge_all(alloc, around, known, body)
}

/// A statement.
#[cycle(statements)]
fn judge_stmt(
    alloc: Global,
    around: Around<'_>,
    known: &mut Known,
    stmt: &Stmt,
) -> Result<Box<TStmt>, TypeFault>
    ensures { Runs result (seen known.old) (seen known.new) (spec.judge_stmt stmt.now (around_of around.entry) (seen known.old)) }
{
    match stmt {
        Stmt::Expr { place, value } => expr_rule(alloc, known, *place, value.get()),
        Stmt::Empty { place } => empty_rule(alloc, *place),
        Stmt::Block { place, parts } => block_rule(alloc, around, known, *place, parts),
        Stmt::If {
            place,
            test,
            then: first,
            other: second,
        } => {
            let test = judge_value(alloc, known, test.get())?;
            let first = judge_stmt(alloc, around, known, first.get())?;
            let second = judge_else(alloc, around, known, second)?;
            if_made(alloc, *place, test, first, second)
        }
        Stmt::While { place, test, body } => {
            while_rule(alloc, around, known, *place, body.get(), test.get())
        }
        Stmt::DoWhile { place, body, test } => {
            do_rule(alloc, around, known, *place, body.get(), test.get())
        }
        Stmt::For {
            place,
            first,
            test,
            step,
            body,
        } => for_rule(alloc, around, known, *place, body.get(), first, test, step),
        Stmt::Switch { place, on, parts } => {
            switch_rule(alloc, around, known, *place, parts, on.get())
        }
        Stmt::Break { place } => break_rule(alloc, around, *place),
        Stmt::Continue { place } => continue_rule(alloc, around, *place),
        Stmt::Return { place, value } => return_rule(alloc, around, known, *place, value),
        Stmt::Declare { place, specs, list } => { declare_rule(alloc, known, *place, specs, list) }
    }
}

/// What may follow an `if` (C17 6.8.4.1).
#[cycle(statements)]
fn judge_else(
    alloc: Global,
    around: Around<'_>,
    known: &mut Known,
    stmt: &Option<Box<Stmt>>,
) -> Result<Option<Box<TStmt>>, TypeFault>
    ensures { Runs result (seen known.old) (seen known.new) (spec.else_judged (around_of around.entry) (seen known.old) (else_of stmt.now)) }
{
    match stmt {
        None => Ok(None),
        Some(stmt) => {
            let stmt = judge_stmt(alloc, around, known, stmt.get())?;
            Ok(Some(stmt))
        }
    }
}

/// Statements one after the other.
#[cycle(statements)]
fn judge_all(
    alloc: Global,
    around: Around<'_>,
    known: &mut Known,
    stmts: &Seq<Stmt>,
) -> Result<Seq<TStmt>, TypeFault>
    ensures { Runs result (seen known.old) (seen known.new) (spec.in_order (seen known.old) (spec.each_in (around_of around.entry) (map spec.judge_stmt stmts.now))) }
{
    let mut all = Seq::new(alloc);
    for stmt in stmts.as_slice() {
        let judged = judge_stmt(alloc, around, known, stmt)?;
        all.push(judged.into_inner())?;
    }
    Ok(all)
}

/// A block, whose names are known in it alone (C17 6.8.2).
#[cycle(statements)]
fn block_rule(
    alloc: Global,
    around: Around<'_>,
    known: &mut Known,
    place: Place,
    parts: &Seq<Stmt>,
) -> Result<Box<TStmt>, TypeFault>
    ensures { Runs result (seen known.old) (seen known.new) (spec.block_rule place (map spec.judge_stmt parts.now) (around_of around.entry) (seen known.old)) }
{
    open_scope(known)?;
    let parts = judge_all(alloc, around, known, parts)?;
    close_scope(known);
    block_made(alloc, place, parts)
}

/// A `while` loop (C17 6.8.5.1).
#[cycle(statements)]
fn while_rule(
    alloc: Global,
    around: Around<'_>,
    known: &mut Known,
    place: Place,
    body: &Stmt,
    test: &Expr,
) -> Result<Box<TStmt>, TypeFault>
    ensures { Runs result (seen known.old) (seen known.new) (spec.while_rule place test.now (spec.judge_stmt body.now) (around_of around.entry) (seen known.old)) }
{
    let test = judge_value(alloc, known, test)?;
    let body = judge_stmt(alloc, inside_loop(around), known, body)?;
    while_made(alloc, place, test, body)
}

/// A `do` loop (C17 6.8.5.2).
#[cycle(statements)]
fn do_rule(
    alloc: Global,
    around: Around<'_>,
    known: &mut Known,
    place: Place,
    body: &Stmt,
    test: &Expr,
) -> Result<Box<TStmt>, TypeFault>
    ensures { Runs result (seen known.old) (seen known.new) (spec.do_rule place (spec.judge_stmt body.now) test.now (around_of around.entry) (seen known.old)) }
{
    let body = judge_stmt(alloc, inside_loop(around), known, body)?;
    let test = judge_value(alloc, known, test)?;
    do_made(alloc, place, body, test)
}

/// A `for` loop, whose names are known in it alone (C17 6.8.5p5, 6.8.5.3).
#[cycle(statements)]
fn for_rule(
    alloc: Global,
    around: Around<'_>,
    known: &mut Known,
    place: Place,
    body: &Stmt,
    first: &First,
    test: &Option<Box<Expr>>,
    step: &Option<Box<Expr>>,
) -> Result<Box<TStmt>, TypeFault>
    ensures { Runs result (seen known.old) (seen known.new) (spec.for_rule place first.now test.now step.now (spec.judge_stmt body.now) (around_of around.entry) (seen known.old)) }
{
    open_scope(known)?;
    let first = first_judged(alloc, known, first)?;
    let test = judge_option(alloc, known, test)?;
    let step = judge_option(alloc, known, step)?;
    let body = judge_stmt(alloc, inside_loop(around), known, body)?;
    close_scope(known);
    for_made(alloc, place, first, test, step, body)
}

/// A switch (C17 6.8.4.2).
#[cycle(statements)]
fn switch_rule(
    alloc: Global,
    around: Around<'_>,
    known: &mut Known,
    place: Place,
    parts: &Seq<Part>,
    on: &Expr,
) -> Result<Box<TStmt>, TypeFault>
    ensures { Runs result (seen known.old) (seen known.new) (spec.switch_rule place on.now (map judge_part parts.now) (around_of around.entry) (seen known.old)) }
{
    let on = judge_value(alloc, known, on)?;
    let kind = promoted_or_int(on.kind);
    let parts = judge_parts(alloc, inside_switch(around), known, kind, parts)?;
    switched(alloc, place, on, parts)
}

/// The parts of a switch on this kind, one after the other.
#[cycle(statements)]
fn judge_parts(
    alloc: Global,
    around: Around<'_>,
    known: &mut Known,
    kind: Kind,
    parts: &Seq<Part>,
) -> Result<Seq<TPart>, TypeFault>
    ensures { Runs result (seen known.old) (seen known.new) (spec.parts_in_order (around_of around.entry) kind spec.no_labels (seen known.old) (map judge_part parts.now)) }
{
    let mut labels = no_labels(alloc);
    let mut all = Seq::new(alloc);
    for part in parts.as_slice() {
        let judged = judge_part(alloc, around, known, kind, part, &mut labels)?;
        all.push(judged)?;
    }
    Ok(all)
}

/// A part of a switch: a label, or a statement in its braces.
#[cycle(statements)]
fn judge_part(
    alloc: Global,
    around: Around<'_>,
    known: &mut Known,
    kind: Kind,
    part: &Part,
    labels: &mut Labels,
) -> Result<TPart, TypeFault>
    ensures { (older : spec.Labels) → Holds labels.old older → PartRuns result (seen known.old) (seen known.new) labels.new (judge_part part.now (around_of around.entry) kind older (seen known.old)) }
{
    match part {
        Part::Case { place, value } => {
            case_rule(alloc, known, *place, kind, labels, value.get())
        }
        Part::Default { place } => default_rule(*place, labels),
        Part::Does { place, stmt } => {
            let stmt = judge_stmt(alloc, around, known, stmt.get())?;
            Ok(TPart::Does {
                place: *place,
                stmt,
            })
        }
    }
}

//! The rules of statements without a body, and of what a block and an `if` come to (C17 6.8.2 to 6.8.4, 6.8.6).
ghost use Rattle.std.specs.Prelude.{◌≡◌};
ghost use Rattle.k_types_meaning.specs.Made.{Fine, Finds};
ghost use Rattle.k_types_meaning.specs.Statements as spec;
ghost use Rattle.k_types_meaning.specs.declared.tree.statement.TStmt.TheVariants as trees;
ghost use Rattle.k_types_rules.specs.Views.{type_of};
ghost use Rattle.k_types_declarations.specs.Results.{seen};
ghost use Rattle.k_types_statements.specs.Around.{around_of};
ghost use Rattle.k_types_statements.specs.Results.{return_judged, Runs};

use crate::around::Around;
use crate::valued::{Valued, judge_value};
use k_num::{Box, Place, Seq};
use k_tree::{Declarator, Expr, Word};
use k_types_declarations::{Known, declare_all};
use k_types_expressions::judge;
use k_types_meaning::{Spot, TStmt, TypeFault};
use k_types_objects::Saying;
use k_types_rules::{TypeView, passed};
use std::alloc::Global;

/// A statement that has no number yet.
pub(crate) fn spot(place: Place) -> Spot
    ensures { result ≡ spec.spot place }
{
    Spot { number: 0, place }
}

/// An expression (C17 6.8.3).
#[tactic(auto, unfolding(k_types_meaning::specs::Statements::expr_rule))]
pub(crate) fn expr_rule(
    alloc: Global,
    known: &mut Known,
    place: Place,
    value: &Expr,
) -> Result<Box<TStmt>, TypeFault>
    ensures { (around : spec.Around) → Runs result (seen known.old) (seen known.new) (spec.expr_rule place value.now around (seen known.old)) }
{
    let value = judge_value(alloc, known, value)?;
    let spot = spot(place);
    let stmt = Box::new(
        alloc,
        TStmt::Expr {
            spot,
            value: value.tree,
        },
    )?;
    Ok(stmt)
}

/// `;` (C17 6.8.3).
#[tactic(auto, unfolding(k_types_meaning::specs::Statements::empty_rule))]
pub(crate) fn empty_rule(alloc: Global, place: Place) -> Result<Box<TStmt>, TypeFault>
    ensures { (around : spec.Around) (known : spec.Known) → Runs result known known (spec.empty_rule place around known) }
{
    let spot = spot(place);
    let stmt = Box::new(alloc, TStmt::Empty { spot })?;
    Ok(stmt)
}

/// A block of these statements.
pub(crate) fn block_made(
    alloc: Global,
    place: Place,
    parts: Seq<TStmt>,
) -> Result<Box<TStmt>, TypeFault>
    ensures { Finds result (Fine (trees.Block (spec.spot place) parts)) }
{
    let spot = spot(place);
    let stmt = Box::new(alloc, TStmt::Block { spot, parts })?;
    Ok(stmt)
}

/// An `if` of which this is judged: its test is a number (C17 6.8.4.1p1).
pub(crate) fn if_made(
    alloc: Global,
    place: Place,
    test: Valued,
    first: Box<TStmt>,
    second: Option<Box<TStmt>>,
) -> Result<Box<TStmt>, TypeFault>
    ensures { Finds result (spec.conditioned place test.kind (trees.If (spec.spot place) test.tree first second)) }
{
    let Some(_) = test.kind else {
        drop(test);
        drop(first);
        drop(second);
        return Err(TypeFault::Kinds(place));
    };
    let spot = spot(place);
    let stmt = Box::new(
        alloc,
        TStmt::If {
            spot,
            test: test.tree,
            then: first,
            other: second,
        },
    )?;
    Ok(stmt)
}

/// A `break` stands in a loop or a switch (C17 6.8.6.3p1).
#[tactic(auto, unfolding(k_types_meaning::specs::Statements::break_rule))]
pub(crate) fn break_rule(
    alloc: Global,
    around: Around<'_>,
    place: Place,
) -> Result<Box<TStmt>, TypeFault>
    ensures { (known : spec.Known) → Runs result known known (spec.break_rule place (around_of around.entry) known) }
{
    if !(around.in_loop || around.in_switch) {
        return Err(TypeFault::JumpOutside(place));
    }
    let spot = spot(place);
    let stmt = Box::new(alloc, TStmt::Break { spot })?;
    Ok(stmt)
}

/// A `continue` stands in a loop (C17 6.8.6.2p1).
#[tactic(auto, unfolding(k_types_meaning::specs::Statements::continue_rule))]
pub(crate) fn continue_rule(
    alloc: Global,
    around: Around<'_>,
    place: Place,
) -> Result<Box<TStmt>, TypeFault>
    ensures { (known : spec.Known) → Runs result known known (spec.continue_rule place (around_of around.entry) known) }
{
    if !around.in_loop {
        return Err(TypeFault::JumpOutside(place));
    }
    let spot = spot(place);
    let stmt = Box::new(alloc, TStmt::Continue { spot })?;
    Ok(stmt)
}

/// A `return` (C17 6.8.6.4).
#[tactic(auto, unfolding(k_types_meaning::specs::Statements::return_rule))]
pub(crate) fn return_rule(
    alloc: Global,
    around: Around<'_>,
    known: &mut Known,
    place: Place,
    value: &Option<Box<Expr>>,
) -> Result<Box<TStmt>, TypeFault>
    ensures { Runs result (seen known.old) (seen known.new) (spec.return_rule place value.now (around_of around.entry) (seen known.old)) }
{
    match value {
        None => return_nothing(alloc, place, around.result),
        Some(value) => return_value(alloc, around.result, known, place, value.get()),
    }
}

/// A `return` without a value, from a function that gives none (C17 6.8.6.4p1).
fn return_nothing(
    alloc: Global,
    place: Place,
    result_type: TypeView<'_>,
) -> Result<Box<TStmt>, TypeFault>
    ensures { Finds result (spec.return_nothing place (type_of result_type.entry)) }
{
    match result_type {
        TypeView::Void => {
            let spot = spot(place);
            let stmt = Box::new(alloc, TStmt::Return { spot, value: None })?;
            Ok(stmt)
        }
        TypeView::Number(_) | TypeView::Pointer(_) | TypeView::Array(_, _) => {
            Err(TypeFault::Kinds(place))
        }
    }
}

/// A `return` of a value, which is passed to the result (C17 6.8.6.4p3).
fn return_value(
    alloc: Global,
    result_type: TypeView<'_>,
    known: &mut Known,
    place: Place,
    value: &Expr,
) -> Result<Box<TStmt>, TypeFault>
    ensures { Runs result (seen known.old) (seen known.new) (return_judged place (type_of result_type.entry) (seen known.old) value.now) }
{
    let judged = judge(alloc, &known.names, value, &mut known.taken)?;
    let Some(tree) = passed(alloc, result_type, judged)? else {
        return Err(TypeFault::Kinds(place));
    };
    let spot = spot(place);
    let stmt = Box::new(
        alloc,
        TStmt::Return {
            spot,
            value: Some(tree),
        },
    )?;
    Ok(stmt)
}

/// A declaration (C17 6.7).
#[tactic(auto, unfolding(k_types_meaning::specs::Statements::declare_rule))]
pub(crate) fn declare_rule(
    alloc: Global,
    known: &mut Known,
    place: Place,
    specs: &Seq<Word>,
    list: &Seq<Declarator>,
) -> Result<Box<TStmt>, TypeFault>
    ensures { (around : spec.Around) → Runs result (seen known.old) (seen known.new) (spec.declare_rule place specs.now list.now around (seen known.old)) }
{
    let saying = Saying::of_specifiers(false, specs);
    let list = declare_all(alloc, known, &saying, list)?;
    let spot = spot(place);
    let stmt = Box::new(alloc, TStmt::Declare { spot, list })?;
    Ok(stmt)
}

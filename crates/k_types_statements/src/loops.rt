//! What loops come to, of which the parts are judged (C17 6.8.5).
ghost use Rattle.std.specs.Prelude.{◌≡◌};
ghost use Rattle.k_tree.specs.declared.tree.statement.First.TheVariants as first_part;
ghost use Rattle.k_types_meaning.specs.Made.{Finds};
ghost use Rattle.k_types_meaning.specs.Statements as spec;
ghost use Rattle.k_types_meaning.specs.declared.tree.statement.TStmt.TheVariants as trees;
ghost use Rattle.k_types_declarations.specs.Results.{seen};
ghost use Rattle.k_types_statements.specs.Results.{for_valued, is_no_number, Runs};

use crate::rules::spot;
use crate::valued::{Valued, judge_value, tree_option};
use k_num::{Box, Place, Seq};
use k_tree::{Declarator, Expr, First, Word};
use k_types_declarations::{Known, declare_all};
use k_types_meaning::{TFirst, TStmt, TypeFault};
use k_types_objects::Saying;
use std::alloc::Global;

/// A `while` loop: its test is a number (C17 6.8.5p2).
pub(crate) fn while_made(
    alloc: Global,
    place: Place,
    test: Valued,
    body: Box<TStmt>,
) -> Result<Box<TStmt>, TypeFault>
    ensures { Finds result (spec.conditioned place test.kind (trees.While (spec.spot place) 0 test.tree body)) }
{
    let Some(_) = test.kind else {
        drop(test);
        drop(body);
        return Err(TypeFault::Kinds(place));
    };
    let spot = spot(place);
    let stmt = Box::new(
        alloc,
        TStmt::While {
            spot,
            turns: 0,
            test: test.tree,
            body,
        },
    )?;
    Ok(stmt)
}

/// A `do` loop: its test is a number (C17 6.8.5p2).
pub(crate) fn do_made(
    alloc: Global,
    place: Place,
    body: Box<TStmt>,
    test: Valued,
) -> Result<Box<TStmt>, TypeFault>
    ensures { Finds result (spec.conditioned place test.kind (trees.DoWhile (spec.spot place) 0 body test.tree)) }
{
    let Some(_) = test.kind else {
        drop(test);
        drop(body);
        return Err(TypeFault::Kinds(place));
    };
    let spot = spot(place);
    let stmt = Box::new(
        alloc,
        TStmt::DoWhile {
            spot,
            turns: 0,
            body,
            test: test.tree,
        },
    )?;
    Ok(stmt)
}

/// The first part of a `for` (C17 6.8.5.3).
pub(crate) fn first_judged(
    alloc: Global,
    known: &mut Known,
    first: &First,
) -> Result<Box<TFirst>, TypeFault>
    ensures { Runs result (seen known.old) (seen known.new) (spec.first_judged (seen known.old) first.now) }
{
    match first {
        First::Nothing => {
            let first = Box::new(alloc, TFirst::Nothing)?;
            Ok(first)
        }
        First::Value(value) => first_value(alloc, known, value),
        First::Declare(specs, list) => first_declared(alloc, known, specs, list),
    }
}

/// An expression as the first part of a `for`.
fn first_value(alloc: Global, known: &mut Known, value: &Expr) -> Result<Box<TFirst>, TypeFault>
    ensures { Runs result (seen known.old) (seen known.new) (spec.first_judged (seen known.old) (first_part.Value value.now)) }
{
    let value = judge_value(alloc, known, value)?;
    let first = Box::new(alloc, TFirst::Value(value.tree.into_inner()))?;
    Ok(first)
}

/// A declaration as the first part of a `for`.
fn first_declared(
    alloc: Global,
    known: &mut Known,
    specs: &Seq<Word>,
    list: &Seq<Declarator>,
) -> Result<Box<TFirst>, TypeFault>
    ensures { Runs result (seen known.old) (seen known.new) (spec.first_judged (seen known.old) (first_part.Declare specs.now list.now)) }
{
    let saying = Saying::of_specifiers(false, specs);
    let list = declare_all(alloc, known, &saying, list)?;
    let first = Box::new(alloc, TFirst::Declare(list))?;
    Ok(first)
}

/// A `for` loop: its test is a number, where it has one (C17 6.8.5p2).
pub(crate) fn for_made(
    alloc: Global,
    place: Place,
    first: Box<TFirst>,
    test: Option<Valued>,
    step: Option<Valued>,
    body: Box<TStmt>,
) -> Result<Box<TStmt>, TypeFault>
    ensures { Finds result (for_valued place first test step body) }
{
    if is_no_number(&test) {
        drop(first);
        drop(test);
        drop(step);
        drop(body);
        return Err(TypeFault::Kinds(place));
    }
    let test = tree_option(test);
    let step = tree_option(step);
    let spot = spot(place);
    let stmt = Box::new(
        alloc,
        TStmt::For {
            spot,
            turns: 0,
            first: first.into_inner(),
            test,
            step,
            body,
        },
    )?;
    Ok(stmt)
}

/// Whether an expression is there and no number.
fn is_no_number(value: &Option<Valued>) -> bool
    ensures { result ≡ is_no_number value.now }
{
    match value {
        None => false,
        Some(value) => value.kind.is_none(),
    }
}

//! The calls in statements (C17 6.8).
ghost use Rattle.std.specs.Prelude.{◌≡◌, ◌++◌, map, OnOk};
ghost use Rattle.k_types_meaning.specs.Called.{all_calls, first_calls, stmt_calls};
ghost use Rattle.k_types_calls.specs.Noting.{for_calls, part_calls, seen};

use crate::declaration::note_declarators;
use crate::expression::{note_boxed, note_expr};
use crate::source::Call;
use k_num::{Box, NoMemory, Seq};
use k_tree::{Expr, First, Part, Stmt};

/// Notes the calls of statements.
#[cycle(statements)]
pub(crate) fn note_stmts<'a>(
    parts: &'a Seq<Stmt>,
    calls: &mut Vec<Call<'a>>,
) -> Result<(), NoMemory>
    ensures { OnOk result (map seen calls.new.items ≡ map seen calls.old.items ++ all_calls (map stmt_calls parts.now)) }
{
    for part in parts.as_slice() {
        note_stmt(part, calls)?;
    }
    Ok(())
}

/// Notes the calls of a statement.
#[cycle(statements)]
fn note_stmt<'a>(stmt: &'a Stmt, calls: &mut Vec<Call<'a>>) -> Result<(), NoMemory>
    ensures { OnOk result (map seen calls.new.items ≡ map seen calls.old.items ++ stmt_calls stmt.now) }
{
    match stmt {
        Stmt::Empty { .. } | Stmt::Break { .. } | Stmt::Continue { .. } => Ok(()),
        Stmt::Expr { value, .. } => note_expr(value.get(), calls),
        Stmt::Block { parts, .. } => note_stmts(parts, calls),
        Stmt::If {
            test,
            then,
            other,
            ..
        } => {
            note_expr(test.get(), calls)?;
            note_stmt(then.get(), calls)?;
            match other {
                None => Ok(()),
                Some(other) => note_stmt(other.get(), calls),
            }
        }
        Stmt::While { test, body, .. } => {
            note_expr(test.get(), calls)?;
            note_stmt(body.get(), calls)
        }
        Stmt::DoWhile { body, test, .. } => {
            note_stmt(body.get(), calls)?;
            note_expr(test.get(), calls)
        }
        Stmt::For {
            first,
            test,
            step,
            body,
            ..
        } => note_for(first, test, step, body.get(), calls),
        Stmt::Switch { on, parts, .. } => {
            note_expr(on.get(), calls)?;
            note_parts(parts, calls)
        }
        Stmt::Return { value, .. } => note_boxed(value, calls),
        Stmt::Declare { list, .. } => note_declarators(list, calls),
    }
}

/// Notes the calls of a `for`: of its first part, its test, its step and its body.
#[cycle(statements)]
fn note_for<'a>(
    first: &'a First,
    test: &'a Option<Box<Expr>>,
    step: &'a Option<Box<Expr>>,
    body: &'a Stmt,
    calls: &mut Vec<Call<'a>>,
) -> Result<(), NoMemory>
    ensures { OnOk result (map seen calls.new.items ≡ map seen calls.old.items ++ for_calls first.now test.now step.now body.now) }
{
    note_first(first, calls)?;
    note_boxed(test, calls)?;
    note_boxed(step, calls)?;
    note_stmt(body, calls)
}

/// Notes the calls of the parts of a `switch`.
#[cycle(statements)]
fn note_parts<'a>(parts: &'a Seq<Part>, calls: &mut Vec<Call<'a>>) -> Result<(), NoMemory>
    ensures { OnOk result (map seen calls.new.items ≡ map seen calls.old.items ++ all_calls (map part_calls parts.now)) }
{
    for part in parts.as_slice() {
        note_part(part, calls)?;
    }
    Ok(())
}

/// Notes the calls of a part of a `switch`.
#[cycle(statements)]
fn note_part<'a>(part: &'a Part, calls: &mut Vec<Call<'a>>) -> Result<(), NoMemory>
    ensures { OnOk result (map seen calls.new.items ≡ map seen calls.old.items ++ part_calls part.now) }
{
    match part {
        Part::Case { value, .. } => note_expr(value.get(), calls),
        Part::Default { .. } => Ok(()),
        Part::Does { stmt, .. } => note_stmt(stmt.get(), calls),
    }
}

/// Notes the calls of the first part of a `for`.
fn note_first<'a>(first: &'a First, calls: &mut Vec<Call<'a>>) -> Result<(), NoMemory>
    ensures { OnOk result (map seen calls.new.items ≡ map seen calls.old.items ++ first_calls first.now) }
{
    match first {
        First::Nothing => Ok(()),
        First::Value(value) => note_expr(value, calls),
        First::Declare(_, list) => note_declarators(list, calls),
    }
}

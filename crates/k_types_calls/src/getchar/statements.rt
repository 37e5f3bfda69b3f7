//! Calls in statements and in whole sources.
ghost use Rattle.std.specs.Prelude.{◌≡◌, false, map, option_map, unwrap_or};
ghost use Rattle.k_types_calls.specs.Getchar.{any, calls_getchar, function_calls, part_calls, stmt_calls};

use super::expressions::{declared_call, expr_calls, first_calls, option_calls};
use k_num::{Box, Seq};
use k_types_meaning::{TFunc, TPart, TStmt, TUnit};

/// Whether a statement holds a call.
#[cycle(statements)]
fn stmt_calls(stmt: &TStmt) -> bool
    ensures { result ≡ stmt_calls stmt.now }
{
    match stmt {
        TStmt::Empty { .. } | TStmt::Break { .. } | TStmt::Continue { .. } => false,
        TStmt::Expr { value, .. } => expr_calls(value.get()),
        TStmt::Block { parts, .. } => stmts_call(parts),
        TStmt::If {
            test,
            then,
            other,
            ..
        } => expr_calls(test.get()) || stmt_calls(then.get()) || else_calls(other),
        TStmt::While { test, body, .. } | TStmt::DoWhile { body, test, .. } => {
            expr_calls(test.get()) || stmt_calls(body.get())
        }
        TStmt::For {
            first,
            test,
            step,
            body,
            ..
        } => {
            first_calls(first) || option_calls(test) || option_calls(step) || stmt_calls(body.get())
        }
        TStmt::Switch { on, parts, .. } => expr_calls(on.get()) || parts_call(parts),
        TStmt::Return { value, .. } => option_calls(value),
        TStmt::Declare { list, .. } => declared_call(list),
    }
}

/// Whether one of these statements holds a call.
#[cycle(statements)]
fn stmts_call(stmts: &Seq<TStmt>) -> bool
    ensures { result ≡ any (map stmt_calls stmts.now) }
{
    for stmt in stmts.as_slice() {
        if stmt_calls(stmt) {
            return true;
        }
    }
    false
}

/// Whether a statement that may be left out holds a call.
#[cycle(statements)]
fn else_calls(stmt: &Option<Box<TStmt>>) -> bool
    ensures { result ≡ unwrap_or (option_map stmt_calls stmt.now) false }
{
    match stmt {
        None => false,
        Some(stmt) => stmt_calls(stmt.get()),
    }
}

/// Whether one of the parts of a switch holds a call.
#[cycle(statements)]
fn parts_call(parts: &Seq<TPart>) -> bool
    ensures { result ≡ any (map part_calls parts.now) }
{
    for part in parts.as_slice() {
        if part_calls(part) {
            return true;
        }
    }
    false
}

/// Whether a part of a switch holds a call.
#[cycle(statements)]
fn part_calls(part: &TPart) -> bool
    ensures { result ≡ part_calls part.now }
{
    match part {
        TPart::Case { .. } | TPart::Default { .. } => false,
        TPart::Does { stmt, .. } => stmt_calls(stmt.get()),
    }
}

/// Whether a function holds a call.
fn function_calls(function: &TFunc) -> bool
    ensures { result ≡ function_calls function.now }
{
    stmts_call(&function.body)
}

/// Whether a typed source has a call of the library's `getchar`, reached or not.
#[tactic(auto, unfolding(crate::specs::Getchar::calls_getchar))]
pub fn calls_getchar(unit: &TUnit) -> bool
    ensures { result ≡ calls_getchar unit.now }
{
    for function in unit.functions.as_slice() {
        if function_calls(function) {
            return true;
        }
    }
    false
}

//! Node counts of statements.
ghost use Rattle.std.specs.Prelude.{◌≡◌, ◌+◌, ◌^◌, ◌<◌, map, sum};
ghost use Rattle.k_tree.specs.Count.{first_count, part_count, stmt_count};

use crate::declaration::declarators_nodes;
use crate::expression::{expr_nodes, option_nodes};
use k_num::Seq;
use k_tree::{First, Part, Stmt};

/// A statement and what is in it.
#[cycle(statements)]
pub fn stmt_nodes(stmt: &Stmt) -> u64
    requires { stmt_count stmt.now < 2 ^ 64 }
    ensures { result ≡ stmt_count stmt.now }
{
    match stmt {
        Stmt::Empty { .. } | Stmt::Break { .. } | Stmt::Continue { .. } => 1,
        Stmt::Expr { value, .. } => 1 + expr_nodes(value.get()),
        Stmt::Block { parts, .. } => 1 + stmts_nodes(parts),
        Stmt::If {
            test,
            then,
            other,
            ..
        } => {
            let chosen = 1 + expr_nodes(test.get()) + stmt_nodes(then.get());
            match other {
                None => chosen,
                Some(other) => chosen + stmt_nodes(other.get()),
            }
        }
        Stmt::While { test, body, .. } | Stmt::DoWhile { body, test, .. } => {
            1 + expr_nodes(test.get()) + stmt_nodes(body.get())
        }
        Stmt::For {
            first,
            test,
            step,
            body,
            ..
        } => {
            let parts = first_nodes(first) + option_nodes(test) + option_nodes(step);
            1 + parts + stmt_nodes(body.get())
        }
        Stmt::Switch { on, parts, .. } => 1 + expr_nodes(on.get()) + parts_nodes(parts),
        Stmt::Return { value, .. } => 1 + option_nodes(value),
        Stmt::Declare { list, .. } => 1 + declarators_nodes(list),
    }
}

/// Statements in a row.
#[cycle(statements)]
pub fn stmts_nodes(parts: &Seq<Stmt>) -> u64
    requires { sum (map stmt_count parts.now) < 2 ^ 64 }
    ensures { result ≡ sum (map stmt_count parts.now) }
{
    let mut nodes = 0;
    for part in parts.as_slice() {
        nodes += stmt_nodes(part);
    }
    nodes
}

/// The parts of a `switch`.
#[cycle(statements)]
fn parts_nodes(parts: &Seq<Part>) -> u64
    requires { sum (map part_count parts.now) < 2 ^ 64 }
    ensures { result ≡ sum (map part_count parts.now) }
{
    let mut nodes = 0;
    for part in parts.as_slice() {
        nodes += part_nodes(part);
    }
    nodes
}

/// A part of a `switch` and what is in it.
#[cycle(statements)]
fn part_nodes(part: &Part) -> u64
    requires { part_count part.now < 2 ^ 64 }
    ensures { result ≡ part_count part.now }
{
    match part {
        Part::Case { value, .. } => 1 + expr_nodes(value.get()),
        Part::Default { .. } => 1,
        Part::Does { stmt, .. } => 1 + stmt_nodes(stmt.get()),
    }
}

/// The first part of a `for`.
fn first_nodes(first: &First) -> u64
    requires { first_count first.now < 2 ^ 64 }
    ensures { result ≡ first_count first.now }
{
    match first {
        First::Nothing => 0,
        First::Value(value) => expr_nodes(value),
        First::Declare(_, list) => declarators_nodes(list),
    }
}

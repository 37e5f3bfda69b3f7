//! The last nodes of texts.
ghost use Rattle.std.specs.Prelude.{◌≡◌, map, option_map};
ghost use Rattle.k_pragma_texts.specs.Declarations.{declared_last, first_last, init_last, item_last, last_behind, option_last};
ghost use Rattle.k_pragma_texts.specs.Occurrences.{last_in, last_of_all, told};
ghost use Rattle.k_pragma_texts.specs.Texts.{held, last_in_parts, last_in_row, last_there, part_held};

use k_num::{Box, Seq};
use k_types_meaning::{TDeclarator, TExpr, TFirst, TInit, TItem, TPart, TStmt};

/// The last node of an expression.
#[cycle(expressions)]
pub(crate) fn last_of(expr: &TExpr) -> u32
    ensures { result ≡ last_in expr.now }
{
    match expr {
        TExpr::Number { node, .. }
        | TExpr::Str { node, .. }
        | TExpr::Object { node, .. }
        | TExpr::Variable { node, .. }
        | TExpr::Getchar { node, .. } => node.number,
        TExpr::Call { node, args, .. } | TExpr::Printf { node, args, .. } => {
            last_of_args(node.number, args)
        }
        TExpr::Putchar { of, .. }
        | TExpr::Puts { of, .. }
        | TExpr::Post { of, .. }
        | TExpr::Pre { of, .. }
        | TExpr::Address { of, .. }
        | TExpr::Deref { of, .. }
        | TExpr::Plus { of, .. }
        | TExpr::Unary { of, .. }
        | TExpr::Convert { of, .. }
        | TExpr::Cast { of, .. } => last_of(of.get()),
        TExpr::Index { index: right, .. }
        | TExpr::Binary { right, .. }
        | TExpr::Both { right, .. }
        | TExpr::Either { right, .. }
        | TExpr::Forward { right, .. }
        | TExpr::Onto { right, .. }
        | TExpr::Back { right, .. }
        | TExpr::PtrCompare { right, .. }
        | TExpr::PtrDistance { right, .. }
        | TExpr::Cond { other: right, .. }
        | TExpr::Assign { right, .. }
        | TExpr::AssignBy { right, .. }
        | TExpr::Comma { right, .. } => last_of(right.get()),
    }
}

/// The last node of arguments, behind this one.
#[cycle(expressions)]
fn last_of_args(before: u32, args: &Seq<TExpr>) -> u32
    ensures { result ≡ last_of_all before (map told args.now) }
{
    let mut last = before;
    for arg in args.as_slice() {
        last = last_of(arg);
    }
    last
}

/// The last node of an expression; where it is left out, the one before it.
pub(crate) fn last_of_option(before: u32, expr: &Option<Box<TExpr>>) -> u32
    ensures { result ≡ option_last before expr.now }
{
    match expr {
        None => before,
        Some(expr) => last_of(expr.get()),
    }
}

/// The last node of an item of braces; where it has none, the one before it.
fn last_of_item(before: u32, item: &TItem) -> u32
    ensures { result ≡ item_last item.now before }
{
    match item {
        TItem::Bytes { .. } => before,
        TItem::Value { value, .. } => last_of(value),
    }
}

/// The last node of the items of braces, behind this one.
fn last_of_items(before: u32, items: &Seq<TItem>) -> u32
    ensures { result ≡ last_behind before (map item_last items.now) }
{
    let mut last = before;
    for item in items.as_slice() {
        last = last_of_item(last, item);
    }
    last
}

/// The last node of an initialiser; where it has none, the one before it.
fn last_of_init(before: u32, init: &TInit) -> u32
    ensures { result ≡ init_last init.now before }
{
    match init {
        TInit::Nothing => before,
        TInit::Value(value) => last_of(value),
        TInit::Elements(items) => last_of_items(before, items),
    }
}

/// The last node of declared variables, behind this one.
fn last_of_declared(before: u32, list: &Seq<TDeclarator>) -> u32
    ensures { result ≡ declared_last before list.now }
{
    let mut last = before;
    for declarator in list.as_slice() {
        last = last_of_init(last, &declarator.init);
    }
    last
}

/// The last node of the first part of a `for`; where it has none, the one before it.
pub(crate) fn last_of_first(before: u32, first: &TFirst) -> u32
    ensures { result ≡ first_last before first.now }
{
    match first {
        TFirst::Nothing => before,
        TFirst::Value(value) => last_of(value),
        TFirst::Declare(list) => last_of_declared(before, list),
    }
}

/// The last node of a statement.
#[cycle(statements)]
pub(crate) fn last_of_stmt(stmt: &TStmt) -> u32
    ensures { result ≡ (held stmt.now).last }
{
    match stmt {
        TStmt::Empty { spot } | TStmt::Break { spot } | TStmt::Continue { spot } => spot.number,
        TStmt::Expr { value, .. } => last_of(value.get()),
        TStmt::Block { spot, parts } => last_of_stmts(spot.number, parts),
        TStmt::If { then, other, .. } => last_of_else(last_of_stmt(then.get()), other),
        TStmt::While { body, .. } | TStmt::For { body, .. } => last_of_stmt(body.get()),
        TStmt::DoWhile { test, .. } => last_of(test.get()),
        TStmt::Switch { on, parts, .. } => last_of_parts(last_of(on.get()), parts),
        TStmt::Return { spot, value } => last_of_option(spot.number, value),
        TStmt::Declare { spot, list } => last_of_declared(spot.number, list),
    }
}

/// The last node of a statement; where it is left out, the one before it.
#[cycle(statements)]
fn last_of_else(before: u32, stmt: &Option<Box<TStmt>>) -> u32
    ensures { result ≡ last_there before (option_map held stmt.now) }
{
    match stmt {
        None => before,
        Some(stmt) => last_of_stmt(stmt.get()),
    }
}

/// The last node of statements, behind this one.
#[cycle(statements)]
pub(crate) fn last_of_stmts(before: u32, stmts: &Seq<TStmt>) -> u32
    ensures { result ≡ last_in_row before (map held stmts.now) }
{
    let mut last = before;
    for stmt in stmts.as_slice() {
        last = last_of_stmt(stmt);
    }
    last
}

/// The last node of the statements among the parts of a switch, behind this one.
#[cycle(statements)]
fn last_of_parts(before: u32, parts: &Seq<TPart>) -> u32
    ensures { result ≡ last_in_parts before (map part_held parts.now) }
{
    let mut last = before;
    for part in parts.as_slice() {
        last = last_of_part(last, part);
    }
    last
}

/// The last node of a part of a switch; where it has none, the one before it.
#[cycle(statements)]
fn last_of_part(before: u32, part: &TPart) -> u32
    ensures { result ≡ last_there before (part_held part.now) }
{
    match part {
        TPart::Case { .. } | TPart::Default { .. } => before,
        TPart::Does { stmt, .. } => last_of_stmt(stmt.get()),
    }
}

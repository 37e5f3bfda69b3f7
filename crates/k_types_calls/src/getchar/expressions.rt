//! Calls in expressions and in what variables begin with.
ghost use Rattle.std.specs.Prelude.{◌≡◌, map};
ghost use Rattle.k_types_calls.specs.Getchar.{any, calls, calls_if_there, declared_calls, declarator_calls, first_calls, init_calls, item_calls};

use k_num::{Box, Seq};
use k_types_meaning::{TDeclarator, TExpr, TFirst, TInit, TItem};

/// Whether an expression holds a call.
#[cycle(expressions)]
pub(crate) fn expr_calls(expr: &TExpr) -> bool
    ensures { result ≡ calls expr.now }
{
    match expr {
        TExpr::Getchar { .. } => true,
        TExpr::Number { .. } | TExpr::Str { .. } | TExpr::Object { .. } | TExpr::Variable { .. } =>
            false,
        TExpr::Call { args, .. } | TExpr::Printf { args, .. } => args_call(args),
        TExpr::Putchar { of, .. }
        | TExpr::Puts { of, .. }
        | TExpr::Post { of, .. }
        | TExpr::Pre { of, .. }
        | TExpr::Address { of, .. }
        | TExpr::Deref { of, .. }
        | TExpr::Plus { of, .. }
        | TExpr::Unary { of, .. }
        | TExpr::Convert { of, .. }
        | TExpr::Cast { of, .. } => expr_calls(of.get()),
        TExpr::Cond {
            test,
            then,
            other,
            ..
        } => expr_calls(test.get()) || expr_calls(then.get()) || expr_calls(other.get()),
        TExpr::Index {
            base: left,
            index: right,
            ..
        }
        | TExpr::Binary { left, right, .. }
        | TExpr::Both { left, right, .. }
        | TExpr::Either { left, right, .. }
        | TExpr::Forward { left, right, .. }
        | TExpr::Onto { left, right, .. }
        | TExpr::Back { left, right, .. }
        | TExpr::PtrCompare { left, right, .. }
        | TExpr::PtrDistance { left, right, .. }
        | TExpr::Assign { left, right, .. }
        | TExpr::AssignBy { left, right, .. }
        | TExpr::Comma { left, right, .. } => expr_calls(left.get()) || expr_calls(right.get()),
    }
}

/// Whether an argument holds a call.
#[cycle(expressions)]
fn args_call(args: &Seq<TExpr>) -> bool
    ensures { result ≡ any (map calls args.now) }
{
    for arg in args.as_slice() {
        if expr_calls(arg) {
            return true;
        }
    }
    false
}

/// Whether an expression that may be left out holds a call.
pub(crate) fn option_calls(expr: &Option<Box<TExpr>>) -> bool
    ensures { result ≡ calls_if_there expr.now }
{
    match expr {
        None => false,
        Some(expr) => expr_calls(expr.get()),
    }
}

/// Whether an item of braces holds a call.
fn item_calls(item: &TItem) -> bool
    ensures { result ≡ item_calls item.now }
{
    match item {
        TItem::Bytes { .. } => false,
        TItem::Value { value, .. } => expr_calls(value),
    }
}

/// Whether one of the items of braces holds a call.
fn items_call(items: &Seq<TItem>) -> bool
    ensures { result ≡ any (map item_calls items.now) }
{
    for item in items.as_slice() {
        if item_calls(item) {
            return true;
        }
    }
    false
}

/// Whether an initialiser holds a call.
fn init_calls(init: &TInit) -> bool
    ensures { result ≡ init_calls init.now }
{
    match init {
        TInit::Nothing => false,
        TInit::Value(value) => expr_calls(value),
        TInit::Elements(items) => items_call(items),
    }
}

/// Whether one of the declared variables begins with a call.
pub(crate) fn declared_call(list: &Seq<TDeclarator>) -> bool
    ensures { result ≡ declared_calls list.now }
{
    for declarator in list.as_slice() {
        if init_calls(&declarator.init) {
            return true;
        }
    }
    false
}

/// Whether the first part of a `for` holds a call.
pub(crate) fn first_calls(first: &TFirst) -> bool
    ensures { result ≡ first_calls first.now }
{
    match first {
        TFirst::Nothing => false,
        TFirst::Value(value) => expr_calls(value),
        TFirst::Declare(list) => declared_call(list),
    }
}

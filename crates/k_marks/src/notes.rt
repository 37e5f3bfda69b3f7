//! What expressions and statements do with variables, noted in text order.
ghost use Rattle.std.specs.Prelude.{◌≡◌, ◌++◌, map, OnOk};
ghost use Rattle.k_marks_meaning.specs.Uses.{Used, used, assigns, target, uses_of, option_uses, all_uses, in_order, item_uses, init_uses, declarator_uses, declared_uses, first_uses};

use k_marks_meaning::Use;
use k_num::{Box, NoMemory, Seq};
use k_types_meaning::{TDeclarator, TExpr, TFirst, TInit, TItem};

/// Notes the variable that an assigned operand is, if it is one.
fn note_target(expr: &TExpr, uses: &mut Vec<Use>) -> Result<(), NoMemory>
    ensures { OnOk result (uses.new.items ≡ uses.old.items ++ assigns (used expr.now).itself) }
{
    match expr {
        TExpr::Variable { variable, .. } => Ok(uses.push(Use::Assigns(*variable))?),
        _ => Ok(()),
    }
}

/// Notes what an expression does.
#[cycle(expressions)]
pub(crate) fn note_expr(expr: &TExpr, uses: &mut Vec<Use>) -> Result<(), NoMemory>
    ensures { OnOk result (uses.new.items ≡ uses.old.items ++ uses_of expr.now) }
{
    match expr {
        TExpr::Variable { variable, .. } => Ok(uses.push(Use::Names(*variable))?),
        TExpr::Number { .. } | TExpr::Str { .. } | TExpr::Object { .. } | TExpr::Getchar { .. } => {
            Ok(())
        }
        TExpr::Call { args, .. } | TExpr::Printf { args, .. } => note_args(args, uses),
        TExpr::Putchar { of, .. }
        | TExpr::Puts { of, .. }
        | TExpr::Address { of, .. }
        | TExpr::Deref { of, .. }
        | TExpr::Plus { of, .. }
        | TExpr::Unary { of, .. }
        | TExpr::Convert { of, .. }
        | TExpr::Cast { of, .. } => note_expr(of.get(), uses),
        TExpr::Post { of, .. } | TExpr::Pre { of, .. } => note_changed(of.get(), uses),
        TExpr::Assign { left, right, .. } | TExpr::AssignBy { left, right, .. } => {
            note_changed(left.get(), uses)?;
            note_expr(right.get(), uses)
        }
        TExpr::Cond {
            test,
            then,
            other,
            ..
        } => note_choice(test.get(), then.get(), other.get(), uses),
        TExpr::Index {
            base: left,
            index: right,
            ..
        }
        | TExpr::Binary { left, right, .. }
        | TExpr::Both { left, right, .. }
        | TExpr::Either { left, right, .. }
        | TExpr::Forward { left, right, .. }
        | TExpr::Onto { left, right, .. }
        | TExpr::Back { left, right, .. }
        | TExpr::PtrCompare { left, right, .. }
        | TExpr::PtrDistance { left, right, .. }
        | TExpr::Comma { left, right, .. } => note_both(left.get(), right.get(), uses),
    }
}

/// Notes what an operand does that is assigned.
#[cycle(expressions)]
fn note_changed(of: &TExpr, uses: &mut Vec<Use>) -> Result<(), NoMemory>
    ensures { OnOk result (uses.new.items ≡ uses.old.items ++ target (used of.now)) }
{
    note_target(of, uses)?;
    note_expr(of, uses)
}

/// Notes what two operands do.
#[cycle(expressions)]
fn note_both(left: &TExpr, right: &TExpr, uses: &mut Vec<Use>) -> Result<(), NoMemory>
    ensures { OnOk result (uses.new.items ≡ uses.old.items ++ (uses_of left.now ++ uses_of right.now)) }
{
    note_expr(left, uses)?;
    note_expr(right, uses)
}

/// Notes what a test and its two arms do.
#[cycle(expressions)]
fn note_choice(
    test: &TExpr,
    first: &TExpr,
    second: &TExpr,
    uses: &mut Vec<Use>,
) -> Result<(), NoMemory>
    ensures { OnOk result (uses.new.items ≡ uses.old.items ++ (uses_of test.now ++ (uses_of first.now ++ uses_of second.now))) }
{
    note_expr(test, uses)?;
    note_expr(first, uses)?;
    note_expr(second, uses)
}

/// Notes what arguments do.
#[cycle(expressions)]
fn note_args(args: &Seq<TExpr>, uses: &mut Vec<Use>) -> Result<(), NoMemory>
    ensures { OnOk result (uses.new.items ≡ uses.old.items ++ in_order (map used args.now)) }
{
    for arg in args.as_slice() {
        note_expr(arg, uses)?;
    }
    Ok(())
}

/// Notes what an expression does that may be left out.
pub(crate) fn note_option(expr: &Option<Box<TExpr>>, uses: &mut Vec<Use>) -> Result<(), NoMemory>
    ensures { OnOk result (uses.new.items ≡ uses.old.items ++ option_uses expr.now) }
{
    match expr {
        None => Ok(()),
        Some(expr) => note_expr(expr.get(), uses),
    }
}

/// Notes what an item of braces does.
fn note_item(item: &TItem, uses: &mut Vec<Use>) -> Result<(), NoMemory>
    ensures { OnOk result (uses.new.items ≡ uses.old.items ++ item_uses item.now) }
{
    match item {
        TItem::Bytes { .. } => Ok(()),
        TItem::Value { value, .. } => note_expr(value, uses),
    }
}

/// Notes what the items of braces do.
fn note_items(items: &Seq<TItem>, uses: &mut Vec<Use>) -> Result<(), NoMemory>
    ensures { OnOk result (uses.new.items ≡ uses.old.items ++ all_uses (map item_uses items.now)) }
{
    for item in items.as_slice() {
        note_item(item, uses)?;
    }
    Ok(())
}

/// Notes what an initialiser does.
fn note_init(init: &TInit, uses: &mut Vec<Use>) -> Result<(), NoMemory>
    ensures { OnOk result (uses.new.items ≡ uses.old.items ++ init_uses init.now) }
{
    match init {
        TInit::Nothing => Ok(()),
        TInit::Value(value) => note_expr(value, uses),
        TInit::Elements(items) => note_items(items, uses),
    }
}

/// Notes what a declarator does.
fn note_declarator(declarator: &TDeclarator, uses: &mut Vec<Use>) -> Result<(), NoMemory>
    ensures { OnOk result (uses.new.items ≡ uses.old.items ++ declarator_uses declarator.now) }
{
    uses.push(Use::Declares(declarator.variable))?;
    note_init(&declarator.init, uses)
}

/// Notes what declarators do.
pub(crate) fn note_declared(list: &Seq<TDeclarator>, uses: &mut Vec<Use>) -> Result<(), NoMemory>
    ensures { OnOk result (uses.new.items ≡ uses.old.items ++ declared_uses list.now) }
{
    for declarator in list.as_slice() {
        note_declarator(declarator, uses)?;
    }
    Ok(())
}

/// Notes what the first part of a `for` does.
fn note_first(first: &TFirst, uses: &mut Vec<Use>) -> Result<(), NoMemory>
    ensures { OnOk result (uses.new.items ≡ uses.old.items ++ first_uses first.now) }
{
    match first {
        TFirst::Nothing => Ok(()),
        TFirst::Value(value) => note_expr(value, uses),
        TFirst::Declare(list) => note_declared(list, uses),
    }
}

/// Notes what the three parts of a `for` do.
pub(crate) fn note_head(
    first: &TFirst,
    test: &Option<Box<TExpr>>,
    step: &Option<Box<TExpr>>,
    uses: &mut Vec<Use>,
) -> Result<(), NoMemory>
    ensures { OnOk result (uses.new.items ≡ uses.old.items ++ (first_uses first.now ++ (option_uses test.now ++ option_uses step.now))) }
{
    note_first(first, uses)?;
    note_option(test, uses)?;
    note_option(step, uses)
}

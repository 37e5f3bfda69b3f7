//! What expressions do with scalars and functions, noted in text order.
ghost use Rattle.std.specs.Prelude.{◌≡◌, ◌++◌, map, OnOk};
ghost use Rattle.k_wide_meaning.specs.Occurrences.{assigned, addressed, target, occurring, occurs_in, option_occurs, all_of, in_order, item_occurs, init_occurs, declarator_occurs, declared_occurs, first_occurs};

use k_num::{Box, NoMemory, Seq};
use k_types_meaning::{TDeclarator, TExpr, TFirst, TInit, TItem};
use k_wide_meaning::{Occurrence, Scalar};

/// Notes the variable that an assigned operand is, if it is one.
fn note_target(expr: &TExpr, found: &mut Vec<Occurrence>) -> Result<(), NoMemory>
    ensures { OnOk result (found.new.items ≡ found.old.items ++ assigned (occurring expr.now).itself) }
{
    match expr {
        TExpr::Variable { variable, .. } => Ok(found.push(Occurrence::Assigns(Scalar::Variable(
            *variable,
        )))?),
        TExpr::Object { object, .. } => Ok(found.push(Occurrence::Assigns(Scalar::Object(
            *object,
        )))?),
        _ => Ok(()),
    }
}

/// Notes what an expression does.
#[cycle(expressions)]
pub fn note_expr(expr: &TExpr, found: &mut Vec<Occurrence>) -> Result<(), NoMemory>
    ensures { OnOk result (found.new.items ≡ found.old.items ++ occurs_in expr.now) }
{
    match expr {
        TExpr::Variable { variable, .. } => Ok(found.push(Occurrence::Names(Scalar::Variable(
            *variable,
        )))?),
        TExpr::Object { object, .. } => Ok(found.push(Occurrence::Names(Scalar::Object(*object)))?),
        TExpr::Number { .. } | TExpr::Str { .. } | TExpr::Getchar { .. } => Ok(()),
        TExpr::Call { function, args, .. } => {
            found.push(Occurrence::Calls(*function))?;
            note_args(args, found)
        }
        TExpr::Printf { args, .. } => note_args(args, found),
        TExpr::Address { of, .. } => note_addressed(of.get(), found),
        TExpr::Putchar { of, .. }
        | TExpr::Puts { of, .. }
        | TExpr::Deref { of, .. }
        | TExpr::Plus { of, .. }
        | TExpr::Unary { of, .. }
        | TExpr::Convert { of, .. }
        | TExpr::Cast { of, .. } => note_expr(of.get(), found),
        TExpr::Post { of, .. } | TExpr::Pre { of, .. } => note_changed(of.get(), found),
        TExpr::Assign { left, right, .. } | TExpr::AssignBy { left, right, .. } => {
            note_changed(left.get(), found)?;
            note_expr(right.get(), found)
        }
        TExpr::Cond {
            test,
            then,
            other,
            ..
        } => note_choice(test.get(), then.get(), other.get(), found),
        TExpr::Index {
            base: left,
            index: right,
            ..
        }
        | TExpr::Binary { left, right, .. }
        | TExpr::Both { left, right, .. }
        | TExpr::Either { left, right, .. }
        | TExpr::Forward { left, right, .. }
        | TExpr::Onto { left, right, .. }
        | TExpr::Back { left, right, .. }
        | TExpr::PtrCompare { left, right, .. }
        | TExpr::PtrDistance { left, right, .. }
        | TExpr::Comma { left, right, .. } => note_both(left.get(), right.get(), found),
    }
}

/// Notes what an operand does that is assigned.
#[cycle(expressions)]
fn note_changed(of: &TExpr, found: &mut Vec<Occurrence>) -> Result<(), NoMemory>
    ensures { OnOk result (found.new.items ≡ found.old.items ++ target (occurring of.now)) }
{
    note_target(of, found)?;
    note_expr(of, found)
}

/// Notes the file object that an operand of `&` is, if it is one.
fn note_address(expr: &TExpr, found: &mut Vec<Occurrence>) -> Result<(), NoMemory>
    ensures { OnOk result (found.new.items ≡ found.old.items ++ addressed (occurring expr.now).itself) }
{
    match expr {
        TExpr::Object { object, .. } => Ok(found.push(Occurrence::Addresses(*object))?),
        _ => Ok(()),
    }
}

/// Notes what an operand of `&` does.
#[cycle(expressions)]
fn note_addressed(of: &TExpr, found: &mut Vec<Occurrence>) -> Result<(), NoMemory>
    ensures { OnOk result (found.new.items ≡ found.old.items ++ (addressed (occurring of.now).itself ++ occurs_in of.now)) }
{
    note_address(of, found)?;
    note_expr(of, found)
}

/// Notes what two operands do.
#[cycle(expressions)]
fn note_both(left: &TExpr, right: &TExpr, found: &mut Vec<Occurrence>) -> Result<(), NoMemory>
    ensures { OnOk result (found.new.items ≡ found.old.items ++ (occurs_in left.now ++ occurs_in right.now)) }
{
    note_expr(left, found)?;
    note_expr(right, found)
}

/// Notes what a test and its two arms do.
#[cycle(expressions)]
fn note_choice(
    test: &TExpr,
    first: &TExpr,
    second: &TExpr,
    found: &mut Vec<Occurrence>,
) -> Result<(), NoMemory>
    ensures { OnOk result (found.new.items ≡ found.old.items ++ (occurs_in test.now ++ (occurs_in first.now ++ occurs_in second.now))) }
{
    note_expr(test, found)?;
    note_expr(first, found)?;
    note_expr(second, found)
}

/// Notes what arguments do.
#[cycle(expressions)]
fn note_args(args: &Seq<TExpr>, found: &mut Vec<Occurrence>) -> Result<(), NoMemory>
    ensures { OnOk result (found.new.items ≡ found.old.items ++ in_order (map occurring args.now)) }
{
    for arg in args.as_slice() {
        note_expr(arg, found)?;
    }
    Ok(())
}

/// Notes what an expression does that may be left out.
pub fn note_option(expr: &Option<Box<TExpr>>, found: &mut Vec<Occurrence>) -> Result<(), NoMemory>
    ensures { OnOk result (found.new.items ≡ found.old.items ++ option_occurs expr.now) }
{
    match expr {
        None => Ok(()),
        Some(expr) => note_expr(expr.get(), found),
    }
}

/// Notes what an item of braces does.
fn note_item(item: &TItem, found: &mut Vec<Occurrence>) -> Result<(), NoMemory>
    ensures { OnOk result (found.new.items ≡ found.old.items ++ item_occurs item.now) }
{
    match item {
        TItem::Bytes { .. } => Ok(()),
        TItem::Value { value, .. } => note_expr(value, found),
    }
}

/// Notes what the items of braces do.
fn note_items(items: &Seq<TItem>, found: &mut Vec<Occurrence>) -> Result<(), NoMemory>
    ensures { OnOk result (found.new.items ≡ found.old.items ++ all_of (map item_occurs items.now)) }
{
    for item in items.as_slice() {
        note_item(item, found)?;
    }
    Ok(())
}

/// Notes what an initialiser does.
fn note_init(init: &TInit, found: &mut Vec<Occurrence>) -> Result<(), NoMemory>
    ensures { OnOk result (found.new.items ≡ found.old.items ++ init_occurs init.now) }
{
    match init {
        TInit::Nothing => Ok(()),
        TInit::Value(value) => note_expr(value, found),
        TInit::Elements(items) => note_items(items, found),
    }
}

/// Notes what a declarator does.
fn note_declarator(declarator: &TDeclarator, found: &mut Vec<Occurrence>) -> Result<(), NoMemory>
    ensures { OnOk result (found.new.items ≡ found.old.items ++ declarator_occurs declarator.now) }
{
    found.push(Occurrence::Declares(declarator.variable))?;
    note_init(&declarator.init, found)
}

/// Notes what declarators do.
pub fn note_declared(list: &Seq<TDeclarator>, found: &mut Vec<Occurrence>) -> Result<(), NoMemory>
    ensures { OnOk result (found.new.items ≡ found.old.items ++ declared_occurs list.now) }
{
    for declarator in list.as_slice() {
        note_declarator(declarator, found)?;
    }
    Ok(())
}

/// Notes what the first part of a `for` does.
fn note_first(first: &TFirst, found: &mut Vec<Occurrence>) -> Result<(), NoMemory>
    ensures { OnOk result (found.new.items ≡ found.old.items ++ first_occurs first.now) }
{
    match first {
        TFirst::Nothing => Ok(()),
        TFirst::Value(value) => note_expr(value, found),
        TFirst::Declare(list) => note_declared(list, found),
    }
}

/// Notes what the three parts of a `for` do.
pub fn note_head(
    first: &TFirst,
    test: &Option<Box<TExpr>>,
    step: &Option<Box<TExpr>>,
    found: &mut Vec<Occurrence>,
) -> Result<(), NoMemory>
    ensures { OnOk result (found.new.items ≡ found.old.items ++ (first_occurs first.now ++ (option_occurs test.now ++ option_occurs step.now))) }
{
    note_first(first, found)?;
    note_option(test, found)?;
    note_option(step, found)
}

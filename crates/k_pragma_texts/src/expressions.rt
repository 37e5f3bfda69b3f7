//! Where variables occur in expressions, noted in text order.
ghost use Rattle.std.specs.Prelude.{◌≡◌, ◌++◌, ◌∷◌, [], map, OnOk, IfOk};
ghost use Rattle.k_pragma_texts.specs.Occurrences.{occurrence, told, occurs_in, occurs_in_all, occurs_left};
ghost use Rattle.k_pragma_texts.specs.declared.occurrence.How.TheVariants.{Reads};

use crate::occurrence::{How, Occurrence};
use k_num::{NoMemory, Seq};
use k_types_meaning::TExpr;
use std::alloc::Global;

/// Notes a variable that is read.
fn note_read(variable: u32, node: u32, occurs: &mut Vec<Occurrence>) -> Result<(), NoMemory>
    ensures { OnOk result (occurs.new.items ≡ occurs.old.items ++ occurrence Reads (record { variable = variable; node = node }) ∷ []) }
{
    Ok(occurs.push(Occurrence {
        variable,
        node,
        how: How::Reads,
    })?)
}

/// Notes the left of an assignment.
#[cycle(expressions)]
fn note_left(expr: &TExpr, how: How, occurs: &mut Vec<Occurrence>) -> Result<(), NoMemory>
    ensures { OnOk result (occurs.new.items ≡ occurs.old.items ++ occurs_left how (told expr.now).itself (occurs_in expr.now)) }
{
    match expr {
        TExpr::Variable { node, variable } => Ok(occurs.push(Occurrence {
            variable: *variable,
            node: node.number,
            how,
        })?),
        _ => note_expr(expr, occurs),
    }
}

/// Notes where variables occur in an expression.
#[cycle(expressions)]
pub(crate) fn note_expr(expr: &TExpr, occurs: &mut Vec<Occurrence>) -> Result<(), NoMemory>
    ensures { OnOk result (occurs.new.items ≡ occurs.old.items ++ occurs_in expr.now) }
{
    match expr {
        TExpr::Variable { node, variable } => note_read(*variable, node.number, occurs),
        TExpr::Number { .. } | TExpr::Str { .. } | TExpr::Object { .. } | TExpr::Getchar { .. } => {
            Ok(())
        }
        TExpr::Call { args, .. } | TExpr::Printf { args, .. } => note_args(args, occurs),
        TExpr::Putchar { of, .. }
        | TExpr::Puts { of, .. }
        | TExpr::Address { of, .. }
        | TExpr::Deref { of, .. }
        | TExpr::Plus { of, .. }
        | TExpr::Unary { of, .. }
        | TExpr::Convert { of, .. }
        | TExpr::Cast { of, .. } => note_expr(of.get(), occurs),
        TExpr::Post { of, .. } | TExpr::Pre { of, .. } => {
            note_left(of.get(), How::Changes, occurs)
        }
        TExpr::Assign { left, right, .. } => {
            note_assigned(left.get(), How::Sets, right.get(), occurs)
        }
        TExpr::AssignBy { left, right, .. } => {
            note_assigned(left.get(), How::Changes, right.get(), occurs)
        }
        TExpr::Cond {
            test,
            then,
            other,
            ..
        } => note_choice(test.get(), then.get(), other.get(), occurs),
        TExpr::Index { base, index, .. } => note_both(base.get(), index.get(), occurs),
        TExpr::Binary { left, right, .. }
        | TExpr::Both { left, right, .. }
        | TExpr::Either { left, right, .. }
        | TExpr::Forward { left, right, .. }
        | TExpr::Onto { left, right, .. }
        | TExpr::Back { left, right, .. }
        | TExpr::PtrCompare { left, right, .. }
        | TExpr::PtrDistance { left, right, .. }
        | TExpr::Comma { left, right, .. } => note_both(left.get(), right.get(), occurs),
    }
}

/// Notes the left of an assignment and its right.
#[cycle(expressions)]
fn note_assigned(
    left: &TExpr,
    how: How,
    right: &TExpr,
    occurs: &mut Vec<Occurrence>,
) -> Result<(), NoMemory>
    ensures { OnOk result (occurs.new.items ≡ occurs.old.items ++ (occurs_left how (told left.now).itself (occurs_in left.now) ++ occurs_in right.now)) }
{
    note_left(left, how, occurs)?;
    note_expr(right, occurs)
}

/// Notes where variables occur in two operands.
#[cycle(expressions)]
fn note_both(left: &TExpr, right: &TExpr, occurs: &mut Vec<Occurrence>) -> Result<(), NoMemory>
    ensures { OnOk result (occurs.new.items ≡ occurs.old.items ++ (occurs_in left.now ++ occurs_in right.now)) }
{
    note_expr(left, occurs)?;
    note_expr(right, occurs)
}

/// Notes where variables occur in a test and its two arms.
#[cycle(expressions)]
fn note_choice(
    test: &TExpr,
    first: &TExpr,
    second: &TExpr,
    occurs: &mut Vec<Occurrence>,
) -> Result<(), NoMemory>
    ensures { OnOk result (occurs.new.items ≡ occurs.old.items ++ (occurs_in test.now ++ (occurs_in first.now ++ occurs_in second.now))) }
{
    note_expr(test, occurs)?;
    note_both(first, second, occurs)
}

/// Notes where variables occur in arguments.
#[cycle(expressions)]
fn note_args(args: &Seq<TExpr>, occurs: &mut Vec<Occurrence>) -> Result<(), NoMemory>
    ensures { OnOk result (occurs.new.items ≡ occurs.old.items ++ occurs_in_all (map told args.now)) }
{
    for arg in args.as_slice() {
        note_expr(arg, occurs)?;
    }
    Ok(())
}

/// Where variables occur in an expression.
pub(crate) fn occurrences_of(alloc: Global, expr: &TExpr) -> Result<Vec<Occurrence>, NoMemory>
    ensures { IfOk result (λ occurs. occurs.items ≡ occurs_in expr.now) }
{
    let mut occurs = Vec::new(alloc);
    note_expr(expr, &mut occurs)?;
    Ok(occurs)
}

//! Numbering of expressions (C17 6.5).
ghost use Rattle.std.specs.Prelude.{◌≡◌, true, OnOk};
ghost use Rattle.k_types_numbers.specs.Forms.{has_operands, has_several, is_on_pointers, is_operation};
ghost use Rattle.k_types_numbers.specs.Renumbering.{NumbersExpr, NumbersExprs, NumbersOne, NumbersOperands, NumbersOption, NumbersPair, NumbersThree, NumbersTwo};

use crate::counts::Counts;
use k_num::{Box, NoMemory};
use k_types_meaning::{Node, TExpr};
use std::alloc::Global;

/// Numbers expressions in their order.
#[cycle(expressions)]
fn number_exprs(exprs: &mut [TExpr], alloc: Global, counts: &mut Counts) -> Result<(), NoMemory>
    ensures { OnOk result (NumbersExprs exprs.old exprs.new counts.old counts.new) }
{
    for expr in exprs.iter_mut() {
        number_expr(expr, alloc, counts)?;
    }
    Ok(())
}

/// Numbers an expression in a box.
#[cycle(expressions)]
pub fn number_boxed(
    expr: &mut Box<TExpr>,
    alloc: Global,
    counts: &mut Counts,
) -> Result<(), NoMemory>
    ensures { OnOk result (NumbersExpr expr.old expr.new counts.old counts.new) }
{
    number_expr(expr.get_mut(), alloc, counts)
}

/// Numbers two expressions in boxes, the first one first.
#[cycle(expressions)]
fn number_pair(
    left: &mut Box<TExpr>,
    right: &mut Box<TExpr>,
    alloc: Global,
    counts: &mut Counts,
) -> Result<(), NoMemory>
    ensures { OnOk result (NumbersPair left.old right.old left.new right.new counts.old counts.new) }
{
    number_boxed(left, alloc, counts)?;
    number_boxed(right, alloc, counts)?;
    Ok(())
}

/// Numbers an expression: its own number comes first, then those of its operands.
#[cycle(expressions)]
pub fn number_expr(expr: &mut TExpr, alloc: Global, counts: &mut Counts) -> Result<(), NoMemory>
    ensures { OnOk result (NumbersExpr expr.old expr.new counts.old counts.new) }
{
    let number = counts.node()?;
    number_operands(expr, number, alloc, counts)
}

/// Gives an expression this number, and numbers its operands.
#[cycle(expressions)]
fn number_operands(
    expr: &mut TExpr,
    number: u32,
    alloc: Global,
    counts: &mut Counts,
) -> Result<(), NoMemory>
    ensures { OnOk result (NumbersOperands number expr.old expr.new counts.old counts.new) }
{
    match expr {
        TExpr::Number { node, .. } => {
            node.number = number;
            Ok(())
        }
        TExpr::Object {
            node,
            object: _object,
        } => {
            node.number = number;
            Ok(())
        }
        TExpr::Variable {
            node,
            variable: _variable,
        } => {
            node.number = number;
            Ok(())
        }
        TExpr::Getchar { node } => {
            node.number = number;
            Ok(())
        }
        TExpr::Str {
            node,
            string,
            bytes,
        } => {
            node.number = number;
            *string = counts.string(alloc, node.place, bytes)?;
            Ok(())
        }
        _ => number_call(expr, number, alloc, counts),
    }
}

/// The same for an expression with operands: calls stand here.
#[cycle(expressions)]
fn number_call(
    expr: &mut TExpr,
    number: u32,
    alloc: Global,
    counts: &mut Counts,
) -> Result<(), NoMemory>
    requires { has_operands expr.old ≡ true }
    ensures { OnOk result (NumbersOperands number expr.old expr.new counts.old counts.new) }
{
    match expr {
        TExpr::Call {
            node,
            function: _function,
            args,
        } => {
            node.number = number;
            number_exprs(args.as_mut_slice(), alloc, counts)
        }
        TExpr::Printf {
            node,
            format: _format,
            args,
        } => {
            node.number = number;
            number_exprs(args.as_mut_slice(), alloc, counts)
        }
        TExpr::Putchar { node, of } => give_one(node, of, number, alloc, counts),
        TExpr::Puts { node, of } => give_one(node, of, number, alloc, counts),
        _ => number_unary(expr, number, alloc, counts),
    }
}

/// The same for an operation that is no call: those on one operand stand here.
#[cycle(expressions)]
fn number_unary(
    expr: &mut TExpr,
    number: u32,
    alloc: Global,
    counts: &mut Counts,
) -> Result<(), NoMemory>
    requires { is_operation expr.old ≡ true }
    ensures { OnOk result (NumbersOperands number expr.old expr.new counts.old counts.new) }
{
    match expr {
        TExpr::Address { node, of } => give_one(node, of, number, alloc, counts),
        TExpr::Deref { node, of } => give_one(node, of, number, alloc, counts),
        TExpr::Plus { node, of } => give_one(node, of, number, alloc, counts),
        TExpr::Convert { node, of } => give_one(node, of, number, alloc, counts),
        TExpr::Cast { node, of } => give_one(node, of, number, alloc, counts),
        TExpr::Post {
            node,
            change: _change,
            of,
        } => give_one(node, of, number, alloc, counts),
        TExpr::Pre {
            node,
            change: _change,
            of,
        } => give_one(node, of, number, alloc, counts),
        TExpr::Unary {
            node,
            op: _op,
            kind: _kind,
            of,
        } => give_one(node, of, number, alloc, counts),
        _ => number_several(expr, number, alloc, counts),
    }
}

/// The same for an operation on several operands: all but those that compute with pointers stand here.
#[cycle(expressions)]
fn number_several(
    expr: &mut TExpr,
    number: u32,
    alloc: Global,
    counts: &mut Counts,
) -> Result<(), NoMemory>
    requires { has_several expr.old ≡ true }
    ensures { OnOk result (NumbersOperands number expr.old expr.new counts.old counts.new) }
{
    match expr {
        TExpr::Both { node, left, right } => give_two(node, left, right, number, alloc, counts),
        TExpr::Either { node, left, right } => give_two(node, left, right, number, alloc, counts),
        TExpr::Assign { node, left, right } => give_two(node, left, right, number, alloc, counts),
        TExpr::Comma { node, left, right } => give_two(node, left, right, number, alloc, counts),
        TExpr::Binary {
            node,
            op: _op,
            kind: _kind,
            left,
            right,
        } => give_two(node, left, right, number, alloc, counts),
        TExpr::AssignBy {
            node,
            change: _change,
            left,
            right,
        } => give_two(node, left, right, number, alloc, counts),
        TExpr::Cond {
            node,
            test,
            then,
            other,
        } => give_three(node, test, then, other, number, alloc, counts),
        _ => number_pointers(expr, number, alloc, counts),
    }
}

/// The same for an index and for other operations that compute with pointers.
#[cycle(expressions)]
fn number_pointers(
    expr: &mut TExpr,
    number: u32,
    alloc: Global,
    counts: &mut Counts,
) -> Result<(), NoMemory>
    requires { is_on_pointers expr.old ≡ true }
    ensures { OnOk result (NumbersOperands number expr.old expr.new counts.old counts.new) }
{
    match expr {
        TExpr::Index { node, base, index } => give_two(node, base, index, number, alloc, counts),
        TExpr::Forward { node, left, right } => give_two(node, left, right, number, alloc, counts),
        TExpr::Onto { node, left, right } => give_two(node, left, right, number, alloc, counts),
        TExpr::Back { node, left, right } => give_two(node, left, right, number, alloc, counts),
        TExpr::PtrDistance { node, left, right } => {
            give_two(node, left, right, number, alloc, counts)
        }
        TExpr::PtrCompare {
            node,
            op: _op,
            left,
            right,
        } => give_two(node, left, right, number, alloc, counts),
        _ => unreachable!(),
    }
}

/// Gives a node this number, and numbers its operand.
#[cycle(expressions)]
fn give_one(
    node: &mut Node,
    of: &mut Box<TExpr>,
    number: u32,
    alloc: Global,
    counts: &mut Counts,
) -> Result<(), NoMemory>
    ensures { OnOk result (NumbersOne number node.old node.new of.old of.new counts.old counts.new) }
{
    node.number = number;
    number_boxed(of, alloc, counts)
}

/// Gives a node this number, and numbers its two operands.
#[cycle(expressions)]
fn give_two(
    node: &mut Node,
    left: &mut Box<TExpr>,
    right: &mut Box<TExpr>,
    number: u32,
    alloc: Global,
    counts: &mut Counts,
) -> Result<(), NoMemory>
    ensures { OnOk result (NumbersTwo number node.old node.new left.old right.old left.new right.new counts.old counts.new) }
{
    node.number = number;
    number_pair(left, right, alloc, counts)
}

/// Gives a node this number, and numbers its three operands.
#[cycle(expressions)]
fn give_three(
    node: &mut Node,
    test: &mut Box<TExpr>,
    first: &mut Box<TExpr>,
    second: &mut Box<TExpr>,
    number: u32,
    alloc: Global,
    counts: &mut Counts,
) -> Result<(), NoMemory>
    ensures { OnOk result (NumbersThree number node.old node.new test.old first.old second.old test.new first.new second.new counts.old counts.new) }
{
    node.number = number;
    number_boxed(test, alloc, counts)?;
    number_pair(first, second, alloc, counts)
}

/// Numbers an expression where there is one.
pub fn number_option(
    expr: &mut Option<Box<TExpr>>,
    alloc: Global,
    counts: &mut Counts,
) -> Result<(), NoMemory>
    ensures { OnOk result (NumbersOption expr.old expr.new counts.old counts.new) }
{
    match expr {
        None => Ok(()),
        Some(expr) => {
            number_boxed(expr, alloc, counts)?;
            Ok(())
        }
    }
}

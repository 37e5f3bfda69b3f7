//! How many instructions the code of an expression has (C17 6.5).
ghost use Rattle.std.specs.Prelude.{◌≡◌, ◌+◌, IfOk, map};
ghost use Rattle.k_evaluation.specs.Places.{is_register as register_meant};
ghost use Rattle.k_lower_extents.specs.ExpressionSums.{arguments as arguments_meant, arm_size as arm_meant, assign as assign_meant, assign_by as assign_by_meant, cast as cast_meant, choice as choice_meant, comma as comma_meant, conversion_size as conversion_meant, element as element_meant, in_memory as in_memory_meant, load_size as load_meant, no_operand as no_operand_meant, no_place as no_place_meant, on_one as on_one_meant, on_two as on_two_meant, one_operand as one_operand_meant, one_size as one_size_meant, operands_in, post as post_meant, pre as pre_meant, summed, three_operands as three_operands_meant, total, two_operands as two_operands_meant, variable as variable_meant};
ghost use Rattle.k_lower_extents.specs.Sized.{HasExtent};

use crate::changes::{changing_size, kind_of};
use crate::sums::{sum, sum_of_three};
use k_num::{Box, NoMemory, Seq};
use k_types_meaning::{Change, TExpr, TType, TVariable};

/// How many instructions the code of an expression has, wherever its temporaries stand.
#[derive(Clone, Copy)]
pub struct ExpressionExtent {
    /// Those of its value, where it is used.
    pub used: u32,
    /// Those of its value, where it is not used.
    pub unused: u32,
    /// Those of the place that it designates.
    pub place: u32,
    /// Whether that place is a register.
    pub in_register: bool,
    /// The type of its value.
    pub of: TType,
}

/// An expression that is no place.
fn no_place(of: TType, used: u32, unused: u32) -> ExpressionExtent
    ensures { result ≡ no_place_meant of used unused }
{
    ExpressionExtent {
        used,
        unused,
        place: 0,
        in_register: false,
        of,
    }
}

/// One of which the value has one size, used or not.
fn one_size(of: TType, size: u32) -> ExpressionExtent
    ensures { result ≡ one_size_meant of size }
{
    no_place(of, size, size)
}

/// The size of a load of what stands in memory: only numbers are loaded.
fn load_size(of: TType) -> u32
    ensures { result ≡ load_meant of }
{
    match of {
        TType::Number(_) => 1,
        TType::Void | TType::Pointer(_) => 0,
    }
}

/// A place in memory, of which the code has this size.
fn in_memory(of: TType, place: u32) -> Result<ExpressionExtent, NoMemory>
    ensures { IfOk result (λ x. x ≡ in_memory_meant of place) }
{
    let used = sum(place, load_size(of))?;
    Ok(ExpressionExtent {
        used,
        unused: place,
        place,
        in_register: false,
        of,
    })
}

/// Whether the variable of a number is a register.
fn is_register(variables: &[TVariable], number: u32) -> bool
    ensures { result ≡ register_meant variables.now number }
{
    match variables.get(number as usize) {
        None => true,
        Some(variable) => variable.elements == 0,
    }
}

/// A variable, by whether it is a register.
fn variable(of: TType, register: bool) -> Result<ExpressionExtent, NoMemory>
    ensures { IfOk result (λ x. x ≡ variable_meant of register) }
{
    if register {
        return Ok(ExpressionExtent {
            used: 0,
            unused: 0,
            place: 0,
            in_register: true,
            of,
        });
    }
    in_memory(of, 0)
}

/// An element behind a pointer.
fn element(
    of: TType,
    base: ExpressionExtent,
    index: ExpressionExtent,
) -> Result<ExpressionExtent, NoMemory>
    ensures { IfOk result (λ x. x ≡ element_meant of base index) }
{
    let place = sum_of_three(base.used, index.used, 1)?;
    in_memory(of, place)
}

/// So many instructions behind an operand.
fn on_one(of: TType, e: ExpressionExtent, more: u32) -> Result<ExpressionExtent, NoMemory>
    ensures { IfOk result (λ x. x ≡ on_one_meant of e more) }
{
    let size = sum(e.used, more)?;
    Ok(one_size(of, size))
}

/// So many instructions behind arguments of this size.
fn behind_args(of: TType, args: u32, more: u32) -> Result<ExpressionExtent, NoMemory>
    ensures { IfOk result (λ x. x ≡ one_size_meant of (args + more)) }
{
    let size = sum(args, more)?;
    Ok(one_size(of, size))
}

/// So many instructions with two operands.
fn on_two(
    of: TType,
    left: ExpressionExtent,
    right: ExpressionExtent,
    more: u32,
) -> Result<ExpressionExtent, NoMemory>
    ensures { IfOk result (λ x. x ≡ on_two_meant of left right more) }
{
    let size = sum_of_three(left.used, right.used, more)?;
    Ok(one_size(of, size))
}

/// The size of a conversion to the kind of a type, where that is one of numbers.
fn conversion_size(of: TType) -> u32
    ensures { result ≡ conversion_meant of }
{
    match of {
        TType::Number(_) => 1,
        TType::Void | TType::Pointer(_) => 0,
    }
}

/// A cast: to void its operand is not used, to a kind it is converted, to a pointer it stays.
fn cast(of: TType, e: ExpressionExtent) -> Result<ExpressionExtent, NoMemory>
    ensures { IfOk result (λ x. x ≡ cast_meant of e) }
{
    match of {
        TType::Void => Ok(one_size(of, e.unused)),
        TType::Number(_) => on_one(of, e, 1),
        TType::Pointer(_) => Ok(no_place(of, e.used, e.unused)),
    }
}

/// The size of an arm of `?:`: its value is moved, but that of void is not used.
fn arm_size(of: TType, e: ExpressionExtent) -> Result<u32, NoMemory>
    ensures { IfOk result (λ n. n ≡ arm_meant of e) }
{
    match of {
        TType::Void => Ok(e.unused),
        TType::Number(_) | TType::Pointer(_) => sum(e.used, 1),
    }
}

/// `?:`: with its arms stand a test, a jump and two instructions that keep the control source.
fn choice(
    of: TType,
    test: ExpressionExtent,
    one: ExpressionExtent,
    other: ExpressionExtent,
) -> Result<ExpressionExtent, NoMemory>
    ensures { IfOk result (λ x. x ≡ choice_meant of test one other) }
{
    let first = arm_size(of, one)?;
    let second = arm_size(of, other)?;
    let front = sum_of_three(test.used, first, second)?;
    let size = sum(front, 4)?;
    Ok(one_size(of, size))
}

/// `left = right`
fn assign(
    of: TType,
    left: ExpressionExtent,
    right: ExpressionExtent,
) -> Result<ExpressionExtent, NoMemory>
    ensures { IfOk result (λ x. x ≡ assign_meant of left right) }
{
    let size = sum_of_three(left.place, right.used, 1)?;
    Ok(one_size(of, size))
}

/// `left op= right`
fn assign_by(
    of: TType,
    change: Change,
    left: ExpressionExtent,
    right: ExpressionExtent,
) -> Result<ExpressionExtent, NoMemory>
    ensures { IfOk result (λ x. x ≡ assign_by_meant of change left right) }
{
    let changing = changing_size(change, of, left.in_register, kind_of(right.of));
    let size = sum_of_three(left.place, right.used, changing)?;
    Ok(one_size(of, size))
}

/// `++ e`, `-- e`
fn pre(of: TType, change: Change, e: ExpressionExtent) -> Result<ExpressionExtent, NoMemory>
    ensures { IfOk result (λ x. x ≡ pre_meant of change e) }
{
    let size = sum(e.place, changing_size(change, of, e.in_register, None))?;
    Ok(one_size(of, size))
}

/// `e ++`, `e --`: the old value is moved where it is used.
fn post(of: TType, change: Change, e: ExpressionExtent) -> Result<ExpressionExtent, NoMemory>
    ensures { IfOk result (λ x. x ≡ post_meant of change e) }
{
    let unused = sum(e.place, changing_size(change, of, e.in_register, None))?;
    let used = sum(unused, 1)?;
    Ok(no_place(of, used, unused))
}

/// `left , right`
fn comma(
    of: TType,
    left: ExpressionExtent,
    right: ExpressionExtent,
) -> Result<ExpressionExtent, NoMemory>
    ensures { IfOk result (λ x. x ≡ comma_meant of left right) }
{
    let used = sum(left.unused, right.used)?;
    let unused = sum(left.unused, right.unused)?;
    Ok(no_place(of, used, unused))
}

/// What an expression makes of its operands.
fn joined(
    e: &TExpr,
    operands: Operands,
    variables: &[TVariable],
) -> Result<ExpressionExtent, NoMemory>
    requires { operands ≡ operands_in variables.now e.now }
    ensures { IfOk result (λ x. x ≡ summed variables.now e.now) }
{
    let Operands {
        first,
        second,
        third,
        args,
    } = operands;
    match e {
        TExpr::Number { node, .. } => Ok(no_place(node.of, 0, 0)),
        TExpr::Str { node, .. } => Ok(no_place(node.of, 1, 0)),
        TExpr::Getchar { node } | TExpr::Puts { node, .. } => Ok(one_size(node.of, 1)),
        TExpr::Object { node, .. } => in_memory(node.of, 1),
        TExpr::Variable { node, variable: it } => variable(node.of, is_register(variables, *it)),
        TExpr::Call { node, .. } => behind_args(node.of, args, 3),
        TExpr::Printf { node, .. } => behind_args(node.of, args, 1),
        TExpr::Putchar { node, .. } | TExpr::Unary { node, .. } => on_one(node.of, first, 1),
        TExpr::Convert { node, .. } => on_one(node.of, first, conversion_size(node.of)),
        TExpr::Cast { node, .. } => cast(node.of, first),
        TExpr::Plus { node, .. } => Ok(no_place(node.of, first.used, first.unused)),
        TExpr::Address { node, .. } => Ok(one_size(node.of, first.place)),
        TExpr::Deref { node, .. } => in_memory(node.of, first.used),
        TExpr::Pre { node, change, .. } => pre(node.of, *change, first),
        TExpr::Post { node, change, .. } => post(node.of, *change, first),
        TExpr::Index { node, .. } => element(node.of, first, second),
        TExpr::Binary { node, .. }
        | TExpr::PtrCompare { node, .. }
        | TExpr::PtrDistance { node, .. }
        | TExpr::Forward { node, .. }
        | TExpr::Onto { node, .. }
        | TExpr::Back { node, .. } => on_two(node.of, first, second, 1),
        TExpr::Both { node, .. } | TExpr::Either { node, .. } => on_two(node.of, first, second, 4),
        TExpr::Assign { node, .. } => assign(node.of, first, second),
        TExpr::AssignBy { node, change, .. } => assign_by(node.of, *change, first, second),
        TExpr::Comma { node, .. } => comma(node.of, first, second),
        TExpr::Cond { node, .. } => choice(node.of, first, second, third),
    }
}

/// The size of arguments, whose values are used.
#[cycle(expressions)]
fn args_size(args: &Seq<TExpr>, variables: &[TVariable]) -> Result<u32, NoMemory>
    ensures { IfOk result (λ n. n ≡ total (map (summed variables.now) args.now)) }
{
    let mut size = 0;
    for arg in args.as_slice() {
        let e = extent(arg, variables)?;
        size = sum(size, e.used)?;
    }
    Ok(size)
}

/// The extents of operands, as far as there are any, and the size of arguments.
#[derive(Clone, Copy)]
pub(crate) struct Operands {
    pub first: ExpressionExtent,
    pub second: ExpressionExtent,
    pub third: ExpressionExtent,
    pub args: u32,
}

/// The extent of an expression in a box.
#[cycle(expressions)]
pub(crate) fn boxed(e: &Box<TExpr>, variables: &[TVariable]) -> Result<ExpressionExtent, NoMemory>
    ensures { IfOk result (λ x. x ≡ summed variables.now e.now) }
{
    extent(e.get(), variables)
}

/// No operand.
fn no_operand() -> Operands
    ensures { result ≡ no_operand_meant }
{
    let none = no_place(TType::Void, 0, 0);
    Operands {
        first: none,
        second: none,
        third: none,
        args: 0,
    }
}

/// The arguments of a call.
#[cycle(expressions)]
fn arguments(args: &Seq<TExpr>, variables: &[TVariable]) -> Result<Operands, NoMemory>
    ensures { IfOk result (λ o. o ≡ arguments_meant (map (summed variables.now) args.now)) }
{
    let mut found = no_operand();
    found.args = args_size(args, variables)?;
    Ok(found)
}

/// The operand of an expression that has one.
#[cycle(expressions)]
fn one_operand(of: &Box<TExpr>, variables: &[TVariable]) -> Result<Operands, NoMemory>
    ensures { IfOk result (λ o. o ≡ one_operand_meant (summed variables.now of.now)) }
{
    let mut found = no_operand();
    found.first = boxed(of, variables)?;
    Ok(found)
}

/// The operands of an expression that has two.
#[cycle(expressions)]
fn two_operands(
    left: &Box<TExpr>,
    right: &Box<TExpr>,
    variables: &[TVariable],
) -> Result<Operands, NoMemory>
    ensures { IfOk result (λ o. o ≡ two_operands_meant (summed variables.now left.now) (summed variables.now right.now)) }
{
    let mut found = no_operand();
    found.first = boxed(left, variables)?;
    found.second = boxed(right, variables)?;
    Ok(found)
}

/// The operands of `?:`.
#[cycle(expressions)]
fn three_operands(
    test: &Box<TExpr>,
    then: &Box<TExpr>,
    other: &Box<TExpr>,
    variables: &[TVariable],
) -> Result<Operands, NoMemory>
    ensures { IfOk result (λ o. o ≡ three_operands_meant (summed variables.now test.now) (summed variables.now then.now) (summed variables.now other.now)) }
{
    let mut found = no_operand();
    found.first = boxed(test, variables)?;
    found.second = boxed(then, variables)?;
    found.third = boxed(other, variables)?;
    Ok(found)
}

/// The operands of an expression.
#[cycle(expressions)]
fn operands_of(e: &TExpr, variables: &[TVariable]) -> Result<Operands, NoMemory>
    ensures { IfOk result (λ o. o ≡ operands_in variables.now e.now) }
{
    match e {
        TExpr::Number { .. }
        | TExpr::Str { .. }
        | TExpr::Object { .. }
        | TExpr::Variable { .. }
        | TExpr::Getchar { .. }
        | TExpr::Puts { .. } => Ok(no_operand()),
        TExpr::Call { args, .. } | TExpr::Printf { args, .. } => arguments(args, variables),
        TExpr::Putchar { of, .. }
        | TExpr::Post { of, .. }
        | TExpr::Pre { of, .. }
        | TExpr::Address { of, .. }
        | TExpr::Deref { of, .. }
        | TExpr::Plus { of, .. }
        | TExpr::Unary { of, .. }
        | TExpr::Convert { of, .. }
        | TExpr::Cast { of, .. } => one_operand(of, variables),
        TExpr::Index { base, index, .. } => two_operands(base, index, variables),
        TExpr::Binary { left, right, .. }
        | TExpr::Both { left, right, .. }
        | TExpr::Either { left, right, .. }
        | TExpr::Forward { left, right, .. }
        | TExpr::Onto { left, right, .. }
        | TExpr::Back { left, right, .. }
        | TExpr::PtrCompare { left, right, .. }
        | TExpr::PtrDistance { left, right, .. }
        | TExpr::Assign { left, right, .. }
        | TExpr::AssignBy { left, right, .. }
        | TExpr::Comma { left, right, .. } => two_operands(left, right, variables),
        TExpr::Cond {
            test,
            then,
            other,
            ..
        } => three_operands(test, then, other, variables),
    }
}

/// The extent of an expression, by those of its operands.
#[cycle(expressions)]
pub(crate) fn extent(e: &TExpr, variables: &[TVariable]) -> Result<ExpressionExtent, NoMemory>
    ensures { IfOk result (λ x. x ≡ summed variables.now e.now) }
{
    let operands = operands_of(e, variables)?;
    joined(e, operands, variables)
}

/// The extent of an expression in a function with these variables. There is no memory for more instructions than a `u32` can count.
pub fn extent_of(e: &TExpr, variables: &[TVariable]) -> Result<ExpressionExtent, NoMemory>
    ensures { IfOk result (HasExtent variables.now e.now) }
{
    extent(e, variables)
}

//! The code of expressions, operand behind operand (C17 6.5). An expression has its temporaries from a register on: what an operand needs stands
//! in the first free one, and those of the operands behind it in the next. Expressions nest at most 200 deep, so these functions do.
ghost use Rattle.std.specs.Prelude.{◌≡◌, ◌+◌, ◌^◌, ◌<◌, true, false, [], map, Some, None};
ghost use Rattle.k_lower_code.specs.Assignments.{after_place as after_place_meant, behind_changed, behind_place, changes_old, one as one_meant};
ghost use Rattle.k_lower_code.specs.Library.{calls_with, outputs, puts_byte};
ghost use Rattle.k_lower_code.specs.Lowered.{InMemory as in_memory, behind_one, in_turn as in_turn_meant, value_at as value_at_meant};
ghost use Rattle.k_lower_code.specs.Operators.{arm as arm_meant, cast_to, chooses, converts, moves, tests_before, truth_of, unary_on};
ghost use Rattle.k_lower_code.specs.Pieces.{◌>>>◌, nothing, only, settled};
ghost use Rattle.k_lower_code.specs.Places.{address_at as address_at_meant, behind_base};
ghost use Rattle.k_evaluation.specs.Library.{chunk_of};
ghost use Rattle.k_evaluation.specs.Meanings.{scale_of as scale_of_meant};
ghost use Rattle.k_world.specs.declared.act.Out.TheVariants as out_act;
ghost use Rattle.k_lower_expressions.specs.Arounds.{lowered_in, program_of};
ghost use Rattle.k_lower_expressions.specs.Emits.{Emits, EmitsPlace};
ghost use Rattle.k_lower_expressions.specs.Families.{assigns_or_computes, calls_or_computes, computes};
ghost use Rattle.k_lower_expressions.specs.Makings.{chosen, decided, on_two_by};

use crate::around::Around;
use crate::assignment::{after_place, change_old, write};
use crate::designated::Designated;
use crate::instructions::{above, does, next_number, replace, sets};
use crate::library::{call_with, chunks_of, output, put_byte};
use crate::node::{text_of, type_of};
use crate::operators::{OnTwo, convert, move_value, on_two, test, unary};
use crate::places::{address_at, element_at, object_place, string_value, value_at, variable_place};
use k_code::{Arg, Do, Instr};
use k_num::{Bin, Box, Kind, NoMemory, Place, Seq, Un};
use k_typed_parts::{kind_of, kind_or_int, scale_of};
use k_types_meaning::{Change, Node, Piece, TExpr, TType};
use k_world::Out;

/// The most registers that an expression takes at once behind the one that it is told, but for those of its operands.
const ROOM: u32 = 8;

/// Emits the code of an expression's value, used or not.
#[cycle(expressions)]
pub fn value(
    e: &TExpr,
    used: bool,
    r: u32,
    around: &Around<'_>,
    out: &mut Vec<Instr>,
) -> Result<Arg, NoMemory>
    ensures { Emits result ((lowered_in around.now e.now).value used r) out.old.items out.new.items }
{
    let most = u32::MAX - ROOM;
    if most < r {
        return Err(NoMemory);
    }
    match e {
        TExpr::Number { value, .. } => Ok(Arg::Number(*value)),
        TExpr::Str { node, string, .. } => string_value(around, node.place, *string, used, r, out),
        TExpr::Object { node, .. } => read(e, node, used, r, around, out),
        TExpr::Variable { node, .. } => read(e, node, used, r, around, out),
        TExpr::Index { node, .. } => read(e, node, used, r, around, out),
        TExpr::Deref { node, .. } => read(e, node, used, r, around, out),
        TExpr::Address { of, .. } => address(of, r, around, out),
        TExpr::Plus { of, .. } => boxed_value(of, used, r, around, out),
        TExpr::Unary { node, op, kind, of } => one(of, node.place, *op, *kind, r, around, out),
        TExpr::Convert { node, of } => converted(of, node.place, kind_of(node.of), r, around, out),
        TExpr::Cast { node, of } => cast(of, node, used, r, around, out),
        TExpr::Both { node, left, right } => logic(left, right, node, false, r, around, out),
        TExpr::Either { node, left, right } => logic(left, right, node, true, r, around, out),
        TExpr::Cond {
            node,
            test,
            then,
            other,
        } => conditional(test, then, other, node, r, around, out),
        TExpr::Comma { left, right, .. } => comma(left, right, used, r, around, out),
        _ => call_value(e, used, r, around, out),
    }
}

/// The same of what is left: that of a call of a function of the source or of the library is emitted here (C17 6.5.2.2, 7.21.6, 7.21.7).
#[cycle(expressions)]
fn call_value(
    e: &TExpr,
    used: bool,
    r: u32,
    around: &Around<'_>,
    out: &mut Vec<Instr>,
) -> Result<Arg, NoMemory>
    requires room { r + 8 < 2 ^ 32 }
    requires family { calls_or_computes e.now ≡ true }
    ensures { Emits result ((lowered_in around.now e.now).value used r) out.old.items out.new.items }
{
    match e {
        TExpr::Call {
            node,
            function,
            args,
        } => call(args, node, *function, used, r, around, out),
        TExpr::Getchar { node } => sets(around, node.place, Do::Input { to: r }, r, out),
        TExpr::Putchar { node, of } => putchar(of, node.place, r, around, out),
        TExpr::Puts { node, of } => puts(of, node.place, r, around, out),
        TExpr::Printf { node, format, args } => printf(args, node.place, format, r, around, out),
        _ => assignment_value(e, used, r, around, out),
    }
}

/// The same: that of what writes to the place of its first operand is emitted here (C17 6.5.2.4, 6.5.3.1, 6.5.16).
#[cycle(expressions)]
fn assignment_value(
    e: &TExpr,
    used: bool,
    r: u32,
    around: &Around<'_>,
    out: &mut Vec<Instr>,
) -> Result<Arg, NoMemory>
    requires room { r + 8 < 2 ^ 32 }
    requires family { assigns_or_computes e.now ≡ true }
    ensures { Emits result ((lowered_in around.now e.now).value used r) out.old.items out.new.items }
{
    match e {
        TExpr::Post { node, change, of } => post(of, node, *change, used, r, around, out),
        TExpr::Pre { node, change, of } => pre(of, node, *change, used, r, around, out),
        TExpr::Assign { node, left, right } => {
            assign(left, right, node.place, used, r, around, out)
        }
        TExpr::AssignBy {
            node,
            change,
            left,
            right,
        } => assign_by(left, right, node, *change, used, r, around, out),
        _ => binary_value(e, used, r, around, out),
    }
}

/// The same of a binary operator that takes the values of both operands, numbers or pointers (C17 6.5.5 to 6.5.12).
#[cycle(expressions)]
fn binary_value(
    e: &TExpr,
    used: bool,
    r: u32,
    around: &Around<'_>,
    out: &mut Vec<Instr>,
) -> Result<Arg, NoMemory>
    requires room { r + 8 < 2 ^ 32 }
    requires family { computes e.now ≡ true }
    ensures { Emits result ((lowered_in around.now e.now).value used r) out.old.items out.new.items }
{
    match e {
        TExpr::Binary {
            node,
            op,
            kind,
            left,
            right,
        } => two(left, right, node, OnTwo::Binary(*op, *kind), r, around, out),
        TExpr::Forward { node, left, right } => {
            two(left, right, node, OnTwo::Forward, r, around, out)
        }
        TExpr::Onto { node, left, right } => two(left, right, node, OnTwo::Onto, r, around, out),
        TExpr::Back { node, left, right } => two(left, right, node, OnTwo::Back, r, around, out),
        TExpr::PtrCompare {
            node,
            op,
            left,
            right,
        } => two(left, right, node, OnTwo::Compare(*op), r, around, out),
        TExpr::PtrDistance { node, left, right } => {
            two(left, right, node, OnTwo::Distance, r, around, out)
        }
        _ => unreachable!(),
    }
}

/// Emits the code of the place that an expression designates; what is no place is taken as the element at the number 0.
#[cycle(expressions)]
pub fn place(
    e: &TExpr,
    r: u32,
    around: &Around<'_>,
    out: &mut Vec<Instr>,
) -> Result<Designated, NoMemory>
    ensures { EmitsPlace result ((lowered_in around.now e.now).place r) out.old.items out.new.items }
{
    if u32::MAX - ROOM < r {
        return Err(NoMemory);
    }
    match e {
        TExpr::Object { node, object } => object_place(around, node.place, *object, r, out),
        TExpr::Variable { node, variable } => Ok(variable_place(around, node, *variable)),
        TExpr::Index { node, base, index } => element(base, index, node.place, r, around, out),
        TExpr::Deref { of, .. } => pointed(of, r, around, out),
        TExpr::Number { .. }
        | TExpr::Str { .. }
        | TExpr::Call { .. }
        | TExpr::Getchar { .. }
        | TExpr::Putchar { .. }
        | TExpr::Puts { .. }
        | TExpr::Printf { .. }
        | TExpr::Post { .. }
        | TExpr::Pre { .. }
        | TExpr::Address { .. }
        | TExpr::Plus { .. }
        | TExpr::Unary { .. }
        | TExpr::Convert { .. }
        | TExpr::Cast { .. }
        | TExpr::Binary { .. }
        | TExpr::Both { .. }
        | TExpr::Either { .. }
        | TExpr::Forward { .. }
        | TExpr::Onto { .. }
        | TExpr::Back { .. }
        | TExpr::PtrCompare { .. }
        | TExpr::PtrDistance { .. }
        | TExpr::Cond { .. }
        | TExpr::Assign { .. }
        | TExpr::AssignBy { .. }
        | TExpr::Comma { .. } => Ok(Designated::InMemory(Arg::Number(0))),
    }
}

/// The value of an expression in a box.
#[cycle(expressions)]
fn boxed_value(
    e: &Box<TExpr>,
    used: bool,
    r: u32,
    around: &Around<'_>,
    out: &mut Vec<Instr>,
) -> Result<Arg, NoMemory>
    ensures { Emits result ((lowered_in around.now e.now).value used r) out.old.items out.new.items }
{
    value(e.get(), used, r, around, out)
}

/// The place of an expression in a box.
#[cycle(expressions)]
fn boxed_place(
    e: &Box<TExpr>,
    r: u32,
    around: &Around<'_>,
    out: &mut Vec<Instr>,
) -> Result<Designated, NoMemory>
    ensures { EmitsPlace result ((lowered_in around.now e.now).place r) out.old.items out.new.items }
{
    place(e.get(), r, around, out)
}

/// The value of an expression that is a place, where it is used.
#[cycle(expressions)]
fn read(
    e: &TExpr,
    node: &Node,
    used: bool,
    r: u32,
    around: &Around<'_>,
    out: &mut Vec<Instr>,
) -> Result<Arg, NoMemory>
    ensures { Emits result ((lowered_in around.now e.now).place r >>> value_at_meant (program_of around.now) node.now used r) out.old.items out.new.items }
{
    let target = place(e, r, around, out)?;
    value_at(around, node, used, r, target, out)
}

/// `base[index]` as a place.
#[cycle(expressions)]
fn element(
    base: &Box<TExpr>,
    index: &Box<TExpr>,
    at: Place,
    r: u32,
    around: &Around<'_>,
    out: &mut Vec<Instr>,
) -> Result<Designated, NoMemory>
    requires { r + 8 < 2 ^ 32 }
    ensures { EmitsPlace result ((lowered_in around.now base.now).value true r >>> behind_base (program_of around.now) at (scale_of_meant (lowered_in around.now base.now).node.of) (lowered_in around.now index.now) r) out.old.items out.new.items }
{
    let scale = scale_of(type_of(base));
    let pointer = boxed_value(base, true, r, around, out)?;
    let by = boxed_value(index, true, r + 1, around, out)?;
    element_at(around, at, scale, r, pointer, by, out)
}

/// `*of` as a place.
#[cycle(expressions)]
fn pointed(
    of: &Box<TExpr>,
    r: u32,
    around: &Around<'_>,
    out: &mut Vec<Instr>,
) -> Result<Designated, NoMemory>
    ensures { EmitsPlace result ((lowered_in around.now of.now).value true r >>> λ pointer. only (in_memory pointer)) out.old.items out.new.items }
{
    let pointer = boxed_value(of, true, r, around, out)?;
    Ok(Designated::InMemory(pointer))
}

/// `&of`
#[cycle(expressions)]
fn address(
    of: &Box<TExpr>,
    r: u32,
    around: &Around<'_>,
    out: &mut Vec<Instr>,
) -> Result<Arg, NoMemory>
    ensures { Emits result ((lowered_in around.now of.now).place r >>> λ target. only (address_at_meant target)) out.old.items out.new.items }
{
    let target = boxed_place(of, r, around, out)?;
    Ok(address_at(target))
}

/// `- ~ !`
#[cycle(expressions)]
fn one(
    of: &Box<TExpr>,
    at: Place,
    op: Un,
    kind: Kind,
    r: u32,
    around: &Around<'_>,
    out: &mut Vec<Instr>,
) -> Result<Arg, NoMemory>
    ensures { Emits result ((lowered_in around.now of.now).value true r >>> unary_on (program_of around.now) at op kind r) out.old.items out.new.items }
{
    let a = boxed_value(of, true, r, around, out)?;
    unary(around, at, op, kind, r, a, out)
}

/// A conversion to a kind, if there is one.
#[cycle(expressions)]
fn converted(
    of: &Box<TExpr>,
    at: Place,
    kind: Option<Kind>,
    r: u32,
    around: &Around<'_>,
    out: &mut Vec<Instr>,
) -> Result<Arg, NoMemory>
    ensures { Emits result ((lowered_in around.now of.now).value true r >>> converts (program_of around.now) at kind r) out.old.items out.new.items }
{
    let a = boxed_value(of, true, r, around, out)?;
    convert(around, at, kind, r, a, out)
}

/// A cast, by the type that it names.
#[cycle(expressions)]
fn cast(
    of: &Box<TExpr>,
    node: &Node,
    used: bool,
    r: u32,
    around: &Around<'_>,
    out: &mut Vec<Instr>,
) -> Result<Arg, NoMemory>
    ensures { Emits result (cast_to (program_of around.now) node.now.place node.now.of (lowered_in around.now of.now) used r) out.old.items out.new.items }
{
    match node.of {
        TType::Void => unused(of, r, around, out),
        TType::Number(kind) => converted(of, node.place, Some(kind), r, around, out),
        TType::Pointer(_) => boxed_value(of, used, r, around, out),
    }
}

/// An expression whose value is not used.
#[cycle(expressions)]
fn unused(
    of: &Box<TExpr>,
    r: u32,
    around: &Around<'_>,
    out: &mut Vec<Instr>,
) -> Result<Arg, NoMemory>
    ensures { Emits result ((lowered_in around.now of.now).value false r >>> λ a. only nothing) out.old.items out.new.items }
{
    boxed_value(of, false, r, around, out)?;
    Ok(Arg::Number(0))
}

/// `putchar(of)`
#[cycle(expressions)]
fn putchar(
    of: &Box<TExpr>,
    at: Place,
    r: u32,
    around: &Around<'_>,
    out: &mut Vec<Instr>,
) -> Result<Arg, NoMemory>
    ensures { Emits result ((lowered_in around.now of.now).value true r >>> puts_byte (program_of around.now) at r) out.old.items out.new.items }
{
    let a = boxed_value(of, true, r, around, out)?;
    put_byte(around, at, r, a, out)
}

/// Something is done with the values of two operands.
#[cycle(expressions)]
fn two(
    left: &Box<TExpr>,
    right: &Box<TExpr>,
    node: &Node,
    how: OnTwo,
    r: u32,
    around: &Around<'_>,
    out: &mut Vec<Instr>,
) -> Result<Arg, NoMemory>
    requires { r + 8 < 2 ^ 32 }
    ensures { Emits result ((lowered_in around.now left.now).value true r >>> behind_one (lowered_in around.now right.now) (on_two_by (program_of around.now) node.now (lowered_in around.now left.now).node.of how) r) out.old.items out.new.items }
{
    let of = type_of(left);
    let a = boxed_value(left, true, r, around, out)?;
    let b = boxed_value(right, true, r + 1, around, out)?;
    on_two(around, node, of, how, r, a, b, out)
}

/// `left, right`
#[cycle(expressions)]
fn comma(
    left: &Box<TExpr>,
    right: &Box<TExpr>,
    used: bool,
    r: u32,
    around: &Around<'_>,
    out: &mut Vec<Instr>,
) -> Result<Arg, NoMemory>
    ensures { Emits result ((lowered_in around.now left.now).value false r >>> λ a. (lowered_in around.now right.now).value used r) out.old.items out.new.items }
{
    boxed_value(left, false, r, around, out)?;
    boxed_value(right, used, r, around, out)
}

/// `left = right`
#[cycle(expressions)]
fn assign(
    left: &Box<TExpr>,
    right: &Box<TExpr>,
    at: Place,
    used: bool,
    r: u32,
    around: &Around<'_>,
    out: &mut Vec<Instr>,
) -> Result<Arg, NoMemory>
    requires { r + 8 < 2 ^ 32 }
    ensures { Emits result ((lowered_in around.now left.now).place r >>> behind_place (program_of around.now) at (lowered_in around.now right.now) used r) out.old.items out.new.items }
{
    let target = boxed_place(left, r, around, out)?;
    let a = boxed_value(right, true, r + 1, around, out)?;
    write(around, at, used, r, target, a, out)
}

/// `left op= right`
#[cycle(expressions)]
fn assign_by(
    left: &Box<TExpr>,
    right: &Box<TExpr>,
    node: &Node,
    how: Change,
    used: bool,
    r: u32,
    around: &Around<'_>,
    out: &mut Vec<Instr>,
) -> Result<Arg, NoMemory>
    requires { r + 8 < 2 ^ 32 }
    ensures { Emits result ((lowered_in around.now left.now).place r >>> behind_changed (program_of around.now) node.now how (lowered_in around.now right.now) used r) out.old.items out.new.items }
{
    let kind = kind_of(type_of(right));
    let target = boxed_place(left, r, around, out)?;
    let by = boxed_value(right, true, r + 1, around, out)?;
    change_old(around, node, how, kind, used, r, target, by, out)
}

/// `++ of`, `-- of`
#[cycle(expressions)]
fn pre(
    of: &Box<TExpr>,
    node: &Node,
    how: Change,
    used: bool,
    r: u32,
    around: &Around<'_>,
    out: &mut Vec<Instr>,
) -> Result<Arg, NoMemory>
    requires { r + 8 < 2 ^ 32 }
    ensures { Emits result ((lowered_in around.now of.now).place r >>> λ target. changes_old (program_of around.now) node.now how None used r target one_meant) out.old.items out.new.items }
{
    let target = boxed_place(of, r, around, out)?;
    change_old(
        around,
        node,
        how,
        None,
        used,
        r,
        target,
        Arg::Number(1),
        out,
    )
}

/// `of ++`, `of --`
#[cycle(expressions)]
fn post(
    of: &Box<TExpr>,
    node: &Node,
    how: Change,
    used: bool,
    r: u32,
    around: &Around<'_>,
    out: &mut Vec<Instr>,
) -> Result<Arg, NoMemory>
    requires { r + 8 < 2 ^ 32 }
    ensures { Emits result ((lowered_in around.now of.now).place (r + 1) >>> after_place_meant (program_of around.now) node.now how used r) out.old.items out.new.items }
{
    let target = boxed_place(of, r + 1, around, out)?;
    after_place(around, node, how, used, r, target, out)
}

/// `&&` and `||`, which this truth decides; behind them the control source is as before.
#[cycle(expressions)]
fn logic(
    left: &Box<TExpr>,
    right: &Box<TExpr>,
    node: &Node,
    decides: bool,
    r: u32,
    around: &Around<'_>,
    out: &mut Vec<Instr>,
) -> Result<Arg, NoMemory>
    requires { r + 8 < 2 ^ 32 }
    ensures { Emits result (settled (program_of around.now) node.now.place (decided (program_of around.now) node.now decides (lowered_in around.now left.now) (lowered_in around.now right.now) r)) out.old.items out.new.items }
{
    does(around, node.place, Do::Save, out)?;
    let a = decide(left, right, node, decides, r, around, out)?;
    does(around, node.place, Do::Back, out)?;
    Ok(a)
}

/// The same up to where the control source is put back.
#[cycle(expressions)]
fn decide(
    left: &Box<TExpr>,
    right: &Box<TExpr>,
    node: &Node,
    decides: bool,
    r: u32,
    around: &Around<'_>,
    out: &mut Vec<Instr>,
) -> Result<Arg, NoMemory>
    requires { r + 8 < 2 ^ 32 }
    ensures { Emits result (decided (program_of around.now) node.now decides (lowered_in around.now left.now) (lowered_in around.now right.now) r) out.old.items out.new.items }
{
    let a = boxed_value(left, true, r, around, out)?;
    under_test(right, node, decides, r, a, around, out)?;
    Ok(Arg::Reg(r, false))
}

/// The test of the left operand, and the right one, which is passed over where the left one decides.
#[cycle(expressions)]
fn under_test(
    right: &Box<TExpr>,
    node: &Node,
    decides: bool,
    r: u32,
    a: Arg,
    around: &Around<'_>,
    out: &mut Vec<Instr>,
) -> Result<(), NoMemory>
    requires { r + 8 < 2 ^ 32 }
    ensures { Emits result (tests_before (program_of around.now) node.now.place decides (Some r) a (truth_of (program_of around.now) node.now (lowered_in around.now right.now) r)) out.old.items out.new.items }
{
    let number = next_number(out)?;
    does(around, node.place, Do::Jump { to: 0 }, out)?;
    let inner = next_number(out)?;
    truth(right, node, r, around, out)?;
    let behind = next_number(out)?;
    let act = test(decides, a, inner, behind, Some(r));
    replace(around, node.place, act, number, out);
    Ok(())
}

/// Whether the right operand is other than 0, as an operation.
#[cycle(expressions)]
fn truth(
    right: &Box<TExpr>,
    node: &Node,
    r: u32,
    around: &Around<'_>,
    out: &mut Vec<Instr>,
) -> Result<(), NoMemory>
    requires { r + 8 < 2 ^ 32 }
    ensures { Emits result (truth_of (program_of around.now) node.now (lowered_in around.now right.now) r) out.old.items out.new.items }
{
    let kind = kind_or_int(kind_of(type_of(right)));
    let a = boxed_value(right, true, r + 1, around, out)?;
    let act = Do::Binary {
        op: Bin::Ne,
        kind,
        a,
        b: Arg::Number(0),
        to: r,
    };
    does(around, node.place, act, out)
}

/// `?:`; behind it the control source is as before.
#[cycle(expressions)]
fn conditional(
    test: &Box<TExpr>,
    then: &Box<TExpr>,
    other: &Box<TExpr>,
    node: &Node,
    r: u32,
    around: &Around<'_>,
    out: &mut Vec<Instr>,
) -> Result<Arg, NoMemory>
    ensures { Emits result (settled (program_of around.now) node.now.place (chosen (program_of around.now) node.now (lowered_in around.now test.now) (lowered_in around.now then.now) (lowered_in around.now other.now) r)) out.old.items out.new.items }
{
    does(around, node.place, Do::Save, out)?;
    let a = choose(test, then, other, node, r, around, out)?;
    does(around, node.place, Do::Back, out)?;
    Ok(a)
}

/// The same up to where the control source is put back.
#[cycle(expressions)]
fn choose(
    test: &Box<TExpr>,
    then: &Box<TExpr>,
    other: &Box<TExpr>,
    node: &Node,
    r: u32,
    around: &Around<'_>,
    out: &mut Vec<Instr>,
) -> Result<Arg, NoMemory>
    ensures { Emits result (chosen (program_of around.now) node.now (lowered_in around.now test.now) (lowered_in around.now then.now) (lowered_in around.now other.now) r) out.old.items out.new.items }
{
    let a = boxed_value(test, true, r, around, out)?;
    arms(then, other, node, r, a, around, out)
}

/// The test and both arms, with a jump over the second.
#[cycle(expressions)]
fn arms(
    then: &Box<TExpr>,
    other: &Box<TExpr>,
    node: &Node,
    r: u32,
    a: Arg,
    around: &Around<'_>,
    out: &mut Vec<Instr>,
) -> Result<Arg, NoMemory>
    ensures { Emits result (chooses (program_of around.now) node.now.place a (arm_meant (program_of around.now) node.now.place node.now.of r (lowered_in around.now then.now)) (arm_meant (program_of around.now) node.now.place node.now.of r (lowered_in around.now other.now))) out.old.items out.new.items }
{
    let number = next_number(out)?;
    does(around, node.place, Do::Jump { to: 0 }, out)?;
    let first = next_number(out)?;
    arm(then, node, r, around, out)?;
    let jump = next_number(out)?;
    does(around, node.place, Do::Jump { to: 0 }, out)?;
    let second = next_number(out)?;
    let given = arm(other, node, r, around, out)?;
    let behind = next_number(out)?;
    let act = test(false, a, first, second, None);
    replace(around, node.place, act, number, out);
    replace(around, node.place, Do::Jump { to: behind }, jump, out);
    Ok(given)
}

/// An arm of `?:`, by the type of the whole.
#[cycle(expressions)]
fn arm(
    e: &Box<TExpr>,
    node: &Node,
    r: u32,
    around: &Around<'_>,
    out: &mut Vec<Instr>,
) -> Result<Arg, NoMemory>
    ensures { Emits result (arm_meant (program_of around.now) node.now.place node.now.of r (lowered_in around.now e.now)) out.old.items out.new.items }
{
    match node.of {
        TType::Void => unused(e, r, around, out),
        TType::Number(_) => moved(e, node.place, r, around, out),
        TType::Pointer(_) => moved(e, node.place, r, around, out),
    }
}

/// The move of a value.
#[cycle(expressions)]
fn moved(
    e: &Box<TExpr>,
    at: Place,
    r: u32,
    around: &Around<'_>,
    out: &mut Vec<Instr>,
) -> Result<Arg, NoMemory>
    ensures { Emits result ((lowered_in around.now e.now).value true r >>> moves (program_of around.now) at r) out.old.items out.new.items }
{
    let a = boxed_value(e, true, r, around, out)?;
    move_value(around, at, r, a, out)
}

/// The values of arguments, each in a register of its own.
#[cycle(expressions)]
fn in_turn(
    args: &Seq<TExpr>,
    r: u32,
    around: &Around<'_>,
    out: &mut Vec<Instr>,
) -> Result<Seq<Arg>, NoMemory>
    ensures { Emits result (in_turn_meant (map (lowered_in around.now) args.now) r) out.old.items out.new.items }
{
    let mut given = Seq::new(around.alloc);
    let mut register = r;
    for arg in args.as_slice() {
        let a = value(arg, true, register, around, out)?;
        given.push(a)?;
        register = above(register, 1)?;
    }
    Ok(given)
}

/// A call of the function of this number.
#[cycle(expressions)]
fn call(
    args: &Seq<TExpr>,
    node: &Node,
    function: u32,
    used: bool,
    r: u32,
    around: &Around<'_>,
    out: &mut Vec<Instr>,
) -> Result<Arg, NoMemory>
    ensures { Emits result (in_turn_meant (map (lowered_in around.now) args.now) r >>> calls_with (program_of around.now) node.now function used r) out.old.items out.new.items }
{
    let given = in_turn(args, r, around, out)?;
    call_with(around, node, function, used, r, given, out)
}

/// `printf`
#[cycle(expressions)]
fn printf(
    args: &Seq<TExpr>,
    at: Place,
    format: &Seq<Piece>,
    r: u32,
    around: &Around<'_>,
    out: &mut Vec<Instr>,
) -> Result<Arg, NoMemory>
    ensures { Emits result (in_turn_meant (map (lowered_in around.now) args.now) r >>> outputs (program_of around.now) at (out_act.Format (map chunk_of format.now)) r) out.old.items out.new.items }
{
    let given = in_turn(args, r, around, out)?;
    let chunks = chunks_of(around.alloc, format)?;
    output(around, at, Out::Format(chunks), r, given, out)
}

/// `puts` of a string, whose bytes and a newline are written.
fn puts(
    of: &Box<TExpr>,
    at: Place,
    r: u32,
    around: &Around<'_>,
    out: &mut Vec<Instr>,
) -> Result<Arg, NoMemory>
    ensures { Emits result (outputs (program_of around.now) at (out_act.Line (lowered_in around.now of.now).text) r []) out.old.items out.new.items }
{
    let text = text_of(around.alloc, of.get())?;
    let none = Seq::new(around.alloc);
    output(around, at, Out::Line(text), r, none, out)
}

//! Conversions and operations on operands that are there (C17 6.3.1, 6.5.3 to 6.5.9).
ghost use Rattle.std.specs.Prelude.{◌≡◌};
ghost use Rattle.k_lower_code.specs.Operators.{binary_on, converts as converts_meant, moves, unary_on};
ghost use Rattle.k_lower_expressions.specs.Arounds.{program_of};
ghost use Rattle.k_lower_expressions.specs.Emits.{Emits};
ghost use Rattle.k_lower_expressions.specs.Makings.{on_two_by, test_by};

use crate::around::Around;
use crate::instructions::sets;
use crate::places::offset;
use k_code::{Arg, Do, Instr};
use k_num::{Bin, Kind, NoMemory, Place, Un};
use k_optab::Class;
use k_typed_parts::scale_of;
use k_types_meaning::{Node, TType};

/// What is done with two operands.
#[derive(Clone, Copy)]
pub enum OnTwo {
    /// An operation on numbers, in a kind.
    Binary(Bin, Kind),
    /// Two pointers are compared.
    Compare(Bin),
    /// The elements between two pointers are counted.
    Distance,
    /// A pointer is moved forward by a number.
    Forward,
    /// The same with the number first.
    Onto,
    /// A pointer is moved back by a number.
    Back,
}

/// `- ~ !` in a kind.
pub fn unary(
    around: &Around<'_>,
    place: Place,
    op: Un,
    kind: Kind,
    r: u32,
    a: Arg,
    out: &mut Vec<Instr>,
) -> Result<Arg, NoMemory>
    ensures { Emits result (unary_on (program_of around.now) place op kind r a) out.old.items out.new.items }
{
    let act = Do::Unary { op, kind, a, to: r };
    sets(around, place, act, r, out)
}

/// A value is converted to a kind, if there is one.
pub fn convert(
    around: &Around<'_>,
    place: Place,
    kind: Option<Kind>,
    r: u32,
    a: Arg,
    out: &mut Vec<Instr>,
) -> Result<Arg, NoMemory>
    ensures { Emits result (converts_meant (program_of around.now) place kind r a) out.old.items out.new.items }
{
    let Some(kind) = kind else {
        return Ok(a);
    };
    sets(around, place, Do::Convert { kind, a, to: r }, r, out)
}

/// A value is moved.
pub fn move_value(
    around: &Around<'_>,
    place: Place,
    r: u32,
    a: Arg,
    out: &mut Vec<Instr>,
) -> Result<Arg, NoMemory>
    ensures { Emits result (moves (program_of around.now) place r a) out.old.items out.new.items }
{
    sets(around, place, Do::Move { a, to: r }, r, out)
}

/// A binary operation on numbers.
pub fn binary(
    around: &Around<'_>,
    place: Place,
    op: Bin,
    kind: Kind,
    r: u32,
    a: Arg,
    b: Arg,
    out: &mut Vec<Instr>,
) -> Result<Arg, NoMemory>
    ensures { Emits result (binary_on (program_of around.now) place op kind r a b) out.old.items out.new.items }
{
    let act = Do::Binary {
        op,
        kind,
        a,
        b,
        to: r,
    };
    sets(around, place, act, r, out)
}

/// What is done with two operands, of which the first has this type.
pub fn on_two(
    around: &Around<'_>,
    node: &Node,
    of: TType,
    how: OnTwo,
    r: u32,
    a: Arg,
    b: Arg,
    out: &mut Vec<Instr>,
) -> Result<Arg, NoMemory>
    ensures { Emits result (on_two_by (program_of around.now) node.now of how r a b) out.old.items out.new.items }
{
    match how {
        OnTwo::Binary(op, kind) => binary(around, node.place, op, kind, r, a, b, out),
        OnTwo::Compare(op) => {
            let act = Do::PtrCompare { op, a, b, to: r };
            sets(around, node.place, act, r, out)
        }
        OnTwo::Distance => {
            let scale = scale_of(of);
            let act = Do::PtrDistance { scale, a, b, to: r };
            sets(around, node.place, act, r, out)
        }
        OnTwo::Forward => offset(around, node.place, false, scale_of(node.of), r, a, b, out),
        OnTwo::Onto => offset(around, node.place, false, scale_of(node.of), r, b, a, out),
        OnTwo::Back => offset(around, node.place, true, scale_of(node.of), r, a, b, out),
    }
}

/// A test before instructions that are passed over where this truth was found: the first of them has one number, the one behind them
/// the other.
pub fn test(decides: bool, a: Arg, inner: u32, behind: u32, to: Option<u32>) -> Do
    ensures { result ≡ test_by decides a inner behind to }
{
    let (then, other) = if decides {
        (behind, inner)
    } else {
        (inner, behind)
    };
    Do::Test {
        a,
        then,
        other,
        to,
        class: Class::Test,
    }
}

//! What stands around the arms of an `if` (C17 6.8.4.1): the test, and the jump over the second arm.
ghost use Rattle.std.specs.Prelude.{◌≡◌};
ghost use Rattle.k_lower_blocks.specs.Arounds.{arms_left as arms_left_meant, passes_arm, tests_one, tests_two};
ghost use Rattle.k_lower_expressions.specs.Arounds.{program_of};
ghost use Rattle.k_lower_expressions.specs.Emits.{Emits};

use k_code::{Arg, Do, Instr};
use k_lower_expressions::{Around, above, does, next_number};
use k_lower_extents::Extent;
use k_marks_jumps::any;
use k_marks_meaning::Jumps;
use k_num::{NoMemory, Place};
use k_optab::Class;

/// The test of an `if` that has one arm, in front of this arm. An error is want of memory.
pub fn test_one(
    around: &Around<'_>,
    place: Place,
    a: Arg,
    one: Extent,
    out: &mut Vec<Instr>,
) -> Result<(), NoMemory>
    ensures { Emits result (tests_one (program_of around.now) place a one.size) out.old.items out.new.items }
{
    let number = next_number(out)?;
    let then = above(number, 1)?;
    let other = above(then, one.size)?;
    let act = Do::Test {
        a,
        then,
        other,
        to: None,
        class: Class::Test,
    };
    does(around, place, act, out)
}

/// The test of an `if` that has two arms, in front of the first arm. An error is want of memory.
pub fn test_two(
    around: &Around<'_>,
    place: Place,
    a: Arg,
    one: Extent,
    out: &mut Vec<Instr>,
) -> Result<(), NoMemory>
    ensures { Emits result (tests_two (program_of around.now) place a one.size) out.old.items out.new.items }
{
    let number = next_number(out)?;
    let then = above(number, 1)?;
    let jump = above(then, one.size)?;
    let other = above(jump, 1)?;
    let act = Do::Test {
        a,
        then,
        other,
        to: None,
        class: Class::Test,
    };
    does(around, place, act, out)
}

/// The jump over the second arm of an `if`, in front of this arm. An error is want of memory.
pub fn pass_arm(
    around: &Around<'_>,
    place: Place,
    other: Extent,
    out: &mut Vec<Instr>,
) -> Result<(), NoMemory>
    ensures { Emits result (passes_arm (program_of around.now) place other.size) out.old.items out.new.items }
{
    let number = next_number(out)?;
    let second = above(number, 1)?;
    let to = above(second, other.size)?;
    does(around, place, Do::Jump { to }, out)
}

/// Whether a jump leads out of an arm, of which the second may be left out: then the control source behind the `if` stays as the arms
/// leave it.
pub fn arms_left(one: Extent, other: Option<Extent>) -> bool
    ensures { result ≡ arms_left_meant one other }
{
    match other {
        None => any(one.jumps),
        Some(other) => any(Jumps {
            breaks: one.jumps.breaks || other.jumps.breaks,
            continues: one.jumps.continues || other.jumps.continues,
            returns: one.jumps.returns || other.jumps.returns,
        }),
    }
}

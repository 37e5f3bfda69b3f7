//! Instructions that may be left out, and the parts of a turn around its body.
ghost use Rattle.std.specs.Prelude.{◌≡◌};
ghost use Rattle.std.specs.Option.{option_copied};
ghost use Rattle.k_lower_expressions.specs.Arounds.{inside_of, program_of};
ghost use Rattle.k_lower_expressions.specs.Emits.{Emits};
ghost use Rattle.k_lower_turns.specs.Turns.{begins_body, does_if as does_if_meant, ends_body, jumps_over, pads, tests_again};

use crate::choices::{step_or_none, test_or_one};
use crate::numbers::{Numbers, restores_step, saves_body};
use crate::turns::Turns;
use k_code::{Do, Instr};
use k_lower_expressions::{Around, above, does};
use k_num::{Box, NoMemory, Place};
use k_optab::Class;
use k_types_meaning::TExpr;

/// Emits an instruction, if it stands there.
pub(crate) fn does_if(
    there: bool,
    place: Place,
    act: Do,
    around: &Around<'_>,
    out: &mut Vec<Instr>,
) -> Result<(), NoMemory>
    ensures { Emits result (does_if_meant (program_of around.now) place there act) out.old.items out.new.items }
{
    if there {
        return does(around, place, act, out);
    }
    drop(act);
    Ok(())
}

/// Emits the jump over the pad of a `break`, if it has one.
fn jump_over(
    breaks: bool,
    place: Place,
    to: u32,
    around: &Around<'_>,
    out: &mut Vec<Instr>,
) -> Result<(), NoMemory>
    ensures { Emits result (jumps_over (program_of around.now) place breaks to) out.old.items out.new.items }
{
    if breaks {
        return does(around, place, Do::Jump { to }, out);
    }
    Ok(())
}

/// Emits the pad of a `break`, if it has one: the body's region is left, and the jump goes on.
fn pad(
    breaks: bool,
    place: Place,
    to: u32,
    around: &Around<'_>,
    out: &mut Vec<Instr>,
) -> Result<(), NoMemory>
    ensures { Emits result (pads (program_of around.now) place breaks to) out.old.items out.new.items }
{
    if breaks {
        does(around, place, Do::Exit, out)?;
        return does(around, place, Do::Jump { to }, out);
    }
    Ok(())
}

/// Emits what stands before the body in a turn: the control source is taken back in a counted loop, or saved, and the body's region is
/// entered.
pub(crate) fn begin_body(
    turns: Turns,
    around: &Around<'_>,
    out: &mut Vec<Instr>,
) -> Result<(), NoMemory>
    ensures { Emits result (begins_body (program_of around.now) turns) out.old.items out.new.items }
{
    let region = above(turns.region, 1)?;
    does_if(turns.counted, turns.place, Do::Restore, around, out)?;
    does_if(saves_body(turns), turns.place, Do::Save, around, out)?;
    does(around, turns.place, Do::Enter { region }, out)
}

/// Emits what stands behind the body and ends its region: the pad of a `break`, which a jump passes over, and the control source.
pub(crate) fn end_body(
    turns: Turns,
    numbers: Numbers,
    around: &Around<'_>,
    out: &mut Vec<Instr>,
) -> Result<(), NoMemory>
    ensures { Emits result (ends_body (program_of around.now) turns numbers) out.old.items out.new.items }
{
    let breaks = turns.body.jumps.breaks;
    jump_over(breaks, turns.place, numbers.body.continues, around, out)?;
    pad(breaks, turns.place, numbers.end, around, out)?;
    does(around, turns.place, Do::Exit, out)?;
    does_if(saves_body(turns), turns.place, Do::Back, around, out)
}

/// Emits what stands behind the body's region: the step, the test, which goes back to the top, and the end of the loop's region.
pub(crate) fn test_again(
    turns: Turns,
    numbers: Numbers,
    test: Option<&Box<TExpr>>,
    step: Option<&Box<TExpr>>,
    around: &Around<'_>,
    out: &mut Vec<Instr>,
) -> Result<(), NoMemory>
    ensures { Emits result (tests_again (inside_of around.now) turns numbers (option_copied test.entry) (option_copied step.entry)) out.old.items out.new.items }
{
    does_if(restores_step(turns), turns.place, Do::Restore, around, out)?;
    step_or_none(step, around, out)?;
    let a = test_or_one(test, around, out)?;
    let act = Do::Test {
        a,
        then: numbers.top,
        other: numbers.end,
        to: None,
        class: Class::Test,
    };
    does(around, turns.place, act, out)?;
    does(around, turns.place, Do::Exit, out)
}

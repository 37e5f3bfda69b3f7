//! What stands before the body of a loop, and what stands behind it (C17 6.8.5).
ghost use Rattle.std.specs.Prelude.{◌≡◌, length, IfOk};
ghost use Rattle.std.specs.Option.{option_copied};
ghost use Rattle.k_lower_code.specs.Loops.{step_or_none as step_or_none_meant, test_or_one as test_or_one_meant};
ghost use Rattle.k_lower_expressions.specs.Arounds.{inside_of, program_of};
ghost use Rattle.k_lower_expressions.specs.Emits.{Emitted, Emits};
ghost use Rattle.k_lower_turns.specs.Turns.{begins_turns, enters, leaves, numbers_of, shape};

use crate::choices::{step_size, test_size};
use crate::numbers::{Numbers, number_parts};
use crate::parts::{begin_body, does_if, end_body, test_again};
use crate::turns::Turns;
use k_code::{Do, Instr};
use k_lower_expressions::{Around, does, next_number};
use k_lower_statements::Site;
use k_num::{Box, NoMemory};
use k_types_meaning::TExpr;

/// Emits what stands before the first turn: the loop's region is entered, and where the loop begins with its test it is jumped to.
fn begin_turns(
    turns: Turns,
    numbers: Numbers,
    around: &Around<'_>,
    out: &mut Vec<Instr>,
) -> Result<(), NoMemory>
    ensures { Emits result (begins_turns (program_of around.now) turns numbers) out.old.items out.new.items }
{
    let act = Do::Enter {
        region: turns.region,
    };
    does(around, turns.place, act, out)?;
    let act = Do::Jump { to: numbers.test };
    does_if(turns.tested, turns.place, act, around, out)
}

/// Emits what stands before the body of a loop at this site, and answers where its parts stand.
pub fn enter(
    turns: Turns,
    test: Option<&Box<TExpr>>,
    step: Option<&Box<TExpr>>,
    site: Site,
    around: &Around<'_>,
    out: &mut Vec<Instr>,
) -> Result<Numbers, NoMemory>
    ensures numbers { IfOk result (λ n. n ≡ numbers_of (shape turns (step_or_none_meant (inside_of around.now) (option_copied step.entry)).size (test_or_one_meant (inside_of around.now) (option_copied test.entry)).size) site (length out.old.items)) }
    ensures code { IfOk result (λ n. Emitted {A = Unit {0}} tt (enters (program_of around.now) turns n) out.old.items out.new.items) }
{
    let first = next_number(out)?;
    let step = step_size(step, around)?;
    let test = test_size(test, around)?;
    let found = number_parts(turns, site, first, step, test)?;
    begin_turns(turns, found, around, out)?;
    begin_body(turns, around, out)?;
    Ok(found)
}

/// Emits what stands behind the body of a loop of which the parts stand so.
pub fn leave(
    turns: Turns,
    numbers: Numbers,
    test: Option<&Box<TExpr>>,
    step: Option<&Box<TExpr>>,
    around: &Around<'_>,
    out: &mut Vec<Instr>,
) -> Result<(), NoMemory>
    ensures { Emits result (leaves (inside_of around.now) turns numbers (option_copied test.entry) (option_copied step.entry)) out.old.items out.new.items }
{
    end_body(turns, numbers, around, out)?;
    test_again(turns, numbers, test, step, around, out)
}

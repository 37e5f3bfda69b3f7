//! Where the parts of a loop stand, counted before they are emitted.
ghost use Rattle.std.specs.Prelude.{◌≡◌, ◌≤◌, IfOk};
ghost use Rattle.k_lower_code.specs.Loops.{before_body as before_body_meant, before_turns as before_turns_meant, break_size as break_size_meant, one_if as one_if_meant, restores_step as restores_step_meant, saves_body as saves_body_meant};
ghost use Rattle.k_lower_code.specs.Stretches.{over_size as over_size_meant};
ghost use Rattle.k_lower_turns.specs.Turns.{before_step as before_step_meant, numbers_of, shape};

use crate::turns::Turns;
use k_lower_expressions::above;
use k_lower_statements::Site;
use k_num::NoMemory;

/// Where the parts of a loop stand: the site of its body, the first instruction of a turn, that of its test, and the one behind its test.
#[derive(Clone, Copy)]
pub struct Numbers {
    pub body: Site,
    pub top: u32,
    pub test: u32,
    pub end: u32,
}

/// One instruction, if it stands there.
fn one_if(there: bool) -> u32
    ensures is { result ≡ one_if_meant there }
    ensures small { result ≤ 1 }
{
    if there { 1 } else { 0 }
}

/// The size of the jump over the pads behind a text, where there are any.
fn over_size(pads: bool) -> u32
    ensures is { result ≡ over_size_meant pads }
    ensures small { result ≤ 1 }
{
    if pads { 1 } else { 0 }
}

/// The size of the pad of a `break`, and of the jump over it.
fn break_size(turns: Turns) -> u32
    ensures is { result ≡ break_size_meant (shape turns 0 0) }
    ensures small { result ≤ 3 }
{
    if turns.body.jumps.breaks { 3 } else { 0 }
}

/// Whether the control source is saved in front of the body.
pub(crate) fn saves_body(turns: Turns) -> bool
    ensures { result ≡ saves_body_meant (shape turns 0 0) }
{
    let jumps = turns.body.jumps;
    !turns.counted && (jumps.continues && !(jumps.breaks || jumps.returns))
}

/// Whether the control source is taken back before the step.
pub(crate) fn restores_step(turns: Turns) -> bool
    ensures { result ≡ restores_step_meant (shape turns 0 0) }
{
    turns.counted && turns.body.jumps.continues
}

/// How many instructions stand before the first turn.
fn before_turns(turns: Turns) -> u32
    ensures is { result ≡ before_turns_meant (shape turns 0 0) }
    ensures small { result ≤ 2 }
{
    1 + one_if(turns.tested)
}

/// How many instructions stand before the body's in a turn.
fn before_body(turns: Turns) -> u32
    ensures is { result ≡ before_body_meant (shape turns 0 0) }
    ensures small { result ≤ 3 }
{
    one_if(turns.counted) + one_if(saves_body(turns)) + 1
}

/// How many instructions stand between the `continue` of the body and the step.
fn before_step(turns: Turns) -> u32
    ensures is { result ≡ before_step_meant (shape turns 0 0) }
    ensures small { result ≤ 3 }
{
    1 + one_if(saves_body(turns)) + one_if(restores_step(turns))
}

/// Where the parts of a loop at this site stand that begins with the instruction of this number, and of which the step and the test have
/// these sizes.
pub(crate) fn number_parts(
    turns: Turns,
    site: Site,
    first: u32,
    step: u32,
    test: u32,
) -> Result<Numbers, NoMemory>
    ensures { IfOk result (λ n. n ≡ numbers_of (shape turns step test) site first) }
{
    let top = above(first, before_turns(turns))?;
    let body = above(top, before_body(turns))?;
    let behind = above(body, turns.body.size)?;
    let breaks = above(behind, over_size(turns.body.jumps.breaks))?;
    let continues = above(behind, break_size(turns))?;
    let before_step = above(continues, before_step(turns))?;
    let before_test = above(before_step, step)?;
    let behind_test = above(before_test, test)?;
    let end = above(behind_test, 1)?;
    let body = Site {
        objects: site.objects,
        breaks,
        continues,
    };
    Ok(Numbers {
        body,
        top,
        test: before_test,
        end,
    })
}

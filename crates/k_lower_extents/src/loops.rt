//! The extents of loops (C17 6.8.5).
ghost use Rattle.std.specs.Prelude.{◌≡◌, ◌≤◌, IfOk, slice_get};
ghost use Rattle.k_evaluation.specs.Loops.{stays_behind_loop};
ghost use Rattle.k_evaluation.specs.Meanings.{flag as flag_meant};
ghost use Rattle.k_lower_code.specs.Loops.{one_if as one_if_meant};
ghost use Rattle.k_lower_extents.specs.StatementSums.{around_body as around_body_meant, around_turns as around_turns_meant, inside_loop as inside_loop_meant, saves as saves_meant, source_loop as source_loop_meant, turned as turned_meant};

use crate::extent::{Extent, over_size, pad_size, settled_unless};
use crate::sums::{sum, sum_of_three};
use k_marks_meaning::Jumps;
use k_num::NoMemory;

/// A loop but for its body: whether it is counted, whether it begins with its test, and the sizes of its test and its step.
#[derive(Clone, Copy)]
pub(crate) struct Turns {
    pub counted: bool,
    pub tested: bool,
    pub test: u32,
    pub step: u32,
}

/// A mark that may not be there.
fn flag(marks: &[bool], number: u32) -> bool
    ensures { result ≡ flag_meant (slice_get marks.now number) }
{
    match marks.get(number as usize) {
        Some(mark) => *mark,
        None => false,
    }
}

/// One instruction, if it stands there.
fn one_if(there: bool) -> u32
    ensures is { result ≡ one_if_meant there }
    ensures small { result ≤ 1 }
{
    if there { 1 } else { 0 }
}

/// Whether the control source is saved in front of a body with these jumps.
fn saves(counted: bool, jumps: Jumps) -> bool
    ensures { result ≡ saves_meant counted jumps }
{
    !counted && (jumps.continues && !(jumps.breaks || jumps.returns))
}

/// The size of what stands around a body with these jumps: the entry of its region and the exits, the pad of a `break`, and what keeps the
/// control source.
fn around_body(counted: bool, jumps: Jumps) -> u32
    ensures is { result ≡ around_body_meant counted jumps }
    ensures small { result ≤ 8 }
{
    let restores = one_if(counted);
    let saves = one_if(saves(counted, jumps));
    let over = over_size(jumps.breaks);
    let pad = pad_size(jumps.breaks);
    restores + saves + 1 + over + pad + 1 + saves
}

/// The size of what stands around the turns of a loop: the entry of its region and the exit, the jump to its test, the test, and what
/// takes the control source back before its step.
fn around_turns(counted: bool, tested: bool, jumps: Jumps) -> u32
    ensures is { result ≡ around_turns_meant counted tested jumps }
    ensures small { result ≤ 5 }
{
    let restores = one_if(counted && jumps.continues);
    let jump = one_if(tested);
    restores + jump + 3
}

/// A loop in its region.
fn inside_loop(turns: Turns, body: Extent) -> Result<Extent, NoMemory>
    ensures { IfOk result (λ x. x ≡ inside_loop_meant turns body) }
{
    let around = around_body(turns.counted, body.jumps)
        + around_turns(turns.counted, turns.tested, body.jumps);
    let turn = sum_of_three(around, body.size, turns.step)?;
    let size = sum(turn, turns.test)?;
    Ok(Extent {
        size,
        jumps: Jumps {
            breaks: false,
            continues: false,
            returns: body.jumps.returns,
        },
        opens: 0,
    })
}

/// A loop: the control source behind it stays where its body may return, if it is not counted.
fn turned(turns: Turns, body: Extent) -> Result<Extent, NoMemory>
    ensures { IfOk result (λ x. x ≡ turned_meant turns body) }
{
    let text = inside_loop(turns, body)?;
    settled_unless(!turns.counted && body.jumps.returns, text)
}

/// The loop of this number, with a test and a step of these sizes, where these loops are counted.
pub(crate) fn source_loop(
    counted: &[bool],
    number: u32,
    tested: bool,
    test: u32,
    step: u32,
    body: Extent,
) -> Result<Extent, NoMemory>
    ensures { IfOk result (λ x. x ≡ source_loop_meant counted.now number tested test step body) }
{
    let turns = Turns {
        counted: flag(counted, number),
        tested,
        test,
        step,
    };
    turned(turns, body)
}

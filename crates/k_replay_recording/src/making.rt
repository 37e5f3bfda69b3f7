//! The step of an operation.
ghost use Rattle.std.specs.Prelude.{◌≡◌, IfOk};
ghost use Rattle.k_replay_recording.specs.Steps.{step_of};
ghost use Rattle.k_world.specs.Answers.{act_of};

use crate::acts::recorded;
use crate::operands::operands;
use k_num::NoMemory;
use k_replay_record::Step;
use k_world::{ActRef, Done, Read};
use std::alloc::Global;

/// The step of an operation that was made with these operands.
pub fn step(alloc: Global, act: ActRef<'_>, reads: &[Read], done: &Done) -> Result<Step, NoMemory>
    ensures { IfOk result (λ s. s ≡ step_of (act_of act.entry) reads.now done.now.hidden done.now.control done.now.held.value) }
{
    let operands = operands(alloc, act, reads, done)?;
    let act = recorded(alloc, act, done.held.value)?;
    Ok(Step { act, operands })
}

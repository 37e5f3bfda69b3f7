//! What an operation answers.

use crate::{Held, Value};
use k_ending::{End, Trap};
use k_num::NoMemory;
use std::alloc::AllocError;

/// An operation that was made: what it gave, and the sources of the operands that its construct does not write. Its other
/// sources are those of the operands that it read.
#[derive(Clone, Copy, Debug, PartialEq, Eq)]
pub struct Done {
    /// The value, with the operation's own number as its source.
    pub held: Held,
    /// The source of the element that was loaded, or of the cell IN or OUT.
    pub hidden: Option<u64>,
    /// The control source under which the operation was made.
    pub control: Option<u64>,
    /// The number of the element that a load read or a store wrote.
    pub element: Option<u32>,
}

/// Why a part of a run doesn't go on.
#[derive(Clone, Copy, Debug)]
pub enum Stop {
    /// The run has ended.
    Ended(End),
    /// No memory was found.
    Memory,
}

/// An act that had a value.
#[derive(Clone, Copy, Debug)]
pub(crate) struct Performed {
    pub value: Value,
    pub hidden: Option<u64>,
    pub element: Option<u32>,
}

/// Why an act had no value.
#[derive(Clone, Copy, Debug)]
pub(crate) enum Refusal {
    /// It traps.
    Trapped(Trap),
    /// No memory was found.
    Memory,
}

impl From<NoMemory> for Refusal {
    ghost use Rattle.std.specs.Prelude.{◌≡◌};
    ghost use Rattle.k_world.specs.declared.answer.Refusal.TheVariants.{Memory};

    ghost from_gives = { λ _ refusal. refusal ≡ Memory };

    fn from(_error: NoMemory) -> Refusal {
        Refusal::Memory
    }
}

impl From<AllocError> for Refusal {
    ghost use Rattle.std.specs.Prelude.{◌≡◌};
    ghost use Rattle.k_world.specs.declared.answer.Refusal.TheVariants.{Memory};

    ghost from_gives = { λ _ refusal. refusal ≡ Memory };

    fn from(_error: AllocError) -> Refusal {
        Refusal::Memory
    }
}

impl From<NoMemory> for Stop {
    ghost use Rattle.std.specs.Prelude.{◌≡◌};
    ghost use Rattle.k_world.specs.declared.answer.Stop.TheVariants.{Memory};

    ghost from_gives = { λ _ stop. stop ≡ Memory };

    fn from(_error: NoMemory) -> Stop {
        Stop::Memory
    }
}

//! Which operations can be given, once others were given or fired.
ghost use Rattle.std.specs.Prelude.{◌≡◌, ◌<◌, ℕ, false, length, slice_index_or};
ghost use Rattle.std.specs.List.{All};
ghost use Rattle.k_replay.specs.Kept.{Renews};
ghost use Rattle.k_replay.specs.Plays.{can_give as can_give_in};

use crate::ready_set::ReadySet;
use crate::sources::can_give;
use k_replay_record::{Datum, Step};

/// Finds out for each operation whether it can be given.
pub(crate) fn renew_all(
    steps: &[Step],
    held: &[Option<u64>],
    values: &[Option<Datum>],
    ready: &mut ReadySet,
)
    requires { length ready.old ≡ length steps.now }
    ensures lengths { length ready.new ≡ length steps.now }
    ensures ready { (k : ℕ) → slice_index_or ready.new k false ≡ can_give_in steps.now held.now values.now k }
{
    for k in 0..steps.len() {
        ready.set(k, can_give(steps, held, values, k as u64));
    }
}

/// Finds out for these operations whether each can be given.
pub(crate) fn renew(
    steps: &[Step],
    held: &[Option<u64>],
    values: &[Option<Datum>],
    numbers: &[u64],
    ready: &mut ReadySet,
)
    requires { All (λ k. k < length ready.old) numbers.now }
    ensures { Renews numbers.now (can_give_in steps.now held.now values.now) ready.old ready.new }
{
    for k in numbers {
        ready.set(*k as usize, can_give(steps, held, values, *k));
    }
}

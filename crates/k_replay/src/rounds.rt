//! The schedule of workers: rounds, in each of which every worker acts once.
ghost use Rattle.std.specs.Prelude.{◌≡◌, ◌+◌, ◌<◌, ◌≤◌, ◌^◌, ◌/◌, ◌%◌, ℕ, IfOk, OnOk, length};
ghost use Rattle.k_gen.specs.Draw.{next as next_of};
ghost use Rattle.k_replay.specs.Progress.{Moves, MovesAll};
ghost use Rattle.k_replay.specs.Rounds.{Acts, IsSchedule, Turn, Turns, in_turn as in_turn_of, tallied};
ghost use Rattle.k_replay.specs.Orders.{Fired, Took};
ghost use Rattle.k_replay.specs.declared.answer.Deal.TheVariants.{Idle};

use crate::answer::{Deal, FireFault};
use crate::replay::Core;
use k_num::{NoMemory, Seq};
use std::alloc::Global;

/// What a worker did: how many operations it fired, and how often there was none to give it.
#[derive(Clone, Copy, Debug, PartialEq, Eq)]
pub struct Tally {
    pub fired: u64,
    pub idle: u64,
}

/// How a run was fired: in how many rounds, and what each worker did.
#[derive(Debug, Drop)]
pub struct Schedule {
    pub rounds: u64,
    pub tallies: Seq<Tally>,
}

/// Lets all workers act in rounds until no operation is left. Each round begins with the worker that the next draw from the
/// seed tells.
pub fn run_rounds(
    alloc: Global,
    core: &mut Core<'_>,
    workers: u32,
    seed: u64,
) -> Result<Schedule, NoMemory>
    requires workers { workers ≡ length core.old.held }
    requires some { 1 ≤ workers }
    requires few { workers ≤ 16 }
    ensures { IfOk result (λ schedule. IsSchedule seed workers core.old core.new schedule) }
{
    let mut tallies = Vec::from_elem(alloc, Tally { fired: 0, idle: 0 }, workers as usize)?;
    let mut state = seed % 2_147_483_648;
    let mut rounds = 0;
    while core.left() > 0 {
        state = next_round(core, &mut tallies, workers, state)?;
        rounds = one_more(rounds)?;
    }
    Ok(Schedule {
        rounds,
        tallies: Seq::from_vec(tallies),
    })
}

/// What comes behind a number of the row of draws.
#[tactic(auto, unfolding(k_gen::specs::Draw::next))]
fn next(state: u64) -> u64
    requires { state < 2 ^ 31 }
    ensures value { result ≡ next_of state }
    ensures below { result < 2 ^ 31 }
{
    (state * 1_103_515_245 + 12_345) % 2_147_483_648
}

/// The worker that a draw tells.
fn first(state: u64, workers: u32) -> u32
    requires { 1 ≤ workers }
    ensures value { result ≡ (state / 65536) % workers }
    ensures below { result < workers }
{
    ((state / 65_536) % u64::from(workers)) as u32
}

/// A number and one more.
fn one_more(number: u64) -> Result<u64, NoMemory>
    ensures { IfOk result (λ n. n ≡ number + 1) }
{
    match number.checked_add(1) {
        Some(more) => Ok(more),
        None => Err(NoMemory),
    }
}

/// A round behind this number of the row of draws: it begins with the worker that the next one tells, which is answered.
fn next_round(
    core: &mut Core<'_>,
    tallies: &mut Vec<Tally>,
    workers: u32,
    state: u64,
) -> Result<u64, NoMemory>
    requires state { state < 2 ^ 31 }
    requires workers { workers ≡ length core.old.held }
    requires some { 1 ≤ workers }
    requires few { workers ≤ 16 }
    requires tallies { length tallies.old.items ≡ workers }
    ensures next { IfOk result (λ drawn. drawn ≡ next_of state) }
    ensures below { IfOk result (λ drawn. drawn < 2 ^ 31) }
    ensures turns { OnOk result (Turns workers ((next_of state / 65536) % workers) workers (record { play = core.old; tallies = tallies.old.items }) (record { play = core.new; tallies = tallies.new.items })) }
    ensures moves { OnOk result (MovesAll workers core.old core.new) }
    ensures workers { OnOk result (length core.new.held ≡ workers) }
    ensures tallies { OnOk result (length tallies.new.items ≡ workers) }
{
    let drawn = next(state);
    round(core, tallies, workers, first(drawn, workers))?;
    Ok(drawn)
}

/// Every worker has its turn.
fn round(
    core: &mut Core<'_>,
    tallies: &mut Vec<Tally>,
    workers: u32,
    first: u32,
) -> Result<(), NoMemory>
    requires workers { workers ≡ length core.old.held }
    requires few { workers ≤ 16 }
    requires first { first < workers }
    requires tallies { length tallies.old.items ≡ workers }
    ensures turns { OnOk result (Turns workers first workers (record { play = core.old; tallies = tallies.old.items }) (record { play = core.new; tallies = tallies.new.items })) }
    ensures moves { OnOk result (MovesAll workers core.old core.new) }
    ensures workers { OnOk result (length core.new.held ≡ workers) }
    ensures tallies { OnOk result (length tallies.new.items ≡ workers) }
{
    for i in 0..workers {
        turn(core, tallies, in_turn(workers, first, i))?;
    }
    Ok(())
}

/// The worker whose turn it is.
fn in_turn(workers: u32, first: u32, i: u32) -> u32
    requires first { first < workers }
    requires within { i < workers }
    requires few { workers ≤ 16 }
    ensures value { result ≡ in_turn_of workers first i }
    ensures below { result < workers }
{
    if first + i < workers {
        first + i
    } else {
        first + i - workers
    }
}

/// A worker fires the operation that it holds, or takes one.
fn turn(core: &mut Core<'_>, tallies: &mut Vec<Tally>, worker: u32) -> Result<(), NoMemory>
    requires within { worker < length core.old.held }
    requires few { length core.old.held ≤ 16 }
    requires tally { worker < length tallies.old.items }
    ensures turn { OnOk result (Turn worker (record { play = core.old; tallies = tallies.old.items }) (record { play = core.new; tallies = tallies.new.items })) }
    ensures moves { OnOk result (Moves worker core.old core.new) }
    ensures workers { OnOk result (length core.new.held ≡ length core.old.held) }
    ensures tallies { OnOk result (length tallies.new.items ≡ length tallies.old.items) }
{
    if core.left() == 0 {
        return Ok(());
    }
    act(core, tallies, worker)?;
    Ok(())
}

/// A worker does what it has to do, and it is counted.
fn act(core: &mut Core<'_>, tallies: &mut Vec<Tally>, worker: u32) -> Result<(), NoMemory>
    requires within { worker < length core.old.held }
    requires tally { worker < length tallies.old.items }
    ensures acts { OnOk result (Acts worker (record { play = core.old; tallies = tallies.old.items }) (record { play = core.new; tallies = tallies.new.items })) }
    ensures tallies { OnOk result (length tallies.new.items ≡ length tallies.old.items) }
{
    match core.fire(worker) {
        Ok(_k) => count_fired(tallies, worker)?,
        Err(FireFault::NoneHeld) => match core.take(worker) {
            Deal::Idle => count_idle(tallies, worker)?,
            Deal::Given(_k) => {}
            Deal::Held(_k) => {}
        },
        Err(FireFault::Memory) => return Err(NoMemory),
    }
    Ok(())
}

/// A worker fired an operation.
fn count_fired(tallies: &mut Vec<Tally>, worker: u32) -> Result<(), NoMemory>
    requires { worker < length tallies.old.items }
    ensures tallied { OnOk result ((k : ℕ) → tallies.new.items ≡ tallied (Fired worker (Ok k)) tallies.old.items) }
    ensures lengths { OnOk result (length tallies.new.items ≡ length tallies.old.items) }
{
    let tally = tallies[worker as usize];
    tallies[worker as usize] = Tally {
        fired: one_more(tally.fired)?,
        idle: tally.idle,
    };
    Ok(())
}

/// There was no operation to give a worker.
fn count_idle(tallies: &mut Vec<Tally>, worker: u32) -> Result<(), NoMemory>
    requires { worker < length tallies.old.items }
    ensures tallied { OnOk result (tallies.new.items ≡ tallied (Took worker Idle) tallies.old.items) }
    ensures lengths { OnOk result (length tallies.new.items ≡ length tallies.old.items) }
{
    let tally = tallies[worker as usize];
    tallies[worker as usize] = Tally {
        fired: tally.fired,
        idle: one_more(tally.idle)?,
    };
    Ok(())
}

//! The lines of a schedule, behind a program's output.
ghost use Rattle.std.specs.Prelude.{◌≡◌, ◌++◌, IfOk, OnOk};
ghost use Rattle.k_replay_text.specs.Lines.{ends_line, replay_text, schedule_lines, with_report, worker_line, worker_lines};

use k_num::NoMemory;
use k_replay::{Schedule, Tally};
use k_text::{push, push_line, push_named};
use std::alloc::Global;

/// The line of a worker.
fn push_worker(text: &mut Vec<u8>, worker: usize, tally: Tally) -> Result<(), NoMemory>
    ensures { OnOk result (text.new.items ≡ text.old.items ++ worker_line worker tally) }
{
    push_named(text, "worker ", worker)?;
    push_named(text, " fired ", tally.fired)?;
    push_line(text, " idle ", tally.idle)
}

/// The lines of all workers.
fn push_workers(text: &mut Vec<u8>, tallies: &[Tally]) -> Result<(), NoMemory>
    ensures { OnOk result (text.new.items ≡ text.old.items ++ worker_lines 0 tallies.now) }
{
    for (worker, tally) in tallies.iter().enumerate() {
        push_worker(text, worker, *tally)?;
    }
    Ok(())
}

/// The lines of a schedule, by which so many operations were fired, of a run whose main returned this.
fn schedule_lines(
    alloc: Global,
    ops: u64,
    exit: i32,
    schedule: &Schedule,
) -> Result<Vec<u8>, NoMemory>
    ensures { IfOk result (λ text. text.items ≡ schedule_lines ops exit schedule.now) }
{
    let mut text = Vec::new(alloc);
    push(&mut text, "== replay ==\n")?;
    push_line(&mut text, "ops ", ops)?;
    push_line(&mut text, "rounds ", schedule.rounds)?;
    push_workers(&mut text, schedule.tallies.as_slice())?;
    push_line(&mut text, "exit ", exit)?;
    Ok(text)
}

/// Whether a text is empty or ends in a newline.
fn ends_line(text: &[u8]) -> bool
    ensures { result ≡ ends_line text.now }
{
    match text.split_last() {
        Some((byte, _)) => *byte == b'\n',
        None => true,
    }
}

/// Lines behind a program's output, which begin on a line of their own.
pub fn with_report(alloc: Global, output: &[u8], report: &[u8]) -> Result<Vec<u8>, NoMemory>
    ensures { IfOk result (λ text. text.items ≡ with_report output.now report.now) }
{
    let mut text = Vec::from_slice(alloc, output)?;
    if !ends_line(output) {
        text.push(b'\n')?;
    }
    text.extend_from_slice(report)?;
    Ok(text)
}

/// The output of a run whose main returned this, and behind it how workers fired its operations: `== replay ==`, the counts of operations and of rounds,
/// what each worker did, and what main returned, a line each.
pub fn replay_text(
    alloc: Global,
    output: &[u8],
    ops: u64,
    exit: i32,
    schedule: &Schedule,
) -> Result<Vec<u8>, NoMemory>
    ensures { IfOk result (λ text. text.items ≡ replay_text output.now ops exit schedule.now) }
{
    let lines = schedule_lines(alloc, ops, exit, schedule)?;
    with_report(alloc, output, lines.as_slice())
}

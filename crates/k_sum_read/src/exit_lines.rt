//! The lines of exit values.
ghost use Rattle.std.specs.Prelude.{◌≡◌, ◌≤◌, ◌-◌, [], ◌↔◌, IsTrue, option_map};
ghost use Rattle.k_dict_saved.specs.Reading.{seen};
ghost use Rattle.k_scan.specs.Pieces.{Finds};
ghost use Rattle.k_sum.specs.Exits.{total as runs_of_all};
ghost use Rattle.k_sum_read.specs.Reading.{AllExits, LastIsLower, NextExit};
ghost use Rattle.k_sum_saved.specs.SumRules.{AreBehind};
ghost use Rattle.k_sum_saved.specs.ExitLine.{exit_line_at};

use k_dict_saved::Halt;
use k_num::{NoMemory, Seq};
use k_scan::{number, signed, word};
use k_sum::Exit;
use std::alloc::Global;

/// The line of an exit value by its structure.
#[tactic(auto, unfolding(k_sum_saved::specs::ExitLine::exit_line_at))]
fn exit_line(text: &[u8]) -> Option<(Exit, &[u8])>
    ensures { Finds (λ found. (found.0, found.1.now)) result (exit_line_at text.now) }
{
    let (value, rest) = signed(text)?;
    let rest = word(b" ", rest)?;
    let (runs, rest) = number(rest)?;
    let rest = word(b"\n", rest)?;
    Some((Exit { value, runs }, rest))
}

/// Whether the last of exit values is lower than this one.
fn is_higher(exits: &[Exit], value: i32) -> bool
    ensures { IsTrue result ↔ LastIsLower exits.now value }
{
    match exits.split_last() {
        None => true,
        Some((last, _)) => last.value < value,
    }
}

/// Whether an exit value may stand behind these, which so many runs of all ended with.
fn may_stand(runs: u64, total: u64, exits: &[Exit], exit: Exit) -> bool
    requires few { total ≤ runs }
    ensures { IsTrue result ↔ (LastIsLower exits.now exit.value × (1 ≤ exit.runs) × (exit.runs ≤ runs - total)) }
{
    is_higher(exits, exit.value) && 1 <= exit.runs && exit.runs <= runs - total
}

/// The line of an exit value that may stand behind these, which so many runs of all ended with.
fn next_exit<'a>(runs: u64, total: u64, exits: &[Exit], text: &'a [u8]) -> Option<(Exit, &'a [u8])>
    requires most { runs ≤ 4294967295 }
    requires total { total ≡ runs_of_all exits.now }
    requires few { total ≤ runs }
    requires behind { AreBehind runs [] exits.now }
    ensures { NextExit runs exits.now text.now (option_map (λ found. (found.0, found.1.now)) result) }
{
    match exit_line(text) {
        None => None,
        Some((exit, rest)) => {
            if may_stand(runs, total, exits, exit) {
                Some((exit, rest))
            } else {
                None
            }
        }
    }
}

/// The lines of so many exit values, and how many runs ended with them.
pub(crate) fn exits(
    alloc: Global,
    runs: u64,
    count: u64,
    text: &[u8],
) -> Result<(Seq<Exit>, u64, &[u8]), Halt>
    requires { runs ≤ 4294967295 }
    ensures { AllExits runs count text.now (seen (λ found. (found.0, found.1, found.2.now)) result) }
{
    let mut exits: Seq<Exit> = Seq::new(alloc);
    let mut total = 0;
    let mut rest = text;
    'lines: while (exits.len() as u64) < count {
        let Some((exit, behind)) = next_exit(runs, total, exits.as_slice(), rest) else {
            return Err(Halt::Wrong(rest.len()));
        };
        total += exit.runs;
        if let Err(NoMemory) = exits.push(exit) {
            return Err(Halt::Memory);
        }
        rest = behind;
    }
    Ok((exits, total, rest))
}

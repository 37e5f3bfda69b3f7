//! The lines before the regions: how many runs there were, how they ended, and how many operations they made.
ghost use Rattle.std.specs.Prelude.{◌≤◌, option_map};
ghost use Rattle.k_dict_saved.specs.Reading.{seen};
ghost use Rattle.k_sum_read.specs.Reading.{FoundCounts, FoundHead, FoundOps};

use crate::exit_lines::exits;
use k_dict_saved::{Halt, named};
use k_num::Seq;
use k_scan::word;
use k_sum::Exit;
use std::alloc::Global;

/// What the lines before the regions tell.
#[derive(Drop)]
pub(crate) struct Counts {
    /// How many runs there were.
    pub runs: u64,
    /// How many of them ended with each exit value.
    pub exits: Seq<Exit>,
    /// How many operations they made.
    pub ops: u64,
}

/// The lines up to the exit values: how many runs there were, and how many values they ended with.
fn count_lines(text: &[u8]) -> Result<(u64, u64, &[u8]), Halt>
    ensures { FoundCounts text.now (seen (λ found. (found.0, found.1, found.2.now)) result) }
{
    let Some(runs_text) = word(b"kremlin sum 1\n", text) else {
        return Err(Halt::Wrong(text.len()));
    };
    let Some((runs, exits_text)) = named(b"runs ", 1, 4_294_967_295, runs_text) else {
        return Err(Halt::Wrong(runs_text.len()));
    };
    let Some((count, rest)) = named(b"exits ", 1, runs, exits_text) else {
        return Err(Halt::Wrong(exits_text.len()));
    };
    Ok((runs, count, rest))
}

/// The line with the number of operations, behind exit values that so many runs of all ended with.
fn ops_line(runs: u64, total: u64, text: &[u8]) -> Option<(u64, &[u8])>
    requires { runs ≤ 4294967295 }
    ensures { FoundOps runs total text.now (option_map (λ found. (found.0, found.1.now)) result) }
{
    if total == runs {
        named(b"ops ", 0, 1_000_000_000 * runs, text)
    } else {
        None
    }
}

/// The lines before the regions.
pub(crate) fn head(alloc: Global, text: &[u8]) -> Result<(Counts, &[u8]), Halt>
    ensures { FoundHead text.now (seen (λ found. (found.0, found.1.now)) result) }
{
    match count_lines(text) {
        Err(halt) => Err(halt),
        Ok((runs, count, exit_text)) => match exits(alloc, runs, count, exit_text) {
            Err(halt) => Err(halt),
            Ok((list, total, ops_text)) => match ops_line(runs, total, ops_text) {
                None => {
                    drop(list);
                    Err(Halt::Wrong(ops_text.len()))
                }
                Some((ops, rest)) => Ok((
                    Counts {
                        runs,
                        exits: list,
                        ops,
                    },
                    rest,
                )),
            },
        },
    }
}

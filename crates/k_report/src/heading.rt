//! What the first lines of a report tell.
ghost use Rattle.std.specs.Prelude.{◌≡◌, ◌++◌, OnOk};
ghost use Rattle.k_report.specs.Report.{runs_title, title_text};

use k_num::NoMemory;
use k_text::{push_head, push_line};

/// What a report is on: one run, which is told by what main returned, or so many runs together.
#[derive(Clone, Copy, Debug, PartialEq, Eq)]
pub enum Heading {
    Exit(i32),
    Runs(u64),
}

/// The first lines of a report on so many runs.
fn push_runs_title(text: &mut Vec<u8>, runs: u64, ops: u64) -> Result<(), NoMemory>
    ensures { OnOk result (text.new.items ≡ text.old.items ++ runs_title runs ops) }
{
    push_line(text, "== kremlin ==\nruns ", runs)?;
    push_line(text, "ops ", ops)
}

/// The first lines of a report.
pub(crate) fn push_title(text: &mut Vec<u8>, heading: Heading, ops: u64) -> Result<(), NoMemory>
    ensures { OnOk result (text.new.items ≡ text.old.items ++ title_text heading ops) }
{
    match heading {
        Heading::Exit(exit) => push_head(text, "== kremlin ==\n", exit, ops),
        Heading::Runs(runs) => push_runs_title(text, runs, ops),
    }
}

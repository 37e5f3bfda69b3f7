//! Runs at the end of a text.
ghost use Rattle.std.specs.Prelude.{◌≡◌, ◌++◌, OnOk};
ghost use Rattle.std.specs.List.{flat_map};
ghost use Rattle.k_text.specs.Texts.{run_text};

use crate::numbers::push_named;
use k_dict_entries::Run;
use k_num::NoMemory;

/// A run behind a space.
fn push_run(text: &mut Vec<u8>, run: Run) -> Result<(), NoMemory>
    ensures { OnOk result (text.new.items ≡ text.old.items ++ run_text run) }
{
    push_named(text, " ", run.entry)?;
    push_named(text, "*", run.count)
}

/// Runs, each behind a space.
pub fn push_runs(text: &mut Vec<u8>, runs: &[Run]) -> Result<(), NoMemory>
    ensures { OnOk result (text.new.items ≡ text.old.items ++ flat_map run_text runs.now) }
{
    for run in runs {
        push_run(text, *run)?;
    }
    Ok(())
}

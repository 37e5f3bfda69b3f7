//! The lines of a dictionary.
ghost use Rattle.std.specs.Prelude.{◌≡◌, ◌++◌, OnOk};
ghost use Rattle.std.specs.Option.{option_copied};
ghost use Rattle.k_report.specs.DictLines.{dict_text, entry_line, entry_lines};

use k_dict_entries::{Dict, Entry};
use k_num::NoMemory;
use k_text::{push, push_line, push_named, push_number, push_runs};

/// The line of an entry.
fn push_entry(text: &mut Vec<u8>, number: u32, entry: &Entry) -> Result<(), NoMemory>
    ensures { OnOk result (text.new.items ≡ text.old.items ++ entry_line number entry.now) }
{
    push_number(text, number)?;
    push_named(text, " region ", entry.region)?;
    push_named(text, " work ", entry.work)?;
    push_named(text, " path ", entry.path)?;
    push(text, " runs")?;
    push_runs(text, entry.runs.as_slice())?;
    push(text, "\n")
}

/// The lines of all entries.
fn push_entries(text: &mut Vec<u8>, dict: &Dict) -> Result<(), NoMemory>
    ensures { OnOk result (text.new.items ≡ text.old.items ++ entry_lines 0 dict.now) }
{
    for number in 0..dict.len() {
        push_entry(text, number, dict.entry(number))?;
    }
    Ok(())
}

/// The lines of a dictionary, where one is given.
pub(crate) fn push_dict(text: &mut Vec<u8>, dict: Option<&Dict>) -> Result<(), NoMemory>
    ensures { OnOk result (text.new.items ≡ text.old.items ++ dict_text (option_copied dict.entry)) }
{
    let Some(dict) = dict else {
        return Ok(());
    };
    push_line(text, "dict ", dict.len())?;
    push_entries(text, dict)
}

//! The arguments of `merge`, all of which name files.
ghost use Rattle.std.specs.Prelude.{◌≡◌, ◌≤◌, [], length, MatchResult, IfNone, IfOk, OnOk, Some};
ghost use Rattle.k_words.specs.Parts.{all_times, parts_of, place_of, with_file};
ghost use Rattle.k_words.specs.Settings.{IsFirst, seen_words};
ghost use Rattle.k_words.specs.Words.{AreRight, merge_fault, merged_fault};

use crate::job::is_no_file;
use crate::usage::Usage;
use k_num::{NoMemory, Seq, Text};
use std::alloc::Global;

/// A file whose runs are put together with those of others, and how often they count.
#[derive(Debug, PartialEq, Eq, Drop)]
pub struct Part {
    pub file: Text,
    /// How often the file is named.
    pub times: u32,
}

/// So many files are put together at most.
const MOST_FILES: u32 = 4_096;

/// What is wrong with an argument of this number: the first three have to be there.
fn merged_fault(word: &str, number: u32) -> Option<Usage>
    requires { number ≤ 4097 }
    ensures fault { result ≡ merged_fault (Some word.now) number }
    ensures few { IfNone result (number ≤ 4096) }
{
    let is_none = is_no_file(word);
    if number < 3 {
        if is_none { Some(Usage::NoFile) } else { None }
    } else if is_none || MOST_FILES < number {
        Some(Usage::UnknownWord(number + 1))
    } else {
        None
    }
}

/// Whether each argument names a file, and none is missing or one too many: what is wrong with the first for which this is not so.
pub(crate) fn are_files(arguments: &[String]) -> Result<(), Usage>
    ensures { MatchResult result (λ right. AreRight (merge_fault (seen_words arguments.now))) (IsFirst (merge_fault (seen_words arguments.now))) }
{
    let mut number = 0;
    'words: for word in arguments {
        if let Some(fault) = merged_fault(word.as_str(), number) {
            return Err(fault);
        }
        number += 1;
    }
    if number < 3 {
        return Err(Usage::NoFile);
    }
    Ok(())
}

/// The place of a file among others, or that behind them where it is none of them.
fn place_of(parts: &[Part], file: &str) -> usize
    ensures { result ≡ place_of parts.now file.now }
{
    let mut place = 0;
    let mut rest = parts;
    while let Some((part, later)) = rest.split_first() {
        if part.file.as_str() == file {
            return place;
        }
        place += 1;
        rest = later;
    }
    place
}

/// Names a file once more.
fn name_file(alloc: Global, parts: &mut Vec<Part>, file: &str) -> Result<(), NoMemory>
    requires { all_times parts.old.items ≤ 4096 }
    ensures { OnOk result (parts.new.items ≡ with_file parts.old.items file.now) }
{
    let place = place_of(parts.as_slice(), file);
    if place < parts.len() {
        let times = &mut parts[place].times;
        *times += 1;
    } else {
        let file = Text::copy_of(alloc, file)?;
        parts.push(Part { file, times: 1 })?;
    }
    Ok(())
}

/// The files that words name, each once, in the order in which they are named first.
pub(crate) fn parts_of(alloc: Global, words: &[String]) -> Result<Seq<Part>, NoMemory>
    requires { length words.now ≤ 4096 }
    ensures { IfOk result (λ parts. parts ≡ parts_of [] (seen_words words.now)) }
{
    let mut parts = Vec::new(alloc);
    for word in words {
        name_file(alloc, &mut parts, word.as_str())?;
    }
    Ok(Seq::from_vec(parts))
}

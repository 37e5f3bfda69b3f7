//! The answer of `merge`: the runs of saved profiles and sums are put together, file by file, and their sum is saved.
ghost use Rattle.std.specs.Prelude.{IfOk};
ghost use Rattle.k_sum_saved.specs.Merged.{IsMerged};
ghost use Rattle.k_top_lemmas.specs.Merges.{FindsOthers, FindsSum, LoadsRuns, MergesFiles, added_to, first_runs_of};
ghost use Rattle.k_words.specs.Parts.{AreNamedOnce};

use crate::adding::{finished, first_runs, next_runs};
use k_edge::Files;
use k_num::{Seq, Text};
use k_sum::{Sum, write};
use k_top_answers::{Answer, Failure};
use k_top_programs::{PROFILE_LIMIT, load};
use k_words::{Part, Usage};
use std::alloc::Global;

/// The runs of the first file, as often as it is named.
fn load_first<F: Files>(alloc: Global, files: &mut F, part: &Part) -> Result<Sum, Failure>
    ensures loads { LoadsRuns (first_runs_of part.now) result part.now.file (F.seen files.old) (F.seen files.new) }
    ensures merged { IfOk result IsMerged }
{
    let name = Text::copy_of(alloc, part.file.as_str())?;
    let bytes = load(alloc, files, name, PROFILE_LIMIT)?;
    first_runs(alloc, bytes.as_slice(), part)
}

/// The sum with the runs of another file, as often as it is named.
fn load_next<F: Files>(alloc: Global, files: &mut F, part: &Part, sum: Sum) -> Result<Sum, Failure>
    requires { IsMerged sum }
    ensures loads { LoadsRuns (added_to sum part.now) result part.now.file (F.seen files.old) (F.seen files.new) }
    ensures merged { IfOk result IsMerged }
{
    let name = Text::copy_of(alloc, part.file.as_str())?;
    let bytes = load(alloc, files, name, PROFILE_LIMIT)?;
    next_runs(alloc, bytes.as_slice(), part, sum)
}

/// The sum of runs, of which the last are of this file, and of those of the files behind it.
fn with_others<'a, F: Files>(
    alloc: Global,
    files: &mut F,
    parts: &'a [Part],
    last: &'a Part,
    sum: Sum,
) -> Result<Sum, Failure>
    requires once { AreNamedOnce parts.now }
    requires merged { IsMerged sum }
    ensures { FindsOthers result parts.now last.now.file sum (F.seen files.old) (F.seen files.new) }
{
    let mut sum = sum;
    let mut last = last;
    let mut rest = parts;
    while let Some((part, later)) = rest.split_first() {
        sum = match load_next(alloc, files, part, sum) {
            Ok(sum) => sum,
            Err(failure) => return Err(failure),
        };
        last = part;
        rest = later;
    }
    finished(alloc, sum, last.file.as_str())
}

/// The sum of the runs of files, each as often as it is named.
fn sum_of_parts<F: Files>(alloc: Global, files: &mut F, parts: &[Part]) -> Result<Sum, Failure>
    requires { AreNamedOnce parts.now }
    ensures { FindsSum result parts.now (F.seen files.old) (F.seen files.new) }
{
    let Some((first, others)) = parts.split_first() else {
        return Err(Failure::Usage(Usage::NoFile));
    };
    match load_first(alloc, files, first) {
        Ok(sum) => with_others(alloc, files, others, first, sum),
        Err(failure) => Err(failure),
    }
}

/// The answer of `merge` on files, whose sum is saved under this name.
pub fn merge_answer<F: Files>(
    alloc: Global,
    files: &mut F,
    save: Text,
    parts: &Seq<Part>,
) -> Result<Answer, Failure>
    requires { AreNamedOnce parts.now }
    ensures { MergesFiles result save parts.now (F.seen files.old) (F.seen files.new) }
{
    let sum = sum_of_parts(alloc, files, parts.as_slice())?;
    let bytes = write(alloc, &sum)?;
    Ok(Answer::saving(alloc, save, bytes))
}

//! The runs of files, read from their bytes and put together.
ghost use Rattle.std.specs.Prelude.{◌<◌, IfOk, OnOk, Ok};
ghost use Rattle.k_sum_read.specs.AnyFile.{ReadsAny};
ghost use Rattle.k_sum_saved.specs.Merged.{IsMerged};
ghost use Rattle.k_top_lemmas.specs.Merges.{AddsOnce, AddsTimes, FinishesSum, GivesRuns, ReadsRuns, added_to, first_runs_of};

use crate::refusing::{not_added, not_finished, refused};
use k_sum::{Sum, SumFault};
use k_sum_merge::{finish, merge};
use k_sum_read::read_any;
use k_top_answers::Failure;
use k_words::Part;
use std::alloc::Global;

/// The sum of the runs that the bytes of a file of this name tell of.
fn read_runs(alloc: Global, bytes: &[u8], name: &str) -> Result<Sum, Failure>
    ensures reads { ReadsRuns result name.now bytes.now }
    ensures merged { IfOk result IsMerged }
{
    match read_any(alloc, bytes) {
        Ok(sum) => Ok(sum),
        Err(fault) => Err(refused(alloc, name, fault)),
    }
}

/// Puts the runs of one sum to those of another.
fn add(alloc: Global, sum: &mut Sum, other: &Sum) -> Result<(), SumFault>
    requires merged { IsMerged sum.old }
    requires more { IsMerged other.now }
    ensures adds { AddsOnce result sum.old other.now sum.new }
    ensures merged { IsMerged sum.new }
{
    merge(alloc, sum, other)
}

/// Puts the runs of a sum, of a file of this name, to those of another so many times.
fn add_times(
    alloc: Global,
    sum: &mut Sum,
    other: &Sum,
    times: u32,
    name: &str,
) -> Result<(), Failure>
    requires merged { IsMerged sum.old }
    requires more { IsMerged other.now }
    ensures adds { AddsTimes result times name.now sum.old other.now sum.new }
    ensures merged { OnOk result (IsMerged sum.new) }
{
    let mut left = times;
    while left > 0 {
        if let Err(fault) = add(alloc, sum, other) {
            return Err(not_added(alloc, name, fault));
        }
        left -= 1;
    }
    Ok(())
}

/// The runs of a file that are read again, put to themselves as often as the file is named besides.
fn with_again(alloc: Global, bytes: &[u8], part: &Part, sum: Sum) -> Result<Sum, Failure>
    requires merged { IsMerged sum }
    requires reads { ReadsAny bytes.now (Ok sum) }
    requires again { 1 < part.now.times }
    ensures gives { GivesRuns (first_runs_of part.now) result part.now.file bytes.now }
    ensures merged { IfOk result IsMerged }
{
    let name = part.file.as_str();
    let mut sum = sum;
    let again = read_runs(alloc, bytes, name)?;
    add_times(alloc, &mut sum, &again, part.times - 1, name)?;
    Ok(sum)
}

/// The runs that the bytes of the first file tell of, as often as it is named.
pub(crate) fn first_runs(alloc: Global, bytes: &[u8], part: &Part) -> Result<Sum, Failure>
    ensures gives { GivesRuns (first_runs_of part.now) result part.now.file bytes.now }
    ensures merged { IfOk result IsMerged }
{
    let sum = read_runs(alloc, bytes, part.file.as_str())?;
    if part.times > 1 {
        with_again(alloc, bytes, part, sum)
    } else {
        Ok(sum)
    }
}

/// A sum with the runs that the bytes of another file tell of, as often as it is named.
pub(crate) fn next_runs(alloc: Global, bytes: &[u8], part: &Part, sum: Sum) -> Result<Sum, Failure>
    requires { IsMerged sum }
    ensures gives { GivesRuns (added_to sum part.now) result part.now.file bytes.now }
    ensures merged { IfOk result IsMerged }
{
    let name = part.file.as_str();
    let mut sum = sum;
    let other = read_runs(alloc, bytes, name)?;
    add_times(alloc, &mut sum, &other, part.times, name)?;
    Ok(sum)
}

/// The sum of all runs as its own file has it, where the last file has this name.
pub(crate) fn finished(alloc: Global, sum: Sum, name: &str) -> Result<Sum, Failure>
    requires { IsMerged sum }
    ensures { FinishesSum result name.now sum }
{
    match finish(alloc, sum) {
        Ok(ordered) => Ok(ordered),
        Err(fault) => Err(not_finished(alloc, name, fault)),
    }
}

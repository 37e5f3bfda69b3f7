//! Levels that are closed.
ghost use Rattle.std.specs.Prelude.{◌≡◌, ◌+◌, ◌<◌, ◌≤◌, [], ◌∷◌, ◌++◌, length, reverse, take, vec_len, vec_capacity, IfOk, OnOk, OnErr};
ghost use Rattle.k_dict_entries.specs.Entries.{AreInterned};
ghost use Rattle.k_dict_entries.specs.Interning.{Interns};
ghost use Rattle.k_hcpa_meaning.specs.Summing.{summary_of};
ghost use Rattle.k_hcpa_summaries.specs.Closing.{AreFew, AreOpen, AreOpenIn, Closes, ClosesTo, closed_each, GoesOn, IsBelow, pending, with_last};

use crate::level::Level;
use k_dict_entries::{Dict, DictFault};
use k_num::NoMemory;
use std::alloc::Global;

/// Interns the entry of a level, whose last child is not counted yet.
pub fn intern_level(
    alloc: Global,
    level: &Level,
    last: Option<u32>,
    dict: &mut Dict,
    work: u64,
    path: u64,
) -> Result<u32, DictFault>
    requires level { AreOpen (length dict.old) (level.now ∷ []) }
    requires last { IsBelow (length dict.old) last }
    ensures answer { Interns dict.old (summary_of (with_last last level.now) work path) result dict.new }
    ensures interned { IfOk result (λ n. AreInterned dict.new) }
    ensures kept { GoesOn dict.old dict.new }
{
    match level.entry(alloc, last, work, path) {
        Ok(entry) => dict.intern(entry),
        Err(NoMemory) => Err(DictFault::Memory),
    }
}

/// Interns the entries of these levels, outermost first, from the innermost on.
pub fn intern_all(
    alloc: Global,
    levels: &[Level],
    dict: &mut Dict,
    work: u64,
    paths: &[u64],
) -> Result<Option<u32>, DictFault>
    requires levels { AreOpen (length dict.old) (reverse levels.now) }
    requires paths { length paths.now ≡ length levels.now }
    ensures closes { Closes work (reverse paths.now) (reverse levels.now) dict.old result dict.new }
    ensures kept { GoesOn dict.old dict.new }
    ensures below { IfOk result (λ last. IsBelow (length dict.new) last) }
{
    let mut last = None;
    let mut levels = levels;
    let mut paths = paths;
    while let Some((level, outer)) = levels.split_last() {
        let (path, others) = match paths.split_last() {
            Some(split) => split,
            None => return Err(DictFault::Memory),
        };
        match intern_level(alloc, level, last, dict, work, *path) {
            Ok(number) => last = Some(number),
            Err(fault) => return Err(fault),
        }
        levels = outer;
        paths = others;
    }
    Ok(last)
}

/// Counts the child that was left last with the innermost of these levels, outermost first. A refusal changes nothing.
fn count_last(levels: &mut [Level], last: Option<u32>) -> Result<(), NoMemory>
    requires { AreFew (reverse levels.old) }
    ensures ok { OnOk result (reverse levels.new ≡ pending last (reverse levels.old)) }
    ensures err { OnErr result (levels.new ≡ levels.old) }
{
    let Some(child) = last else {
        return Ok(());
    };
    match levels.last_mut() {
        None => Ok(()),
        Some(level) => level.count(child),
    }
}

/// Closes the inner ones of some levels, both parts outermost first, and tells whether the entries stay within the limits. A refusal changes nothing.
fn close_inner(
    alloc: Global,
    outer: &mut [Level],
    inner: &[Level],
    dict: &mut Dict,
    work: u64,
    paths: &[u64],
) -> Result<bool, NoMemory>
    requires inner { AreOpen (length dict.old) (reverse inner.now) }
    requires outer { AreFew (reverse outer.old) }
    requires paths { length paths.now ≡ length inner.now }
    ensures ok { IfOk result (λ kept. ClosesTo work (reverse paths.now) (reverse inner.now ++ reverse outer.old) dict.old kept (reverse outer.new) dict.new) }
    ensures err { OnErr result ((outer.new ≡ outer.old) × (dict.new ≡ dict.old)) }
{
    let keep = dict.len();
    match intern_all(alloc, inner, dict, work, paths) {
        Ok(last) => match count_last(outer, last) {
            Ok(()) => Ok(true),
            Err(NoMemory) => {
                dict.shorten(keep);
                Err(NoMemory)
            }
        },
        Err(DictFault::Full(_)) => Ok(false),
        Err(DictFault::Memory) => {
            dict.shorten(keep);
            Err(NoMemory)
        }
    }
}

/// Closes the innermost of these levels, outermost first, until so many stay; those that stay are the first ones then.
fn close_behind(
    alloc: Global,
    levels: &mut [Level],
    stay: usize,
    dict: &mut Dict,
    work: u64,
    paths: &[u64],
) -> Result<bool, NoMemory>
    requires open { AreOpen (length dict.old) (reverse levels.old) }
    requires paths { stay + length paths.now ≡ length levels.old }
    ensures ok { IfOk result (λ kept. ClosesTo work (reverse paths.now) (reverse levels.old) dict.old kept (reverse (take stay levels.new)) dict.new) }
    ensures err { OnErr result ((levels.new ≡ levels.old) × (dict.new ≡ dict.old)) }
{
    let (outer, inner) = levels.split_at_mut(stay);
    close_inner(alloc, outer, inner, dict, work, paths)
}

/// Closes the innermost of these levels, outermost first, as many as there are paths. A refusal changes nothing.
#[tactic(auto, using(crate::proofs::Opens::none_behind))]
pub fn close_levels(
    alloc: Global,
    levels: &mut Vec<Level>,
    dict: &mut Option<Dict>,
    work: u64,
    paths: &[u64],
) -> Result<(), NoMemory>
    requires open { AreOpenIn dict.old (reverse levels.old.items) }
    requires paths { length paths.now ≤ vec_len levels.old }
    ensures ok { OnOk result (record { levels = reverse levels.new.items; dict = dict.new } ≡ closed_each work (reverse paths.now) (record { levels = reverse levels.old.items; dict = dict.old })) }
    ensures err { OnErr result ((levels.new.items ≡ levels.old.items) × (dict.new ≡ dict.old)) }
    ensures room { vec_capacity levels.new ≡ vec_capacity levels.old }
{
    let stay = levels.len() - paths.len();
    match dict {
        None => {
            levels.truncate(stay);
            Ok(())
        }
        Some(entries) => {
            let kept = close_behind(alloc, levels.as_mut_slice(), stay, entries, work, paths)?;
            levels.truncate(stay);
            if kept {
                return Ok(());
            }
            drop(dict.take());
            Ok(())
        }
    }
}

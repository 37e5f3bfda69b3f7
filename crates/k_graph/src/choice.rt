//! The choices that make one heaviest path of all.
ghost use Rattle.std.specs.Prelude.{◌≡◌, ℕ, ◌+◌, ◌<◌, ◌≤◌, length, slice_index, Some};
ghost use Rattle.k_optab.specs.Events.{AreBefore};
ghost use Rattle.k_graph.specs.Chains.{lesser, smallest_of};

use k_optab::Src;

/// The lesser of a number and one that may be missing.
fn lesser_of(chosen: Option<u64>, number: u64) -> Option<u64>
    ensures { result ≡ lesser chosen (Some number) }
{
    match chosen {
        Some(other) => Some(other.min(number)),
        None => Some(number),
    }
}

/// The smallest of the unbroken sources from `start` on that have this time.
pub(crate) fn chosen_source(start: u64, times: &[u64], sources: &[Src], time: u64) -> Option<u64>
    requires { AreBefore (start + length times.now) sources.now }
    ensures { result ≡ smallest_of start times.now time sources.now }
{
    let mut chosen: Option<u64> = None;
    for src in sources {
        if !src.broken && src.number >= start && times[(src.number - start) as usize] == time {
            chosen = lesser_of(chosen, src.number);
        }
    }
    chosen
}

/// The index of the first of the greatest times.
pub(crate) fn first_greatest(times: &[u64]) -> usize
    requires { 0 < length times.now }
    ensures within { result < length times.now }
    ensures greatest { (k : ℕ) → k < length times.now → slice_index times.now k ≤ slice_index times.now result }
    ensures first { (k : ℕ) → k < result → slice_index times.now k < slice_index times.now result }
{
    let mut best = 0;
    for (index, time) in times.iter().enumerate() {
        if times[best] < *time {
            best = index;
        }
    }
    best
}

//! Lists with one time for each live level.
ghost use Rattle.std.specs.Prelude.{◌≡◌, ℕ, ◌+◌, ◌-◌, ◌^◌, ◌<◌, ◌≤◌, [], ◌∷◌, ◌++◌, if◌then◌else◌, true, length, map, replicate, slice_index};
ghost use Rattle.k_shadow.specs.Content.{depth};
ghost use Rattle.k_hcpa_meaning.specs.Timings.{later, after, without_last};

use k_shadow::{Shadow, Steps, Times, advance};
use std::sync::ledger::Ledger;

/// A level more, with time 0.
#[inline]
pub fn enter_times(times: &mut Times)
    requires { length times.old < 32 }
    ensures { times.new ≡ times.old ++ 0 ∷ [] }
{
    times.push(0);
}

/// A level less.
#[inline]
pub fn leave_times(times: &mut Times)
    requires { 0 < length times.old }
    ensures { times.new ≡ without_last times.old }
{
    times.pop();
}

/// Each time is at least the other list's.
#[tactic(auto, using(crate::proofs::Lists::later_is))]
#[inline]
fn raise_each(times: &mut [u64], by: &[u64])
    requires { length times.old ≡ length by.now }
    ensures { times.new ≡ later times.old by.now }
{
    for level in 0..times.len() {
        times[level] = times[level].max(by[level]);
    }
}

/// Each time is so much later, modulo 2^64.
#[tactic(auto, using(crate::proofs::Lists::after_is))]
#[inline]
fn delay_each(times: &mut [u64], latency: u64)
    ensures { times.new ≡ after latency times.old }
{
    for time in times.iter_mut() {
        *time = time.wrapping_add(latency);
    }
}

/// Each time becomes 0.
#[tactic(auto, using(crate::proofs::Lists::zeros_are))]
#[inline]
fn zero_each(times: &mut [u64])
    ensures { times.new ≡ replicate (length times.old) 0 }
{
    for time in times.iter_mut() {
        *time = 0;
    }
}

/// Each time is at least the other list's, in no step.
#[inline]
pub fn raise_times(times: &mut Times, by: &[u64])
    requires { length times.old ≡ length by.now }
    ensures { times.new ≡ later times.old by.now }
{
    raise_each(times.as_mut_slice(), by);
}

/// `raise_times`, where a dependence is not broken.
#[inline]
pub fn raise_unless(broken: bool, times: &mut Times, by: &Times)
    requires { length times.old ≡ length by.now }
    ensures { times.new ≡ if broken then times.old else later times.old by.now }
{
    if !broken {
        raise_times(times, by.as_slice());
    }
}

/// Each time of a row is so much later, modulo 2^64, and each path at least that.
#[inline]
pub fn settle_times(row: &mut Times, latency: u64, paths: &mut Times)
    requires { length paths.old ≡ length row.old }
    ensures row { row.new ≡ after latency row.old }
    ensures paths { paths.new ≡ later paths.old (after latency row.old) }
{
    advance(row.as_mut_slice(), latency, paths.as_mut_slice());
}

/// Tells each path, raised to the time of the row once that is so much later, modulo 2^64.
pub fn paths_behind(paths: &Times, row: &Times, latency: u64, behind: &mut [u64])
    requires paths { length behind.old ≡ length paths.now }
    requires row { length behind.old ≡ length row.now }
    ensures { behind.new ≡ later paths.now (after latency row.now) }
{
    let mut delayed = [0; 32];
    let delayed = &mut delayed[..row.len()];
    delayed.copy_from_slice(row.as_slice());
    delay_each(delayed, latency);
    behind.copy_from_slice(paths.as_slice());
    raise_each(behind, delayed);
}

/// Each time becomes 0.
#[inline]
pub fn zero_times(times: &mut Times)
    ensures { times.new ≡ replicate (length times.old) 0 }
{
    zero_each(times.as_mut_slice());
}

/// Each time is at least the location's at its level, for which that is read once.
#[inline]
pub fn raise_by<S: Shadow, L: Ledger>(
    shadow: &S,
    location: u32,
    times: &mut Times,
    steps: &mut Steps<L>,
)
    requires below { location < (S.content shadow.now).limit }
    requires each { length times.old ≡ depth (S.content shadow.now) }
    ensures raised { times.new ≡ later times.old (map (λ level. level location) (S.content shadow.now).levels) }
    ensures steps { steps.new ≡ steps.old + depth (S.content shadow.now) }
{
    shadow.raise(location, times.as_mut_slice(), steps);
}

/// The times become the location's at its level, for which that is read once.
#[inline]
pub fn read_by<S: Shadow, L: Ledger>(
    shadow: &S,
    location: u32,
    times: &mut Times,
    steps: &mut Steps<L>,
)
    requires below { location < (S.content shadow.now).limit }
    requires each { length times.old ≡ depth (S.content shadow.now) }
    ensures read { times.new ≡ map (λ level. level location) (S.content shadow.now).levels }
    ensures steps { steps.new ≡ steps.old + depth (S.content shadow.now) }
{
    zero_times(times);
    raise_by(shadow, location, times, steps);
}

/// Tells whether each time is below 2^32.
pub fn are_small(times: &[u64]) -> bool
    ensures { result ≡ true → (level : ℕ) → level < length times.now → slice_index times.now level < 2 ^ 32 }
{
    for level in 0..times.len() {
        if times[level] > 4_294_967_295 {
            return false;
        }
    }
    true
}

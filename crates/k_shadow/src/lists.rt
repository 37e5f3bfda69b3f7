//! Lists of times, one for each live level.
ghost use Rattle.std.specs.Prelude.{◌≡◌, ℕ, ◌+◌, ◌%◌, ◌^◌, ◌<◌, ◌≤◌, true, length, max, slice_index};
ghost use Rattle.k_shadow.specs.Content.{after_none};
ghost use Rattle.k_shadow.specs.Numbers.{AreRising};

use crate::TimeLanes;

/// At how many levels what was written when that stamp was given is live. The levels' instances have these numbers,
/// which rise from level to level: so it is live at the outermost ones.
#[inline]
pub fn live_levels(numbers: &[u64], stamp: u64) -> usize
    requires { AreRising 0 numbers.now }
    ensures few { result ≤ length numbers.now }
    ensures live { (k : ℕ) → k < result → slice_index numbers.now k ≤ stamp }
    ensures gone { (k : ℕ) → result ≤ k → k < length numbers.now → stamp < slice_index numbers.now k }
{
    if is_dead(numbers, stamp) {
        return 0;
    }
    innermost_live(numbers, stamp)
}

/// Tells whether even the outermost level's instance began after that stamp was given, as for what was never written.
#[inline]
fn is_dead(numbers: &[u64], stamp: u64) -> bool
    requires { AreRising 0 numbers.now }
    ensures { result ≡ true → (k : ℕ) → k < length numbers.now → stamp < slice_index numbers.now k }
{
    numbers.is_empty() || stamp < numbers[0]
}

/// `live_levels`, counted from the innermost level.
#[inline]
fn innermost_live(numbers: &[u64], stamp: u64) -> usize
    requires { AreRising 0 numbers.now }
    ensures few { result ≤ length numbers.now }
    ensures live { (k : ℕ) → k < result → slice_index numbers.now k ≤ stamp }
    ensures gone { (k : ℕ) → result ≤ k → k < length numbers.now → stamp < slice_index numbers.now k }
{
    let mut live = numbers.len();
    while live > 0 && stamp < numbers[live - 1] {
        live -= 1;
    }
    live
}

/// Makes each of these times so much later, modulo 2^64, and raises each level's path to it.
#[inline]
pub fn advance(times: &mut [u64], latency: u64, paths: &mut [u64])
    requires { length paths.old ≡ length times.old }
    ensures times { (level : ℕ) → level < length times.old → slice_index times.new level ≡ (slice_index times.old level + latency) % 2 ^ 64 }
    ensures paths { (level : ℕ) → level < length times.old → slice_index paths.new level ≡ max (slice_index paths.old level) (slice_index times.new level) }
{
    for level in 0..times.len() {
        let time = times[level].wrapping_add(latency);
        times[level] = time;
        paths[level] = paths[level].max(time);
    }
}

/// Copies times to the front of a list.
#[inline]
pub fn copy_times(to: &mut [u64; 32], from: &[u64])
    requires { length from.now ≤ 32 }
    ensures { (k : ℕ) → k < length from.now → slice_index to.new k ≡ slice_index from.now k }
{
    copy_behind(0, from, to);
}

/// Fills the list with the times of an operation that waits for these times alone: each, and the latency more, modulo
/// 2^64. Raises each level's path to them.
#[inline]
pub fn times_after(before: &[u64], latency: u64, times: &mut [u64], paths: &mut [u64])
    requires times { length times.old ≡ length before.now }
    requires paths { length paths.old ≡ length before.now }
    ensures times { (level : ℕ) → level < length before.now → slice_index times.new level ≡ after_none before.now latency level }
    ensures paths { (level : ℕ) → level < length before.now → slice_index paths.new level ≡ max (slice_index paths.old level) (after_none before.now latency level) }
{
    for (level, time) in before.iter().enumerate() {
        let after = time.wrapping_add(latency);
        times[level] = after;
        paths[level] = paths[level].max(after);
    }
}

/// Raises each of these times to the other list's at its level.
#[inline]
pub fn raise_each(times: &mut [u64], by: &[u64])
    requires { length by.now ≡ length times.old }
    ensures { (level : ℕ) → level < length times.old → slice_index times.new level ≡ max (slice_index times.old level) (slice_index by.now level) }
{
    for (level, time) in by.iter().enumerate() {
        times[level] = times[level].max(*time);
    }
}

/// A time of 0 for each level that may be live.
#[inline]
pub fn no_times() -> [u64; 32]
    ensures { length result ≡ 32 }
{
    [0; 32]
}

/// The times of lanes, at the front of a list for each level that may be live.
#[inline]
pub fn widened<V: TimeLanes>(lanes: V) -> [u64; 32]
    requires { V.count ≤ 32 }
    ensures size { length result ≡ 32 }
    ensures times { (k : ℕ) → k < V.count → slice_index result k ≡ V.time lanes k }
    ensures small { (k : ℕ) → k < V.count → slice_index result k ≤ 4294967295 }
{
    let mut times = no_times();
    copy_lanes(&mut times, lanes);
    times
}

/// Copies the times of lanes to the front of a list.
#[inline(always)]
pub fn copy_lanes<V: TimeLanes>(to: &mut [u64; 32], lanes: V)
    requires { V.count ≤ 32 }
    ensures times { (k : ℕ) → k < V.count → slice_index to.new k ≡ V.time lanes k }
    ensures small { (k : ℕ) → k < V.count → slice_index to.new k ≤ 4294967295 }
{
    let mut narrow = [0; 32];
    lanes.copy_to(&mut narrow);
    for level in 0..V::count() {
        to[level] = narrow[level] as u64;
    }
}

/// These times, none of them above 4,294,967,295, in as many lanes.
#[inline]
pub fn narrowed<V: TimeLanes>(times: &[u64]) -> V
    requires within { V.count ≤ 32 }
    requires few { length times.now ≤ V.count }
    requires small { (k : ℕ) → k < length times.now → slice_index times.now k < 2 ^ 32 }
    ensures times { (k : ℕ) → k < length times.now → V.time result k ≡ slice_index times.now k }
{
    let mut narrow = [0; 32];
    for level in 0..times.len() {
        narrow[level] = times[level] as u32;
    }
    V::of(&narrow)
}

/// The times at the front of a list, modulo 2^32, in lanes. LLVM knows how many lanes there are, so it makes vectors of the
/// loop: one over the live levels alone takes longer.
#[inline(always)]
pub fn cut<V: TimeLanes>(times: &[u64; 32]) -> V
    requires { V.count ≤ 32 }
    ensures times { (k : ℕ) → k < V.count → V.time result k ≡ slice_index times.now k % 2 ^ 32 }
{
    let mut narrow = [0; 32];
    for level in 0..V::count() {
        narrow[level] = (times[level] % 4_294_967_296) as u32;
    }
    V::of(&narrow)
}

/// Copies the times of the levels from `first` on, two at a time: where one is copied at a time, LLVM makes a call of C's
/// memcpy of the loop, which takes longer than the few levels that are live.
#[inline]
pub fn copy_behind(first: usize, from: &[u64], to: &mut [u64])
    requires { length from.now ≤ length to.old }
    ensures before { (k : ℕ) → k < first → slice_index to.new k ≡ slice_index to.old k }
    ensures behind { (k : ℕ) → first ≤ k → k < length from.now → slice_index to.new k ≡ slice_index from.now k }
{
    let mut level = first;
    while level < from.len() && from.len() - level > 1 {
        let time = from[level];
        let inner = from[level + 1];
        to[level] = time;
        to[level + 1] = inner;
        level += 2;
    }
    if level < from.len() {
        to[level] = from[level];
    }
}

/// Copies times to a list that has as many.
#[inline]
pub fn copy_to(to: &mut [u64], from: &[u64])
    requires { length to.old ≡ length from.now }
    ensures { to.new ≡ from.now }
{
    copy_behind(0, from, to);
}

//! Times of 32 bits in lanes, on which one operation of the processor works at once.
ghost use Rattle.std.specs.Prelude.{◌≡◌, ◌≢◌, ℕ, ◌+◌, ◌%◌, ◌^◌, ◌<◌, length, max, nat_le, if◌then◌else◌, slice_index};

use std::simd::Simd;

/// Times of at most 4,294,967,295, in a lane for each of the outermost levels.
pub trait TimeLanes: Copy {
    /// The time of each lane.
    ghost time: { Self → ℕ → ℕ };

    /// How many lanes there are.
    ghost count: { ℕ };

    /// How many lanes there are.
    fn count() -> usize
        ensures { result ≡ count };

    /// The first times of a list, and 0 in each lane behind its end.
    fn of(times: &[u32]) -> Self
        ensures { (k : ℕ) → k < count → time result k ≡ slice_index times.now k };

    /// Copies the times to the front of a list, as many as it and the lanes have.
    fn copy_to(self, times: &mut [u32])
        ensures size { length times.new ≡ length times.old }
        ensures times { (k : ℕ) → k < count → k < length times.old → slice_index times.new k ≡ time self k };

    /// The time of a lane.
    fn at(self, level: usize) -> u32
        requires { level < count }
        ensures { result ≡ time self level };

    /// The same times but for one lane's.
    fn with_time(self, level: usize, at: u32) -> Self
        requires { level < count }
        ensures here { time result level ≡ at }
        ensures others { (k : ℕ) → k ≢ level → k < count → time result k ≡ time self k };

    /// The later of two times in each lane.
    fn later(self, other: Self) -> Self
        ensures { (k : ℕ) → k < count → time result k ≡ max (time self k) (time other k) };

    /// Each time so much later, modulo 2^32.
    fn delayed(self, latency: u32) -> Self
        ensures { (k : ℕ) → k < count → time result k ≡ (time self k + latency) % 2 ^ 32 };

    /// The times of the lanes whose start is not above the stamp, and 0 in the others.
    fn begun(self, starts: Self, stamp: u32) -> Self
        ensures { (k : ℕ) → k < count → time result k ≡ (if nat_le (time starts k) stamp then time self k else 0) };
}

/// The times of a list that has fewer than there are lanes, and 0 in each lane behind its end.
#[cold]
#[inline]
fn padded<const N: usize>(times: &[u32]) -> Simd<u32, N>
    requires { length times.now < N }
    ensures { (k : ℕ) → k < N → slice_index result k ≡ slice_index times.now k }
{
    let mut lanes = [0; N];
    lanes[..times.len()].copy_from_slice(times);
    Simd::from_array(lanes)
}

/// Copies the first of these times to a list that has fewer.
#[cold]
#[inline]
fn copy_first(from: &[u32], times: &mut [u32])
    requires { length times.old < length from.now }
    ensures { (k : ℕ) → k < length times.old → slice_index times.new k ≡ slice_index from.now k }
{
    let many = times.len();
    times.copy_from_slice(&from[..many]);
}

impl<const N: usize> TimeLanes for Simd<u32, N> {
    ghost time = { λ lanes k. slice_index lanes k };

    ghost count = { N };

    #[inline(always)]
    fn count() -> usize {
        N
    }

    #[inline(always)]
    fn of(times: &[u32]) -> Simd<u32, N> {
        match times.first_chunk() {
            Some(lanes) => Simd::from_array(*lanes),
            None => padded(times),
        }
    }

    #[inline(always)]
    fn copy_to(self, times: &mut [u32]) {
        let lanes = self.to_array();
        match times.first_chunk_mut() {
            Some(front) => *front = lanes,
            None => copy_first(&lanes, times),
        }
    }

    #[inline(always)]
    fn at(self, level: usize) -> u32 {
        self[level]
    }

    #[inline(always)]
    fn with_time(self, level: usize, at: u32) -> Simd<u32, N> {
        let mut lanes = self.to_array();
        lanes[level] = at;
        Simd::from_array(lanes)
    }

    #[inline(always)]
    fn later(self, other: Simd<u32, N>) -> Simd<u32, N> {
        self.simd_max(other)
    }

    #[inline(always)]
    fn delayed(self, latency: u32) -> Simd<u32, N> {
        self + Simd::splat(latency)
    }

    #[inline(always)]
    fn begun(self, starts: Simd<u32, N>, stamp: u32) -> Simd<u32, N> {
        let live = Simd::splat(stamp)
            .simd_lt(starts)
            .select(Simd::splat(0), Simd::splat(u32::MAX));
        self.simd_min(live)
    }
}

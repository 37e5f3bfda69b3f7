//! Lanes of two kinds joined, for numbers of levels between those that one kind has.
ghost use Rattle.std.specs.Prelude.{ℕ, ◌≡◌, ◌<◌, ◌+◌, ◌-◌, min, nat_lt, if◌then◌else◌, slice_index};

use k_shadow::TimeLanes;

/// The lanes of the outermost levels, and behind them those of further levels.
#[derive(Clone, Copy)]
pub struct Joined<A: TimeLanes, B: TimeLanes> {
    outer: A,
    inner: B,
}

/// The first times of a list, and 0 in each lane behind its end.
#[inline(always)]
fn joined_of<A: TimeLanes, B: TimeLanes>(times: &[u32]) -> Joined<A, B>
    ensures { (k : ℕ) → k < A.count + B.count → (if nat_lt k A.count then A.time result.outer k else B.time result.inner (k - A.count)) ≡ slice_index times.now k }
{
    let many = A::count().min(times.len());
    let (outer, inner) = times.split_at(many);
    Joined {
        outer: A::of(outer),
        inner: B::of(inner),
    }
}

impl<A: TimeLanes, B: TimeLanes> TimeLanes for Joined<A, B> {
    ghost time = { λ lanes k. if nat_lt k A.count then A.time lanes.outer k else B.time lanes.inner (k - A.count) };

    ghost count = { min (A.count + B.count) 18446744073709551615 };

    #[inline(always)]
    fn count() -> usize {
        A::count().saturating_add(B::count())
    }

    #[inline(always)]
    fn of(times: &[u32]) -> Joined<A, B> {
        joined_of(times)
    }

    #[inline(always)]
    fn copy_to(self, times: &mut [u32]) {
        let many = A::count().min(times.len());
        let (outer, inner) = times.split_at_mut(many);
        self.outer.copy_to(outer);
        self.inner.copy_to(inner);
    }

    #[inline(always)]
    fn at(self, level: usize) -> u32 {
        if level < A::count() {
            self.outer.at(level)
        } else {
            self.inner.at(level - A::count())
        }
    }

    #[inline(always)]
    fn with_time(self, level: usize, at: u32) -> Joined<A, B> {
        if level < A::count() {
            let outer = self.outer.with_time(level, at);
            Joined { outer, ..self }
        } else {
            let inner = self.inner.with_time(level - A::count(), at);
            Joined { inner, ..self }
        }
    }

    #[inline(always)]
    fn later(self, other: Joined<A, B>) -> Joined<A, B> {
        Joined {
            outer: self.outer.later(other.outer),
            inner: self.inner.later(other.inner),
        }
    }

    #[inline(always)]
    fn delayed(self, latency: u32) -> Joined<A, B> {
        Joined {
            outer: self.outer.delayed(latency),
            inner: self.inner.delayed(latency),
        }
    }

    #[inline(always)]
    fn begun(self, starts: Joined<A, B>, stamp: u32) -> Joined<A, B> {
        Joined {
            outer: self.outer.begun(starts.outer, stamp),
            inner: self.inner.begun(starts.inner, stamp),
        }
    }
}

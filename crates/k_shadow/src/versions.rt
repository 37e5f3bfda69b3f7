//! Numbers by which old times are told from live ones.
ghost use Rattle.std.specs.Prelude.{◌≡◌, ◌<◌, ◌≤◌, ◌^◌, ℕ, length, slice_index};
ghost use Rattle.k_shadow.specs.Numbers.{none_given, number_given, number_left, AreRising, WereGiven};

use std::marker::Model;

/// The numbers of the instances that are open at up to 32 live levels. No two instances have one number.
#[derive(Debug, Drop)]
pub struct Versions {
    numbers: [u64; 32],
    /// The same numbers, modulo 2^32.
    starts: [u32; 32],
    given: u64,
    depth: usize,
}

impl Model for Versions {
    ghost use Rattle.std.specs.Prelude.{◌≤◌, take};
    ghost use Rattle.k_shadow.specs.Numbers.{Numbers, AreRising, AreStarts, WereGiven};

    ghost Value = { Numbers };

    ghost view = { λ v. record { live = take v.depth v.numbers; given = v.given } };

    ghost invariant = { λ v. (v.depth ≤ 32) × WereGiven v.given (take v.depth v.numbers) × AreRising 0 (take v.depth v.numbers) × AreStarts v.depth v.numbers v.starts };
}

impl Versions {
    /// No level is live, and no number was given.
    #[inline]
    pub fn new() -> Versions
        ensures none { result ≡ none_given }
    {
        Versions {
            numbers: [0; 32],
            starts: [0; 32],
            given: 0,
            depth: 0,
        }
    }

    /// Enters a level, whose instance gets a number that was never given before. The first is 1.
    #[inline]
    pub fn enter(&mut self)
        requires shallow { length self.old.live < 32 }
        requires few { self.old.given < 2 ^ 62 }
        ensures entered { self.new ≡ number_given self.old }
    {
        self.given += 1;
        self.numbers[self.depth] = self.given;
        self.starts[self.depth] = (self.given % 4_294_967_296) as u32;
        self.depth += 1;
    }

    /// Leaves the innermost level.
    #[inline]
    pub fn leave(&mut self)
        requires { 0 < length self.old.live }
        ensures left { self.new ≡ number_left self.old }
    {
        self.depth -= 1;
    }

    /// How many levels are live.
    #[inline]
    pub fn depth(&self) -> usize
        ensures count { result ≡ length self.now.live }
        ensures shallow { result ≤ 32 }
        ensures given { WereGiven self.now.given self.now.live }
    {
        self.depth
    }

    /// The number of the instance at a level.
    #[inline]
    pub fn number(&self, level: usize) -> u64
        requires { level < length self.now.live }
        ensures number { result ≡ slice_index self.now.live level }
        ensures below { level < 32 }
    {
        let numbers = &self.numbers;
        numbers[level]
    }

    /// The numbers of the instances at all live levels, outermost first.
    #[inline]
    pub fn live(&self) -> &[u64]
        ensures live { result.now ≡ self.now.live }
        ensures shallow { length result.now ≤ 32 }
        ensures rising { AreRising 0 result.now }
    {
        &self.numbers[..self.depth]
    }

    /// The numbers of the instances at all live levels, for which 32 bits are enough while so many were given.
    /// What stands at a level that is not live is not told.
    #[inline(always)]
    pub fn starts(&self) -> &[u32; 32]
        ensures size { length result.now ≡ 32 }
        ensures starts { self.now.given < 2 ^ 32 → (k : ℕ) → k < length self.now.live → slice_index result.now k ≡ slice_index self.now.live k }
    {
        &self.starts
    }

    /// The last number that was given, 0 where none was.
    #[inline]
    pub fn last_given(&self) -> u64
        ensures last { result ≡ self.now.given }
        ensures shallow { length self.now.live ≤ 32 }
        ensures given { WereGiven self.now.given self.now.live }
    {
        self.given
    }
}

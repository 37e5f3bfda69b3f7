//! A table of a fixed count of numbers.
ghost use Rattle.std.specs.Prelude.{◌≡◌, ◌<◌, replicate, slice_index, slice_set};

use std::marker::Model;

/// `N` numbers. Contracts see them as a list.
#[derive(Clone, Copy, Debug, PartialEq, Eq, Hash)]
pub struct Table<const N: usize> {
    numbers: [u64; N],
}

impl<const N: usize> Model for Table<N> {
    ghost use Rattle.std.specs.Prelude.{ℕ, List};

    ghost Value = { List ℕ };

    ghost view = { λ t. t.numbers };

    ghost inverse = { λ numbers. record { numbers = numbers } };
}

impl<const N: usize> Table<N> {
    /// `N` times the number `v`.
    pub fn filled(v: u64) -> Table<N>
        ensures { result ≡ replicate N v }
    {
        Table { numbers: [v; N] }
    }

    /// The number at an index.
    pub fn get(&self, at: usize) -> u64
        requires { at < N }
        ensures { result ≡ slice_index self.now at }
    {
        self.numbers[at]
    }

    /// Puts `v` at an index.
    pub fn set(&mut self, at: usize, v: u64)
        requires { at < N }
        ensures { self.new ≡ slice_set self.old at v }
    {
        self.numbers[at] = v;
    }
}

//! The counter of reads.
ghost use Rattle.std.specs.Prelude.{◌≡◌, ◌+◌, ◌<◌, length};

use std::marker::Model;
use std::sync::ledger::{Blank, Book, Ledger, Share};

/// How many steps were taken, a step being one read of a time. It takes no bytes at run time, and only `tick`,
/// `tick_each` and `tick_levels` change it.
#[derive(Drop)]
pub struct Steps<L: Ledger> {
    book: Book<L>,
    share: Share<L>,
}

impl<L: Ledger> Model for Steps<L> {
    ghost use Rattle.std.specs.Prelude.{ℕ, ◌<◌};

    ghost Value = { ℕ };

    ghost view = { λ s. s.book.total };

    ghost invariant = { λ s. 0 < s.share.parts };
}

impl<L: Ledger> Steps<L> {
    /// No step was taken.
    pub fn new(blank: Blank) -> Steps<L>
        requires name { blank.name ≡ L.name }
        requires parts { blank.parts ≡ L.parts }
        requires some { 0 < blank.parts }
        ensures none { result ≡ 0 }
    {
        let (book, share) = blank.open();
        Steps { book, share }
    }

    /// Takes one step.
    #[inline]
    pub fn tick(&mut self)
        ensures one { self.new ≡ self.old + 1 }
    {
        self.book.add(&mut self.share, 1);
    }

    /// Takes a step for each of these times.
    #[inline]
    pub fn tick_each(&mut self, times: &[u64])
        ensures each { self.new ≡ self.old + length times.now }
    {
        self.book.add(&mut self.share, times.len() as u64);
    }

    /// Takes a step for each of so many levels.
    #[inline]
    pub fn tick_levels(&mut self, levels: usize)
        ensures each { self.new ≡ self.old + levels }
    {
        self.book.add(&mut self.share, levels as u64);
    }
}

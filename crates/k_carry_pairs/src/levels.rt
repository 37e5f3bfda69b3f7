//! The open instances of tracked loops.
ghost use Rattle.std.specs.Prelude.{◌≡◌, ◌∷◌, [], reverse, OnOk};
ghost use Rattle.k_num.specs.Top.{top};
ghost use Rattle.k_carry_pairs.specs.Carried.{AreSorted};
ghost use Rattle.k_carry_pairs.specs.Gathered.{depended, found_before, is_carried, is_turned, some_carries as some_carries_meant, turned, with_turn, without_level};

use crate::found::{Found, put};
use crate::{Origin, Pair};
use k_num::{NoMemory, Place};
use std::alloc::Global;
use std::marker::Model;

/// An open instance of a loop that is tracked.
#[derive(Clone, Copy, Debug)]
pub struct Level {
    pub region: u32,
    /// How many instances are open around it.
    pub depth: usize,
    /// The number of its first operation.
    pub first: u64,
    /// How many operations were made before its last body ended; 0 where none has ended.
    pub turn: u64,
}

impl Level {
    /// Whether the operation lies in the instance, and in an earlier turn.
    #[inline(always)]
    fn carries(&self, number: u64) -> bool
        ensures { result ≡ is_carried number self.now }
    {
        self.first <= number && number < self.turn
    }

    /// Whether an instance of this region and depth is a body of the loop, where the level is the innermost around it.
    fn is_around(&self, region: u32, depth: usize) -> bool
        ensures { result ≡ is_turned region depth self.now }
    {
        depth.checked_sub(1) == Some(self.depth) && region.checked_sub(1) == Some(self.region)
    }
}

/// The levels, which contracts see with the innermost first.
#[derive(Drop)]
pub struct Levels {
    items: Vec<Level>,
}

impl Model for Levels {
    ghost use Rattle.std.specs.Prelude.{List, reverse};
    ghost use Rattle.k_carry_pairs.specs.declared.levels.Level.{Level as LevelValue};

    ghost Value = { List LevelValue };

    ghost view = { λ l. reverse l.items.items };
}

impl Levels {
    /// None is open.
    pub fn new(alloc: Global) -> Levels
        ensures { result ≡ [] }
    {
        Levels {
            items: Vec::new(alloc),
        }
    }

    /// The levels, the outermost first.
    pub fn as_slice(&self) -> &[Level]
        ensures { result.now ≡ reverse self.now }
    {
        self.items.as_slice()
    }

    /// An instance is entered.
    pub fn push(&mut self, level: Level) -> Result<(), NoMemory>
        ensures { OnOk result (self.new ≡ level ∷ self.old) }
    {
        self.items.push(level)?;
        Ok(())
    }

    /// The innermost level.
    fn innermost(&self) -> Option<Level>
        ensures { result ≡ top self.now }
    {
        match self.items.last() {
            Some(level) => Some(*level),
            None => None,
        }
    }

    /// An instance of this depth is left.
    pub fn leave(&mut self, depth: usize)
        ensures { self.new ≡ without_level depth self.old }
    {
        if let Some(level) = self.innermost() {
            if level.depth == depth {
                drop(self.items.pop());
            }
        }
    }

    /// In the innermost level a turn begins, behind so many operations.
    fn set_turn(&mut self, made: u64)
        ensures { self.new ≡ with_turn made self.old }
    {
        let Some(level) = self.items.last_mut() else {
            return;
        };
        level.turn = made;
    }

    /// An instance of this region and depth was left, behind so many operations.
    pub fn begin_turn(&mut self, made: u64, region: u32, depth: usize)
        ensures { self.new ≡ turned made region depth self.old }
    {
        if let Some(level) = self.innermost() {
            if level.is_around(region, depth) {
                self.set_turn(made);
            }
        }
    }
}

/// Whether one of these levels carries the operation of this number: most carry none.
#[inline(always)]
pub fn some_carries(levels: &[Level], number: u64) -> bool
    ensures { result ≡ some_carries_meant number levels.now }
{
    let mut rest = levels;
    while let Some((level, later)) = rest.split_first() {
        if level.carries(number) {
            return true;
        }
        rest = later;
    }
    false
}

/// An operation at this place depends on another one: each of the levels that carries this has the pair.
pub fn depend(
    levels: &[Level],
    origin: Origin,
    to: Place,
    found: &mut Vec<Found>,
) -> Result<(), NoMemory>
    requires { AreSorted found_before found.old.items }
    ensures found { OnOk result (found.new.items ≡ depended levels.now origin to found.old.items) }
    ensures sorted { AreSorted found_before found.new.items }
{
    let pair = Pair {
        from: origin.place,
        to,
    };
    let mut rest = levels;
    while let Some((level, later)) = rest.split_first() {
        if level.carries(origin.number) {
            put(
                found,
                Found {
                    region: level.region,
                    pair,
                },
            )?;
        }
        rest = later;
    }
    Ok(())
}

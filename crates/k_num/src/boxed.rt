//! A box that contracts see as what it holds, so that a tree of boxes is plain data.
ghost use Rattle.std.specs.Borrow.{sem};
ghost use Rattle.std.specs.Prelude.{◌≡◌, IfOk};

use crate::NoMemory;
use std::alloc::Global;
use std::boxed;
use std::marker::Model;

/// A value on the heap. Two boxes of equal values are equal, whatever memory they lie in.
#[derive(Debug, Drop)]
pub struct Box<T> {
    inner: boxed::Box<T>,
}

impl<T> Model for Box<T> {
    ghost Value = { T };

    ghost coded = { T.code };

    ghost view = { λ b. b.inner.value };
}

impl<T> Box<T> {
    ghost use Rattle.k_num.specs.Lending.{LendsValue};

    /// The value.
    pub fn get(&self) -> &T
        ensures { result.now ≡ self.now }
    {
        &self.inner
    }

    /// The value, for writing.
    pub fn get_mut(&mut self) -> &mut T
        ensures* writes_back { sem 𝓛 (LendsValue T.row self.entry result) }
        ensures value { result.now ≡ self.old }
    {
        &mut self.inner
    }

    /// The value, out of its box.
    pub fn into_inner(self) -> T
        ensures { result ≡ self }
    {
        let Box { inner } = self;
        boxed::Box::into_inner(inner)
    }
}

impl<T: Drop> Box<T> {
    /// Puts a value into a box. A refusal drops the value.
    pub fn new(alloc: Global, value: T) -> Result<Box<T>, NoMemory>
        ensures { IfOk result (λ b. b ≡ value) }
    {
        Ok(Box {
            inner: boxed::Box::new(alloc, value)?,
        })
    }
}

impl<T: PartialEq> PartialEq for Box<T> {
    ghost eq = { λ x y. T.eq x y };

    ghost laws = { T.laws };

    fn eq(&self, other: &Box<T>) -> bool {
        *self.inner == *other.inner
    }
}

impl<T: Eq> Eq for Box<T> {
    ghost laws = { T.Eq.laws };
}

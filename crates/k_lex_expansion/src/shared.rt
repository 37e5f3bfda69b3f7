//! A value that has many owners, and that contracts see as the value.
ghost use Rattle.std.specs.Prelude.{◌≡◌, IfOk};

use k_num::NoMemory;
use std::marker::Model;
use std::rc::Rc;

/// A value that stays as it is, and that many may hold.
#[derive(Drop)]
pub struct Shared<T> {
    inner: Rc<T>,
}

impl<T> Model for Shared<T> {
    ghost Value = { T };

    ghost coded = { T.code };

    ghost view = { λ s. s.inner.value };
}

impl<T> Shared<T> {
    /// The value.
    pub fn get(&self) -> &T
        ensures { result.now ≡ self.now }
    {
        self.inner.as_ref()
    }
}

impl<T: Drop> Shared<T> {
    /// The value, with one owner. A refusal drops it.
    pub fn new(alloc: std::alloc::Global, value: T) -> Result<Shared<T>, NoMemory>
        ensures { IfOk result (λ s. s ≡ value) }
    {
        Ok(Shared {
            inner: Rc::new(alloc, value)?,
        })
    }

    /// The same value, with an owner more.
    pub fn share(&self) -> Result<Shared<T>, NoMemory>
        ensures { IfOk result (λ s. s ≡ self.now) }
    {
        Ok(Shared {
            inner: self.inner.clone()?,
        })
    }
}

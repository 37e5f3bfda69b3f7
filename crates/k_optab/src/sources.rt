//! The list of an operation's sources.
ghost use Rattle.std.specs.Prelude.{◌≡◌, [], ◌∷◌, ◌++◌, OnOk, OnErr};

use crate::Src;
use k_num::NoMemory;
use smallvec::SmallVec;
use std::alloc::Global;
use std::marker::Model;

/// A growing list of sources. Up to three, as most operations have, stand in the list itself; more take memory.
#[derive(Debug, Drop)]
pub struct Sources {
    list: SmallVec<Src, 3>,
}

impl Model for Sources {
    ghost use Rattle.std.specs.Prelude.{List};
    ghost use Rattle.k_optab.specs.declared.event.Src.{Src};

    ghost Value = { List Src };

    ghost view = { λ s. s.list.items };
}

impl Sources {
    /// The empty list.
    #[inline]
    pub fn new(alloc: Global) -> Sources
        ensures { result ≡ [] }
    {
        Sources {
            list: SmallVec::new(alloc),
        }
    }

    /// Adds a source at the end.
    #[inline]
    pub fn push(&mut self, source: Src) -> Result<(), NoMemory>
        ensures ok { OnOk result (self.new ≡ self.old ++ source ∷ []) }
        ensures err { OnErr result (self.new ≡ self.old) }
    {
        match self.list.push(source) {
            Ok(()) => Ok(()),
            Err(_) => Err(NoMemory),
        }
    }

    /// The sources, in order.
    #[inline]
    pub fn as_slice(&self) -> &[Src]
        ensures { result.now ≡ self.now }
    {
        self.list.as_slice()
    }
}

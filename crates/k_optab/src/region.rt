//! The regions of a program: its functions, its loops and their bodies.
ghost use Rattle.std.specs.Prelude.{◌≡◌};
ghost use Rattle.k_optab.specs.Regions.{is_body, is_loop};

use k_num::{Place, Text};

/// What a region is.
#[derive(Clone, Copy, Debug, PartialEq, Eq, Hash)]
pub enum RegionKind {
    Func,
    Loop,
    Body,
}

impl RegionKind {
    /// Whether this is a loop.
    pub fn is_loop(self) -> bool
        ensures { result ≡ is_loop self }
    {
        self == RegionKind::Loop
    }

    /// Whether this is a loop's body.
    pub fn is_body(self) -> bool
        ensures { result ≡ is_body self }
    {
        self == RegionKind::Body
    }
}

/// A region of a program.
#[derive(Debug, PartialEq, Eq, Drop)]
pub struct Region {
    pub kind: RegionKind,
    /// The name of the function that the region is or lies in.
    pub func: Text,
    /// Where the function's name, the loop's keyword or the body's first token stands.
    pub place: Place,
}

//! Why a source has no typed tree.

use k_num::{NoMemory, Place, Text};

/// The first fault of a source in its names and types, with its place, or want of memory.
#[derive(Debug, PartialEq, Eq, Drop)]
pub enum TypeFault {
    /// A name is used that no declaration before it has declared (C17 6.5.1p2).
    Unknown(Text, Place),
    /// A name is declared again in its scope (C17 6.7p3, 6.9p3).
    Twice(Text, Place),
    /// An operand, initialiser, type or list of specifiers of a wrong kind (C17 6.5, 6.7, 6.8).
    Kinds(Place),
    /// Not a place that can be assigned or pointed to (C17 6.5.3.1p1, 6.5.3.2p1, 6.5.16p2).
    NotPlace(Place),
    /// A write to what is const (C17 6.5.16p2).
    ConstWrite(Place),
    /// Another count of arguments than of parameters (C17 6.5.2.2p2).
    Arity(Place),
    /// A dimension that is no integer constant of 1 or more, or an object of too many elements (C17 6.7.6.2).
    BadSize(Place),
    /// A format that is none, or that does not fit its arguments (C17 7.21.6.1).
    BadFormat(Place),
    /// No function main without parameters and of result `int` (C17 5.1.2.2.1).
    NoMain(Place),
    /// A function is called that no definition defines (C17 6.9p5).
    NotDefined(Text, Place),
    /// A `break` or a `continue` outside what it could leave (C17 6.8.6).
    JumpOutside(Place),
    /// No memory.
    Memory,
    /// Two cases of one value in a switch, or two defaults (C17 6.8.4.2p3).
    CaseAgain(Place),
}

impl From<NoMemory> for TypeFault {
    ghost use Rattle.std.specs.Prelude.{◌≡◌};
    ghost use Rattle.k_types_meaning.specs.declared.fault.TypeFault.TheVariants.{Memory};

    ghost from_gives = { λ _ fault. fault ≡ Memory };

    fn from(_error: NoMemory) -> TypeFault {
        TypeFault::Memory
    }
}

//! What names mean.

use crate::types::CType;
use k_num::Seq;

/// The library functions (C17 7.21.6.3, 7.21.7.6, 7.21.7.8, 7.21.7.9).
#[derive(Clone, Copy, Debug, PartialEq, Eq)]
pub enum Library {
    /// `getchar`
    Getchar,
    /// `putchar`
    Putchar,
    /// `puts`
    Puts,
    /// `printf`
    Printf,
}

/// The type of a function, and its number among the defined functions of the source.
#[derive(Drop)]
pub struct Signature {
    pub result: CType,
    pub params: Seq<CType>,
    pub number: u32,
}

/// What a name means. `fixed` says that the object itself is const.
#[derive(Drop)]
pub enum Meaning {
    /// The variable of this number in its function.
    Variable { number: u32, of: CType, fixed: bool },
    /// The file object of this number.
    Object { number: u32, of: CType, fixed: bool },
    /// A function.
    Function(Signature),
    /// A library function.
    Library(Library),
}

//! Initialisers (C17 6.7.9).

use k_num::{Box, Place, Seq, Stack};
use k_tree::{Declarator, Init};

/// A brace that is open, and the initialisers in it so far.
#[derive(Drop)]
pub struct Brace {
    pub place: Place,
    pub items: Seq<Init>,
}

/// A declarator whose initialiser is read, and the braces that are open in that.
#[derive(Drop)]
pub struct Opened {
    pub declarator: Box<Declarator>,
    pub braces: Stack<Brace>,
}

/// What a mark behind an initialiser does.
#[derive(Drop)]
pub enum After {
    /// Another initialiser begins.
    Starts { opened: Opened },
    /// A brace is closed.
    Closed { opened: Opened },
    /// The declarator ended before the mark.
    Done { declarator: Box<Declarator> },
    /// The mark can't stand here.
    Refused,
}

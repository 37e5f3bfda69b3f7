//! Declarations (C17 6.7), token by token, from behind their first specifier.
pub mod initialiser;

use crate::declaration::initialiser::{After, Brace};
use crate::expression::Reading;
use crate::stars::Stars;
use crate::turn::Turn;
use k_num::{Box, Place, Seq, Stack};
use k_tree::{Declarator, Word};

/// What stands before the declarator that is read: the specifiers, and the declarators so far. `level` is that of a node
/// in a declarator.
#[derive(Drop)]
pub struct Front {
    pub specs: Seq<Word>,
    pub list: Seq<Declarator>,
    pub level: usize,
}

/// Where the reading of a declaration stands.
#[derive(Drop)]
pub enum DeclarationStage {
    /// Before the name of a declarator.
    Before {
        stars: Stars,
    },
    /// Behind the name of a declarator, or behind a dimension.
    Named {
        declarator: Box<Declarator>,
    },
    /// In a dimension.
    Size {
        declarator: Box<Declarator>,
        reading: Box<Reading>,
    },
    /// Before an initialiser.
    Starts {
        declarator: Box<Declarator>,
        braces: Stack<Brace>,
    },
    /// In an expression that is an initialiser, of which the first token stands at `place`.
    Value {
        declarator: Box<Declarator>,
        braces: Stack<Brace>,
        place: Place,
        reading: Box<Reading>,
    },
    /// Behind an initialiser.
    After {
        declarator: Box<Declarator>,
        braces: Stack<Brace>,
    },
}

/// What has been read of a declaration.
#[derive(Drop)]
pub struct Declaration {
    pub front: Front,
    pub stage: DeclarationStage,
}

/// What a token does in a declaration. It is done with its semicolon: the specifiers, and the declarators.
pub type Declared = Turn<Declaration, (Seq<Word>, Seq<Declarator>)>;

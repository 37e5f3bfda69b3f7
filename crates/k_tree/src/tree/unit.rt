//! The items of a source, and a source as a whole (C17 6.9).

use crate::tokens::word::Word;
use crate::tree::declaration::{Declarator, Params};
use crate::tree::statement::Stmt;
use k_num::{Place, Seq, Text};

/// A source: its items, and the place of its end.
#[derive(Debug, PartialEq, Eq, Drop)]
pub struct Unit {
    pub items: Seq<Item>,
    pub end: Place,
}

/// `specs stars name ( params )`
#[derive(Debug, PartialEq, Eq, Drop)]
pub struct Head {
    pub specs: Seq<Word>,
    pub stars: Seq<bool>,
    pub name: Text,
    pub name_place: Place,
    pub params: Params,
}

/// An item of a source. It stands at its first token.
#[derive(Debug, PartialEq, Eq, Drop)]
pub enum Item {
    /// `head { body }`; `close` is the place of the closing brace.
    Function {
        place: Place,
        head: Head,
        body: Seq<Stmt>,
        close: Place,
    },
    /// `head ;`
    Prototype {
        place: Place,
        head: Head,
    },
    /// `specs list ;`
    Objects {
        place: Place,
        specs: Seq<Word>,
        list: Seq<Declarator>,
    },
}

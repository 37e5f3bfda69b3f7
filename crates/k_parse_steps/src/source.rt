//! A source (C17 6.9), token by token.

use crate::declaration::Declaration;
use crate::parameter::Parameters;
use crate::statement::Body;
use crate::turn::Turn;
use k_num::{Box, Place, Seq, Text};
use k_tree::{Head, Item, Unit, Word};

/// The head of a function without its parameters.
#[derive(Drop)]
pub struct Title {
    pub specs: Seq<Word>,
    pub stars: Seq<bool>,
    pub name: Text,
    pub name_place: Place,
}

/// Where the reading of a source stands.
#[derive(Drop)]
pub enum SourceStage {
    /// An item begins, or the end is there.
    Starts,
    /// In an item that may be a declaration or a function.
    Declares {
        place: Place,
        declaration: Box<Declaration>,
    },
    /// In the parameters of a function.
    Parameters {
        place: Place,
        title: Title,
        parameters: Box<Parameters>,
    },
    /// Behind the head of a function.
    Headed {
        place: Place,
        head: Box<Head>,
    },
    /// In the block of a function.
    Body {
        place: Place,
        head: Box<Head>,
        body: Body,
    },
}

/// What has been read of a source.
#[derive(Drop)]
pub struct Source {
    pub items: Seq<Item>,
    pub stage: SourceStage,
}

/// What a token does in a source. It is done with the end.
pub type Sourced = Turn<Source, Unit>;

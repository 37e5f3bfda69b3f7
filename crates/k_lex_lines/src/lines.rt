//! The lines of a source, by what they are (C17 6.10).

use k_lex_expansion::{Macro, Spelled, Spelling};
use k_lex_pieces::fault::Refusal;
use k_num::{Place, Seq};

/// A token of the source, and where it stands.
#[derive(Drop)]
pub struct Placed {
    pub token: Spelled,
    pub place: Place,
}

/// Why a source is refused.
#[derive(Clone, Copy, Debug, PartialEq, Eq)]
pub enum Wrong {
    /// As a source without groups is.
    Lexical(Refusal),
    /// A call has not as many arguments as parameters, or no `)`.
    MacroArguments,
    /// `##` gives no single token.
    BadPaste,
    BadCondition,
    /// `#elif`, `#else` or `#endif` where none can stand.
    StrayElse,
    /// `#if` without `#endif`.
    OpenIf,
    /// `#error` in a group that is read.
    ErrorLine,
}

/// A refusal and its place.
#[derive(Clone, Copy, Debug, PartialEq, Eq)]
pub struct Fault {
    pub what: Wrong,
    pub place: Place,
}

/// What an `#if` asks (C17 6.10.1p1, p5).
#[derive(Drop)]
pub enum Test {
    /// Whether this condition holds.
    AsksCondition(Seq<Placed>),
    /// Whether a name is defined (`#ifdef`), or, with `false`, is not (`#ifndef`).
    AsksName(bool, Spelling),
}

/// A directive that parts lines into groups (6.10.1).
#[derive(Drop)]
pub enum Branch {
    /// `#if`, `#ifdef`, `#ifndef`.
    Starts(Test),
    /// `#elif` with its condition.
    Elif(Seq<Placed>),
    /// `#else`
    Final,
    /// `#endif`
    Endif,
}

/// Any other directive (6.10.2, 6.10.3, 6.10.5 to 6.10.7).
#[derive(Drop)]
pub enum Directive {
    /// `#define`, with the place of the name.
    Define(Place, Macro),
    Undefine(Spelling),
    /// `#include` of a header, with its brackets and their place.
    Include(Place, Spelling),
    /// `#error`
    Error,
    /// `#pragma`, and `#` alone.
    Nothing,
}

/// A line. A directive has the place of its `#`, and what is wrong with its form, if anything is.
#[derive(Drop)]
pub enum Line {
    Text(Seq<Placed>),
    /// What is no token and stops the reading: with `true` also in a group that isn't read.
    Broken(bool, Fault),
    Branch(Place, Option<Fault>, Branch),
    Directive(Place, Option<Fault>, Directive),
}

//! Why a source is refused, as it is told to whoever wrote it: the place, a sentence that names what is left out and what to write in
//! its place, the line of the source, and a caret under the place.
#![tactic(auto)]

mod front;
mod lexical;
mod line;
mod refusal;
mod rule;
mod sentence;
mod syntax;
mod tables;
mod typing;

pub use refusal::refusal_text;
pub use rule::Rule;
pub use sentence::{
    Directive, Header, Kinds, LeftOut, Library, Limit, Name, Sentence, StrayMark, StrayWord, Token,
    Usage,
};

//! An expression up to the mark that closes it.
ghost use Rattle.std.specs.Prelude.{◌≡◌, ◌&&◌, IfOk};
ghost use Rattle.k_parse_steps.specs.Readings as spec;

use crate::expression::feed_boxed;
use k_num::{Box, NoMemory};
use k_parse_steps::expression::{ExpressionStage, Reading};
use k_parse_steps::reading::{Closer, Maybe, Read};
use k_parse_steps::tokens::token_is_mark;
use k_parse_steps::turn::Turn;
use k_tree::{Expr, Mark, Token};
use std::alloc::Global;

/// The mark that closes an expression.
fn closing(closer: Closer) -> Mark
    ensures { result ≡ spec.closing closer }
{
    match closer {
        Closer::Bracket => Mark::RightBracket,
        Closer::Paren => Mark::RightParen,
        Closer::Semicolon => Mark::Semicolon,
        Closer::Colon => Mark::Colon,
    }
}

/// Is a token the mark that closes an expression?
#[tactic(auto, unfolding(k_parse_steps::specs::Readings::closes))]
pub fn closes(token: &Token, closer: Closer) -> bool
    ensures { result ≡ spec.closes token.now closer }
{
    token_is_mark(token, closing(closer))
}

/// Has nothing of the expression been read yet?
#[tactic(auto, unfolding(k_parse_steps::specs::Readings::is_fresh))]
pub fn is_fresh(reading: &Reading) -> bool
    ensures { result ≡ spec.is_fresh reading.now }
{
    match &reading.stage {
        ExpressionStage::Operand => reading.opens.len() == 0,
        _ => false,
    }
}

/// The next token of an expression up to a mark.
#[tactic(auto, unfolding(k_parse_steps::specs::Readings::read_needed))]
pub fn read_needed(
    alloc: Global,
    reading: Box<Reading>,
    token: &Token,
    closer: Closer,
) -> Result<Read, NoMemory>
    ensures { IfOk result (λ read. read ≡ spec.read_needed reading token.now closer) }
{
    match feed_boxed(alloc, reading, token)? {
        Turn::Goes(reading, reach) => Ok(Turn::Goes(reading, reach)),
        Turn::Done(value) => {
            if closes(token, closer) {
                Ok(Turn::Done(value))
            } else {
                Ok(Turn::Refused)
            }
        }
        Turn::Refused => Ok(Turn::Refused),
    }
}

/// Does a token close an expression of which nothing has been read?
fn is_left_out(reading: &Reading, token: &Token, closer: Closer) -> bool
    ensures { result ≡ (spec.is_fresh reading.now && spec.closes token.now closer) }
{
    is_fresh(reading) && closes(token, closer)
}

/// The next token of an expression that may be left out, up to a mark.
#[tactic(auto, unfolding(k_parse_steps::specs::Readings::read_maybe))]
pub fn read_maybe(
    alloc: Global,
    reading: Box<Reading>,
    token: &Token,
    closer: Closer,
) -> Result<Maybe, NoMemory>
    ensures { IfOk result (λ read. read ≡ spec.read_maybe reading token.now closer) }
{
    if is_left_out(reading.get(), token, closer) {
        return Ok(Turn::Done(None));
    }
    match read_needed(alloc, reading, token, closer)? {
        Turn::Goes(reading, reach) => Ok(Turn::Goes(reading, reach)),
        Turn::Done(value) => Ok(Turn::Done(Some(value))),
        Turn::Refused => Ok(Turn::Refused),
    }
}

/// A value that may be left out, without its box.
pub fn unboxed(value: Option<Box<Expr>>) -> Option<Expr>
    ensures { result ≡ value }
{
    match value {
        None => None,
        Some(value) => Some(value.into_inner()),
    }
}

//! The parts of a `for` (C17 6.8.5.3).
ghost use Rattle.std.specs.Prelude.{◌≡◌, IfOk};
ghost use Rattle.k_parse_steps.specs.Declarations.{begin_declaration};
ghost use Rattle.k_parse_steps.specs.Statements as spec;
ghost use Rattle.k_parse_steps.specs.declared.statement.BlockStage.TheVariants as stages;

use crate::statement::switch::in_switch;
use crate::statement::{await_part, inner_level, steps};
use k_num::{Box, NoMemory, Place, Seq, Stack};
use k_parse_declarations::declaration::{Boxed, begin_declaration, feed_declaration};
use k_parse_expressions::expression::begin_boxed;
use k_parse_expressions::reading::{is_fresh, read_maybe};
use k_parse_steps::declaration::Declaration;
use k_parse_steps::expression::Reading;
use k_parse_steps::operators::is_spec;
use k_parse_steps::reading::{Closer, Maybe};
use k_parse_steps::statement::{BlockStage, Frame, Stepped};
use k_parse_steps::tokens::token_is_mark;
use k_parse_steps::turn::Turn;
use k_tree::{Expr, First, Mark, Stmt, Token, TokenKind, Word};
use std::alloc::Global;

/// The parenthesis of a `for`.
#[tactic(auto, unfolding(k_parse_steps::specs::Statements::for_opened))]
fn opened(
    alloc: Global,
    parts: Seq<Stmt>,
    frames: Stack<Frame>,
    place: Place,
    token: &Token,
) -> Result<Stepped, NoMemory>
    ensures { IfOk result (λ fed. fed ≡ spec.for_opened parts frames place token.now) }
{
    if !token_is_mark(token, Mark::LeftParen) {
        return Ok(Turn::Refused);
    }
    let reading = begin_boxed(alloc, 0, inner_level(&frames)?)?;
    Ok(steps(parts, frames, BlockStage::Start { place, reading }, 0))
}

/// The second part of a `for` begins.
fn second_begins(
    alloc: Global,
    parts: Seq<Stmt>,
    frames: Stack<Frame>,
    place: Place,
    start: Box<First>,
) -> Result<Stepped, NoMemory>
    ensures { IfOk result (λ fed. fed ≡ spec.second_begins parts frames place start) }
{
    let reading = begin_boxed(alloc, 0, inner_level(&frames)?)?;
    let stage = BlockStage::Second {
        place,
        start,
        reading,
    };
    Ok(steps(parts, frames, stage, 0))
}

fn first_of(alloc: Global, value: Option<Box<Expr>>) -> Result<Box<First>, NoMemory>
    ensures { IfOk result (λ first. first ≡ spec.first_of value) }
{
    match value {
        None => Box::new(alloc, First::Nothing),
        Some(value) => Box::new(alloc, First::Value(value.into_inner())),
    }
}

/// The first keyword of a declaration in a `for`, if it is one.
#[tactic(auto, unfolding(k_parse_steps::specs::Statements::specifier))]
fn specifier(reading: &Reading, token: &Token) -> Option<Word>
    ensures { result ≡ spec.specifier reading.now token.now }
{
    match &token.what {
        TokenKind::Word(word) => {
            if is_spec(*word) && is_fresh(reading) {
                Some(*word)
            } else {
                None
            }
        }
        _ => None,
    }
}

/// The declaration of a `for` begins.
fn declaration_begins(
    alloc: Global,
    parts: Seq<Stmt>,
    frames: Stack<Frame>,
    place: Place,
    word: Word,
) -> Result<Stepped, NoMemory>
    ensures { IfOk result (λ fed. fed ≡ spec.steps parts frames (stages.Declares place (begin_declaration word (spec.inner frames))) 0) }
{
    let declaration = begin_declaration(alloc, word, inner_level(&frames)?)?;
    let stage = BlockStage::Declares { place, declaration };
    Ok(steps(parts, frames, stage, 0))
}

/// A token in the first part of a `for`.
#[tactic(auto, unfolding(k_parse_steps::specs::Statements::start))]
fn start(
    alloc: Global,
    parts: Seq<Stmt>,
    frames: Stack<Frame>,
    place: Place,
    reading: Box<Reading>,
    token: &Token,
) -> Result<Stepped, NoMemory>
    ensures { IfOk result (λ fed. fed ≡ spec.start parts frames place reading token.now) }
{
    if let Some(word) = specifier(reading.get(), token) {
        return declaration_begins(alloc, parts, frames, place, word);
    }
    match read_maybe(alloc, reading, token, Closer::Semicolon)? {
        Turn::Goes(reading, reach) => {
            Ok(steps(parts, frames, BlockStage::Start { place, reading }, reach))
        }
        Turn::Done(value) => {
            let first = first_of(alloc, value)?;
            second_begins(alloc, parts, frames, place, first)
        }
        Turn::Refused => Ok(Turn::Refused),
    }
}

/// A token in the declaration of a `for`.
#[tactic(auto, unfolding(k_parse_steps::specs::Statements::for_declares))]
fn declares(
    alloc: Global,
    parts: Seq<Stmt>,
    frames: Stack<Frame>,
    place: Place,
    declaration: Box<Declaration>,
    token: &Token,
) -> Result<Stepped, NoMemory>
    ensures { IfOk result (λ fed. fed ≡ spec.for_declares parts frames place declaration token.now) }
{
    match feed_declaration(alloc, declaration, token)? {
        Turn::Goes(declaration, reach) => {
            let stage = BlockStage::Declares { place, declaration };
            Ok(steps(parts, frames, stage, reach))
        }
        Turn::Done((specs, list)) => {
            let first = Box::new(alloc, First::Declare(specs, list))?;
            second_begins(alloc, parts, frames, place, first)
        }
        Turn::Refused => Ok(Turn::Refused),
    }
}

/// A token in the second part of a `for`.
#[tactic(auto, unfolding(k_parse_steps::specs::Statements::second))]
fn second(
    alloc: Global,
    parts: Seq<Stmt>,
    frames: Stack<Frame>,
    place: Place,
    start: Box<First>,
    reading: Box<Reading>,
    token: &Token,
) -> Result<Stepped, NoMemory>
    ensures { IfOk result (λ fed. fed ≡ spec.second parts frames place start reading token.now) }
{
    match read_maybe(alloc, reading, token, Closer::Semicolon)? {
        Turn::Goes(reading, reach) => {
            let stage = BlockStage::Second {
                place,
                start,
                reading,
            };
            Ok(steps(parts, frames, stage, reach))
        }
        Turn::Done(test) => {
            let reading = begin_boxed(alloc, 0, inner_level(&frames)?)?;
            let stage = BlockStage::Third {
                place,
                start,
                test,
                reading,
            };
            Ok(steps(parts, frames, stage, 0))
        }
        Turn::Refused => Ok(Turn::Refused),
    }
}

/// The parts of a `for` are done.
fn body_begins(
    parts: Seq<Stmt>,
    frames: Stack<Frame>,
    place: Place,
    start: Box<First>,
    test: Option<Box<Expr>>,
    step: Option<Box<Expr>>,
) -> Result<Stepped, NoMemory>
    ensures { IfOk result (λ fed. fed ≡ spec.body_begins parts frames place start test step) }
{
    let frame = Frame::For {
        place,
        start,
        test,
        step,
    };
    await_part(parts, frames, frame, 0)
}

/// A token in the third part of a `for`.
#[tactic(auto, unfolding(k_parse_steps::specs::Statements::third))]
fn third(
    alloc: Global,
    parts: Seq<Stmt>,
    frames: Stack<Frame>,
    place: Place,
    start: Box<First>,
    test: Option<Box<Expr>>,
    reading: Box<Reading>,
    token: &Token,
) -> Result<Stepped, NoMemory>
    ensures { IfOk result (λ fed. fed ≡ spec.third parts frames place start test reading token.now) }
{
    match read_maybe(alloc, reading, token, Closer::Paren)? {
        Turn::Goes(reading, reach) => {
            let stage = BlockStage::Third {
                place,
                start,
                test,
                reading,
            };
            Ok(steps(parts, frames, stage, reach))
        }
        Turn::Done(value) => body_begins(parts, frames, place, start, test, value),
        Turn::Refused => Ok(Turn::Refused),
    }
}

/// A token in the parentheses of a `for`, or in a label or before the braces of a `switch`.
#[tactic(auto, unfolding(k_parse_steps::specs::Statements::in_for))]
pub fn in_for(
    alloc: Global,
    parts: Seq<Stmt>,
    frames: Stack<Frame>,
    stage: BlockStage,
    token: &Token,
) -> Result<Stepped, NoMemory>
    ensures { IfOk result (λ fed. fed ≡ spec.in_for parts frames stage token.now) }
{
    match stage {
        BlockStage::For { place } => opened(alloc, parts, frames, place, token),
        BlockStage::Start { place, reading } => start(alloc, parts, frames, place, reading, token),
        BlockStage::Declares { place, declaration } => {
            declares(alloc, parts, frames, place, declaration, token)
        }
        BlockStage::Second {
            place,
            start,
            reading,
        } => second(alloc, parts, frames, place, start, reading, token),
        BlockStage::Third {
            place,
            start,
            test,
            reading,
        } => third(alloc, parts, frames, place, start, test, reading, token),
        stage => in_switch(alloc, parts, frames, stage, token),
    }
}

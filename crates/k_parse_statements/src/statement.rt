//! The block of a function (C17 6.8), token by token, from behind its opening brace.
mod begin;
mod clause;
mod loops;
mod switch;

ghost use Rattle.std.specs.Prelude.{◌≡◌, IfOk};
ghost use Rattle.k_parse_steps.specs.Statements as spec;

use k_num::{Box, NoMemory, Place, Seq, Stack};
use k_parse_declarations::declaration::{Boxed, feed_declaration};
use k_parse_expressions::reading::{closes, read_maybe, read_needed};
use k_parse_steps::declaration::Declaration;
use k_parse_steps::expression::Reading;
use k_parse_steps::level::plus;
use k_parse_steps::reading::{Closer, Maybe, Read};
use k_parse_steps::statement::{BlockStage, Body, Frame, Stepped};
use k_parse_steps::turn::Turn;
use k_tree::{Stmt, Token};
use std::alloc::Global;

/// The block goes on.
pub fn steps(parts: Seq<Stmt>, frames: Stack<Frame>, stage: BlockStage, reach: usize) -> Stepped
    ensures { result ≡ spec.steps parts frames stage reach }
{
    let body = Body {
        parts,
        frames,
        stage,
    };
    Turn::Goes(body, reach)
}

/// A statement ended.
pub fn whole(
    alloc: Global,
    parts: Seq<Stmt>,
    frames: Stack<Frame>,
    stmt: Stmt,
) -> Result<Stepped, NoMemory>
    ensures { IfOk result (λ fed. fed ≡ spec.whole parts frames stmt) }
{
    let stmt = Box::new(alloc, stmt)?;
    Ok(steps(parts, frames, BlockStage::Whole { stmt }, 0))
}

/// A statement opened, of which a part is awaited.
pub fn await_part(
    parts: Seq<Stmt>,
    mut frames: Stack<Frame>,
    frame: Frame,
    reach: usize,
) -> Result<Stepped, NoMemory>
    ensures { IfOk result (λ fed. fed ≡ spec.await_part parts frames frame reach) }
{
    frames.push(frame)?;
    Ok(steps(parts, frames, BlockStage::Begins, reach))
}

/// The level of a statement that begins.
pub fn level(frames: &Stack<Frame>) -> Result<usize, NoMemory>
    ensures { IfOk result (λ level. level ≡ spec.level frames.now) }
{
    plus(1, frames.len())
}

/// The level of what stands in a statement that begins.
pub fn inner_level(frames: &Stack<Frame>) -> Result<usize, NoMemory>
    ensures { IfOk result (λ level. level ≡ spec.inner frames.now) }
{
    plus(level(frames)?, 1)
}

/// No token of a block was read.
pub fn begin_body(alloc: Global) -> Body
    ensures { result ≡ spec.begin_body }
{
    Body {
        parts: Seq::new(alloc),
        frames: Stack::new(alloc),
        stage: BlockStage::Begins,
    }
}

/// A token in a statement that is an expression.
#[tactic(auto, unfolding(k_parse_steps::specs::Statements::value))]
fn value(
    alloc: Global,
    parts: Seq<Stmt>,
    frames: Stack<Frame>,
    place: Place,
    reading: Box<Reading>,
    token: &Token,
) -> Result<Stepped, NoMemory>
    ensures { IfOk result (λ fed. fed ≡ spec.value parts frames place reading token.now) }
{
    match read_needed(alloc, reading, token, Closer::Semicolon)? {
        Turn::Goes(reading, reach) => {
            Ok(steps(parts, frames, BlockStage::Value { place, reading }, reach))
        }
        Turn::Done(value) => whole(alloc, parts, frames, Stmt::Expr { place, value }),
        Turn::Refused => Ok(Turn::Refused),
    }
}

/// A token in the value of a `return`.
#[tactic(auto, unfolding(k_parse_steps::specs::Statements::in_return))]
fn in_return(
    alloc: Global,
    parts: Seq<Stmt>,
    frames: Stack<Frame>,
    place: Place,
    reading: Box<Reading>,
    token: &Token,
) -> Result<Stepped, NoMemory>
    ensures { IfOk result (λ fed. fed ≡ spec.in_return parts frames place reading token.now) }
{
    match read_maybe(alloc, reading, token, Closer::Semicolon)? {
        Turn::Goes(reading, reach) => {
            Ok(steps(parts, frames, BlockStage::Return { place, reading }, reach))
        }
        Turn::Done(value) => whole(alloc, parts, frames, Stmt::Return { place, value }),
        Turn::Refused => Ok(Turn::Refused),
    }
}

/// A token in a declaration of a block.
#[tactic(auto, unfolding(k_parse_steps::specs::Statements::local))]
fn local(
    alloc: Global,
    parts: Seq<Stmt>,
    frames: Stack<Frame>,
    place: Place,
    declaration: Box<Declaration>,
    token: &Token,
) -> Result<Stepped, NoMemory>
    ensures { IfOk result (λ fed. fed ≡ spec.local parts frames place declaration token.now) }
{
    match feed_declaration(alloc, declaration, token)? {
        Turn::Goes(declaration, reach) => {
            Ok(steps(
                parts,
                frames,
                BlockStage::Local { place, declaration },
                reach,
            ))
        }
        Turn::Done((specs, list)) => {
            whole(alloc, parts, frames, Stmt::Declare { place, specs, list })
        }
        Turn::Refused => Ok(Turn::Refused),
    }
}

/// The semicolon of a statement.
#[tactic(auto, unfolding(k_parse_steps::specs::Statements::semicolon))]
fn semicolon(parts: Seq<Stmt>, frames: Stack<Frame>, stmt: Box<Stmt>, token: &Token) -> Stepped
    ensures { result ≡ spec.semicolon parts frames stmt token.now }
{
    if closes(token, Closer::Semicolon) {
        steps(parts, frames, BlockStage::Whole { stmt }, 0)
    } else {
        Turn::Refused
    }
}

/// The next token of a function's block.
#[tactic(auto, unfolding(k_parse_steps::specs::Statements::feed_body))]
pub fn feed_body(alloc: Global, body: Body, token: &Token) -> Result<Stepped, NoMemory>
    ensures { IfOk result (λ fed. fed ≡ spec.feed_body body token.now) }
{
    let Body {
        parts,
        frames,
        stage,
    } = body;
    match stage {
        BlockStage::Begins => begin::begins(alloc, parts, frames, token),
        BlockStage::Whole { stmt } => clause::behind(alloc, parts, frames, stmt, token),
        BlockStage::Value { place, reading } => value(alloc, parts, frames, place, reading, token),
        BlockStage::Keyword { tested } => clause::opened(alloc, parts, frames, tested, token),
        BlockStage::Test { tested, reading } => clause::test(
            alloc, parts, frames, tested, reading, token,
        ),
        BlockStage::Semicolon { stmt } => Ok(semicolon(parts, frames, stmt, token)),
        BlockStage::Return { place, reading } => in_return(
            alloc, parts, frames, place, reading, token,
        ),
        BlockStage::Local { place, declaration } => {
            local(alloc, parts, frames, place, declaration, token)
        }
        stage => loops::in_for(alloc, parts, frames, stage, token),
    }
}

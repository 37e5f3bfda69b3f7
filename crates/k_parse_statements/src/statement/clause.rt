//! Tests in parentheses, and the token behind a statement.
ghost use Rattle.std.specs.Prelude.{◌≡◌, IfOk};
ghost use Rattle.k_parse_steps.specs.Statements as spec;
ghost use Rattle.k_parse_steps.specs.declared.statement.Frame.TheVariants as frame_;
ghost use Rattle.k_parse_steps.specs.declared.statement.clause.Fitted.TheVariants as fit;

use crate::statement::begin::begins;
use crate::statement::switch::more_switched;
use crate::statement::{await_part, inner_level, steps};
use k_num::{Box, NoMemory, Place, Seq, Stack};
use k_parse_expressions::expression::begin_boxed;
use k_parse_expressions::reading::read_needed;
use k_parse_steps::expression::Reading;
use k_parse_steps::reading::{Closer, Read};
use k_parse_steps::statement::clause::Fitted;
use k_parse_steps::statement::{BlockStage, Frame, Stepped, Tested};
use k_parse_steps::tokens::{token_is_mark, token_is_word};
use k_parse_steps::turn::Turn;
use k_tree::{Expr, Mark, Stmt, Token, Word};
use std::alloc::Global;

/// The parenthesis of a test.
#[tactic(auto, unfolding(k_parse_steps::specs::Statements::opened))]
pub fn opened(
    alloc: Global,
    parts: Seq<Stmt>,
    frames: Stack<Frame>,
    tested: Tested,
    token: &Token,
) -> Result<Stepped, NoMemory>
    ensures { IfOk result (λ fed. fed ≡ spec.opened parts frames tested token.now) }
{
    if !token_is_mark(token, Mark::LeftParen) {
        return Ok(Turn::Refused);
    }
    let reading = begin_boxed(alloc, 0, inner_level(&frames)?)?;
    Ok(steps(parts, frames, BlockStage::Test { tested, reading }, 0))
}

/// A test is done.
#[tactic(auto, unfolding(k_parse_steps::specs::Statements::test_done))]
fn test_done(
    alloc: Global,
    parts: Seq<Stmt>,
    frames: Stack<Frame>,
    tested: Tested,
    test: Box<Expr>,
) -> Result<Stepped, NoMemory>
    ensures { IfOk result (λ fed. fed ≡ spec.test_done parts frames tested test) }
{
    match tested {
        Tested::If { place } => await_part(parts, frames, Frame::Then { place, test }, 0),
        Tested::While { place } => await_part(parts, frames, Frame::While { place, test }, 0),
        Tested::Switch { place } => {
            let stage = BlockStage::Braces { place, on: test };
            Ok(steps(parts, frames, stage, 0))
        }
        Tested::Do { place, body } => {
            let stmt = Box::new(alloc, Stmt::DoWhile { place, body, test })?;
            Ok(steps(parts, frames, BlockStage::Semicolon { stmt }, 0))
        }
    }
}

/// A token in a test.
pub fn test(
    alloc: Global,
    parts: Seq<Stmt>,
    frames: Stack<Frame>,
    tested: Tested,
    reading: Box<Reading>,
    token: &Token,
) -> Result<Stepped, NoMemory>
    ensures { IfOk result (λ fed. fed ≡ spec.test parts frames tested reading token.now) }
{
    match read_needed(alloc, reading, token, Closer::Paren)? {
        Turn::Goes(reading, reach) => {
            Ok(steps(parts, frames, BlockStage::Test { tested, reading }, reach))
        }
        Turn::Done(value) => test_done(alloc, parts, frames, tested, value),
        Turn::Refused => Ok(Turn::Refused),
    }
}

/// The first statement of an `if` ends; `has_else` says whether `else` follows.
#[tactic(auto, unfolding(k_parse_steps::specs::Statements::close))]
fn then_ends(
    alloc: Global,
    place: Place,
    test: Box<Expr>,
    then: Box<Stmt>,
    has_else: bool,
) -> Result<Fitted, NoMemory>
    ensures { IfOk result (λ made. made ≡ spec.close (frame_.Then place test) «then» has_else) }
{
    if has_else {
        let frame = Frame::Then { place, test };
        return Ok(Fitted::Part { frame, stmt: then });
    }
    let whole = Stmt::If {
        place,
        test,
        then,
        other: None,
    };
    fitted(alloc, whole)
}

/// A statement that ends is put into the statement around it; `has_else` says whether `else` follows.
#[tactic(auto, unfolding(k_parse_steps::specs::Statements::close))]
fn close(alloc: Global, frame: Frame, stmt: Box<Stmt>, has_else: bool) -> Result<Fitted, NoMemory>
    ensures { IfOk result (λ made. made ≡ spec.close frame stmt has_else) }
{
    match frame {
        Frame::Then { place, test } => then_ends(alloc, place, test, stmt, has_else),
        Frame::Else { place, test, then } => {
            let whole = Stmt::If {
                place,
                test,
                then,
                other: Some(stmt),
            };
            fitted(alloc, whole)
        }
        Frame::While { place, test } => {
            let body = stmt;
            fitted(alloc, Stmt::While { place, test, body })
        }
        Frame::For {
            place,
            start,
            test,
            step,
        } => {
            let whole = Stmt::For {
                place,
                first: start.into_inner(),
                test,
                step,
                body: stmt,
            };
            fitted(alloc, whole)
        }
        frame => Ok(Fitted::Part { frame, stmt }),
    }
}

/// The statement around ends too.
fn fitted(alloc: Global, stmt: Stmt) -> Result<Fitted, NoMemory>
    ensures { IfOk result (λ made. made ≡ fit.Whole stmt) }
{
    let stmt = Box::new(alloc, stmt)?;
    Ok(Fitted::Whole { stmt })
}

/// `else` behind the statement of an `if`.
fn otherwise(
    parts: Seq<Stmt>,
    frames: Stack<Frame>,
    place: Place,
    test: Box<Expr>,
    then: Box<Stmt>,
) -> Result<Stepped, NoMemory>
    ensures { IfOk result (λ fed. fed ≡ spec.otherwise parts frames place test «then») }
{
    await_part(parts, frames, Frame::Else { place, test, then }, 0)
}

/// `while` behind the statement of a `do`.
#[tactic(auto, unfolding(k_parse_steps::specs::Statements::do_while))]
fn do_while(
    parts: Seq<Stmt>,
    frames: Stack<Frame>,
    place: Place,
    body: Box<Stmt>,
    token: &Token,
) -> Stepped
    ensures { result ≡ spec.do_while parts frames place body token.now }
{
    if !token_is_word(token, Word::While) {
        return Turn::Refused;
    }
    let tested = Tested::Do { place, body };
    steps(parts, frames, BlockStage::Keyword { tested }, 0)
}

/// One more part of a block, and the token behind it.
#[tactic(auto, unfolding(k_parse_steps::specs::Statements::more))]
fn more(
    alloc: Global,
    parts: Seq<Stmt>,
    mut frames: Stack<Frame>,
    place: Place,
    inner: Seq<Stmt>,
    stmt: Box<Stmt>,
    token: &Token,
) -> Result<Stepped, NoMemory>
    ensures { IfOk result (λ fed. fed ≡ spec.more parts frames place inner stmt token.now) }
{
    let mut inner = inner;
    inner.push(stmt.into_inner())?;
    frames.push(Frame::Block {
        place,
        parts: inner,
    })?;
    begins(alloc, parts, frames, token)
}

/// The statement around goes on with the token behind one of its parts.
#[tactic(auto, unfolding(k_parse_steps::specs::Statements::part))]
fn part(
    alloc: Global,
    parts: Seq<Stmt>,
    frames: Stack<Frame>,
    frame: Frame,
    stmt: Box<Stmt>,
    token: &Token,
) -> Result<Stepped, NoMemory>
    ensures { IfOk result (λ fed. fed ≡ spec.part parts frames frame stmt token.now) }
{
    match frame {
        Frame::Then { place, test } => otherwise(parts, frames, place, test, stmt),
        Frame::Do { place } => Ok(do_while(parts, frames, place, stmt, token)),
        Frame::Block {
            place,
            parts: inner,
        } => more(alloc, parts, frames, place, inner, stmt, token),
        Frame::Switch {
            place,
            on,
            parts: inner,
        } => more_switched(alloc, parts, frames, place, on, inner, stmt, token),
        frame => {
            drop(frame);
            Ok(Turn::Refused)
        }
    }
}

/// The token behind a statement.
#[tactic(auto, unfolding(k_parse_steps::specs::Statements::behind))]
pub fn behind(
    alloc: Global,
    mut parts: Seq<Stmt>,
    mut frames: Stack<Frame>,
    stmt: Box<Stmt>,
    token: &Token,
) -> Result<Stepped, NoMemory>
    ensures { IfOk result (λ fed. fed ≡ spec.behind parts frames stmt token.now) }
{
    let Some(frame) = frames.pop() else {
        parts.push(stmt.into_inner())?;
        return begins(alloc, parts, frames, token);
    };
    match close(alloc, frame, stmt, token_is_word(token, Word::Else))? {
        Fitted::Whole { stmt } => behind(alloc, parts, frames, stmt, token),
        Fitted::Part { frame, stmt } => part(alloc, parts, frames, frame, stmt, token),
    }
}

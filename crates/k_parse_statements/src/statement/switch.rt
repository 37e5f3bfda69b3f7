//! The braces of a `switch`, with their labels (C17 6.8.1, 6.8.4.2).
ghost use Rattle.std.specs.Prelude.{◌≡◌, IfOk};
ghost use Rattle.k_parse_steps.specs.Statements as spec;

use crate::statement::begin::begins;
use crate::statement::{await_part, level, steps};
use k_num::{Box, NoMemory, Place, Seq, Stack};
use k_parse_expressions::expression::begin_boxed;
use k_parse_expressions::reading::{closes, read_needed};
use k_parse_steps::expression::Reading;
use k_parse_steps::reading::{Closer, Read};
use k_parse_steps::statement::{BlockStage, Frame, Stepped};
use k_parse_steps::tokens::token_is_mark;
use k_parse_steps::turn::Turn;
use k_tree::{Expr, Mark, Part, Stmt, Token};
use std::alloc::Global;

/// Does a label stand here as well?
#[tactic(auto, unfolding(k_parse_steps::specs::Statements::is_in_switch))]
fn is_in_switch(frames: &Stack<Frame>) -> bool
    ensures { result ≡ spec.is_in_switch frames.now }
{
    matches!(frames.top(), Some(Frame::Switch { .. }))
}

/// The value of a `case` begins.
#[tactic(auto, unfolding(k_parse_steps::specs::Statements::case_begins))]
pub fn case_begins(
    alloc: Global,
    parts: Seq<Stmt>,
    frames: Stack<Frame>,
    place: Place,
) -> Result<Stepped, NoMemory>
    ensures { IfOk result (λ fed. fed ≡ spec.case_begins parts frames place) }
{
    if !is_in_switch(&frames) {
        return Ok(Turn::Refused);
    }
    let reach = level(&frames)?;
    let reading = begin_boxed(alloc, 2, reach)?;
    Ok(steps(parts, frames, BlockStage::Case { place, reading }, reach))
}

/// `default`
#[tactic(auto, unfolding(k_parse_steps::specs::Statements::default_begins))]
pub fn default_begins(parts: Seq<Stmt>, frames: Stack<Frame>, place: Place) -> Stepped
    ensures { result ≡ spec.default_begins parts frames place }
{
    if !is_in_switch(&frames) {
        return Turn::Refused;
    }
    steps(parts, frames, BlockStage::Default { place }, 0)
}

/// The opening brace of a `switch`.
#[tactic(auto, unfolding(k_parse_steps::specs::Statements::braces))]
fn braces(
    alloc: Global,
    parts: Seq<Stmt>,
    frames: Stack<Frame>,
    place: Place,
    on: Box<Expr>,
    token: &Token,
) -> Result<Stepped, NoMemory>
    ensures { IfOk result (λ fed. fed ≡ spec.braces parts frames place on token.now) }
{
    if !token_is_mark(token, Mark::LeftBrace) {
        return Ok(Turn::Refused);
    }
    let frame = Frame::Switch {
        place,
        on,
        parts: Seq::new(alloc),
    };
    await_part(parts, frames, frame, 0)
}

/// A label was read.
#[tactic(auto, unfolding(k_parse_steps::specs::Statements::labelled))]
fn labelled(
    parts: Seq<Stmt>,
    mut frames: Stack<Frame>,
    label: Box<Part>,
) -> Result<Stepped, NoMemory>
    ensures { IfOk result (λ fed. fed ≡ spec.labelled parts frames label) }
{
    match frames.pop() {
        Some(
            Frame::Switch {
                place,
                on,
                parts: mut inner,
            },
        ) => {
            inner.push(label.into_inner())?;
            let frame = Frame::Switch {
                place,
                on,
                parts: inner,
            };
            await_part(parts, frames, frame, 0)
        }
        Some(frame) => {
            drop(frame);
            Ok(Turn::Refused)
        }
        None => Ok(Turn::Refused),
    }
}

/// A token in the value of a `case`.
#[tactic(auto, unfolding(k_parse_steps::specs::Statements::case_value))]
fn case_value(
    alloc: Global,
    parts: Seq<Stmt>,
    frames: Stack<Frame>,
    place: Place,
    reading: Box<Reading>,
    token: &Token,
) -> Result<Stepped, NoMemory>
    ensures { IfOk result (λ fed. fed ≡ spec.case_value parts frames place reading token.now) }
{
    match read_needed(alloc, reading, token, Closer::Colon)? {
        Turn::Goes(reading, reach) => {
            Ok(steps(parts, frames, BlockStage::Case { place, reading }, reach))
        }
        Turn::Done(value) => {
            let label = Box::new(alloc, Part::Case { place, value })?;
            labelled(parts, frames, label)
        }
        Turn::Refused => Ok(Turn::Refused),
    }
}

/// The token behind `default`.
#[tactic(auto, unfolding(k_parse_steps::specs::Statements::default_label))]
fn default_label(
    alloc: Global,
    parts: Seq<Stmt>,
    frames: Stack<Frame>,
    place: Place,
    token: &Token,
) -> Result<Stepped, NoMemory>
    ensures { IfOk result (λ fed. fed ≡ spec.default_label parts frames place token.now) }
{
    if !closes(token, Closer::Colon) {
        return Ok(Turn::Refused);
    }
    let label = Box::new(alloc, Part::Default { place })?;
    labelled(parts, frames, label)
}

/// One more statement in the braces, and the token behind it.
#[tactic(auto, unfolding(k_parse_steps::specs::Statements::more_switched))]
pub fn more_switched(
    alloc: Global,
    parts: Seq<Stmt>,
    mut frames: Stack<Frame>,
    place: Place,
    on: Box<Expr>,
    inner: Seq<Part>,
    stmt: Box<Stmt>,
    token: &Token,
) -> Result<Stepped, NoMemory>
    ensures { IfOk result (λ fed. fed ≡ spec.more_switched parts frames place on inner stmt token.now) }
{
    let own = stmt.get().place();
    let mut inner = inner;
    inner.push(Part::Does { place: own, stmt })?;
    frames.push(Frame::Switch {
        place,
        on,
        parts: inner,
    })?;
    begins(alloc, parts, frames, token)
}

/// A token in a label, or before the braces of a `switch`.
#[tactic(auto, unfolding(k_parse_steps::specs::Statements::in_switch))]
pub fn in_switch(
    alloc: Global,
    parts: Seq<Stmt>,
    frames: Stack<Frame>,
    stage: BlockStage,
    token: &Token,
) -> Result<Stepped, NoMemory>
    ensures { IfOk result (λ fed. fed ≡ spec.in_switch parts frames stage token.now) }
{
    match stage {
        BlockStage::Braces { place, on } => braces(alloc, parts, frames, place, on, token),
        BlockStage::Case { place, reading } => case_value(
            alloc, parts, frames, place, reading, token,
        ),
        BlockStage::Default { place } => default_label(alloc, parts, frames, place, token),
        stage => {
            drop(stage);
            Ok(Turn::Refused)
        }
    }
}

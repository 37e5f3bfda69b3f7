//! The first token of a statement.
ghost use Rattle.std.specs.Prelude.{◌≡◌, IfOk};
ghost use Rattle.k_parse_steps.specs.Expressions as expressions;
ghost use Rattle.k_parse_steps.specs.Statements as spec;
ghost use Rattle.k_parse_steps.specs.declared.statement.BlockStage.TheVariants as stages;

use crate::statement::switch::{case_begins, default_begins};
use crate::statement::{await_part, inner_level, level, steps, whole};
use k_num::{Box, NoMemory, Place, Seq, Stack};
use k_parse_declarations::declaration::begin_declaration;
use k_parse_expressions::expression::{begin_boxed, feed_boxed};
use k_parse_steps::operators::is_spec;
use k_parse_steps::reading::Read;
use k_parse_steps::statement::{BlockStage, Frame, Stepped, Tested};
use k_parse_steps::tokens::{is_mark, is_word};
use k_parse_steps::turn::Turn;
use k_tree::{Mark, Stmt, Token, TokenKind, Word};
use std::alloc::Global;

/// Does a declaration or the end of a block stand here as well?
#[tactic(auto, unfolding(k_parse_steps::specs::Statements::is_in_block))]
fn is_in_block(frames: &Stack<Frame>) -> bool
    ensures { result ≡ spec.is_in_block frames.now }
{
    matches!(frames.top(), None | Some(Frame::Block { .. }))
}

/// The end of a block or of a `switch`.
#[tactic(auto, unfolding(k_parse_steps::specs::Statements::block_ends))]
fn block_ends(
    alloc: Global,
    outer: Seq<Stmt>,
    mut frames: Stack<Frame>,
) -> Result<Stepped, NoMemory>
    ensures { IfOk result (λ fed. fed ≡ spec.block_ends outer frames) }
{
    match frames.pop() {
        None => Ok(Turn::Done(outer)),
        Some(Frame::Block { place, parts }) => {
            whole(alloc, outer, frames, Stmt::Block { place, parts })
        }
        Some(Frame::Switch { place, on, parts }) => {
            whole(alloc, outer, frames, Stmt::Switch { place, on, parts })
        }
        Some(frame) => {
            drop(frame);
            Ok(Turn::Refused)
        }
    }
}

/// A declaration of a block begins.
#[tactic(auto, unfolding(k_parse_steps::specs::Statements::declares))]
fn declares(
    alloc: Global,
    parts: Seq<Stmt>,
    frames: Stack<Frame>,
    word: Word,
    place: Place,
) -> Result<Stepped, NoMemory>
    ensures { IfOk result (λ fed. fed ≡ spec.declares parts frames word place) }
{
    if !is_spec(word) || !is_in_block(&frames) {
        return Ok(Turn::Refused);
    }
    let reach = level(&frames)?;
    let declaration = begin_declaration(alloc, word, inner_level(&frames)?)?;
    Ok(steps(
        parts,
        frames,
        BlockStage::Local { place, declaration },
        reach,
    ))
}

/// A keyword that begins a declaration, a statement or a label.
#[tactic(auto, unfolding(k_parse_steps::specs::Statements::keyword))]
fn keyword(
    alloc: Global,
    parts: Seq<Stmt>,
    frames: Stack<Frame>,
    word: Word,
    place: Place,
) -> Result<Stepped, NoMemory>
    ensures { IfOk result (λ fed. fed ≡ spec.keyword parts frames word place) }
{
    if is_spec(word) {
        declares(alloc, parts, frames, word, place)
    } else {
        jump(alloc, parts, frames, word, place)
    }
}

/// A keyword that begins a statement or a label.
#[tactic(auto, unfolding(k_parse_steps::specs::Statements::jump))]
fn jump(
    alloc: Global,
    parts: Seq<Stmt>,
    frames: Stack<Frame>,
    word: Word,
    place: Place,
) -> Result<Stepped, NoMemory>
    ensures { IfOk result (λ fed. fed ≡ spec.jump parts frames word place) }
{
    let own = level(&frames)?;
    let inner = inner_level(&frames)?;
    match word {
        Word::If => Ok(test_begins(parts, frames, Tested::If { place }, inner)),
        Word::While => Ok(test_begins(parts, frames, Tested::While { place }, inner)),
        Word::Do => await_part(parts, frames, Frame::Do { place }, inner),
        Word::For => Ok(steps(parts, frames, BlockStage::For { place }, inner)),
        Word::Switch => Ok(test_begins(parts, frames, Tested::Switch { place }, inner)),
        Word::Case => case_begins(alloc, parts, frames, place),
        Word::Default => Ok(default_begins(parts, frames, place)),
        Word::Break => await_semicolon(alloc, parts, frames, Stmt::Break { place }, own),
        Word::Continue => await_semicolon(alloc, parts, frames, Stmt::Continue { place }, own),
        Word::Return => return_begins(alloc, parts, frames, place),
        _ => Ok(Turn::Refused),
    }
}

/// A keyword behind which a test stands.
fn test_begins(parts: Seq<Stmt>, frames: Stack<Frame>, tested: Tested, reach: usize) -> Stepped
    ensures { result ≡ spec.steps parts frames (stages.Keyword tested) reach }
{
    steps(parts, frames, BlockStage::Keyword { tested }, reach)
}

/// A statement that is whole but for its semicolon.
fn await_semicolon(
    alloc: Global,
    parts: Seq<Stmt>,
    frames: Stack<Frame>,
    stmt: Stmt,
    reach: usize,
) -> Result<Stepped, NoMemory>
    ensures { IfOk result (λ fed. fed ≡ spec.steps parts frames (stages.Semicolon stmt) reach) }
{
    let stmt = Box::new(alloc, stmt)?;
    Ok(steps(parts, frames, BlockStage::Semicolon { stmt }, reach))
}

/// `return`
fn return_begins(
    alloc: Global,
    parts: Seq<Stmt>,
    frames: Stack<Frame>,
    place: Place,
) -> Result<Stepped, NoMemory>
    ensures { IfOk result (λ fed. fed ≡ spec.steps parts frames (stages.Return place (expressions.begin 0 (spec.inner frames))) (spec.level frames)) }
{
    let reach = level(&frames)?;
    let reading = begin_boxed(alloc, 0, inner_level(&frames)?)?;
    Ok(steps(parts, frames, BlockStage::Return { place, reading }, reach))
}

/// The first token of a statement that is an expression.
#[tactic(auto, unfolding(k_parse_steps::specs::Statements::expression))]
fn expression(
    alloc: Global,
    parts: Seq<Stmt>,
    frames: Stack<Frame>,
    token: &Token,
) -> Result<Stepped, NoMemory>
    ensures { IfOk result (λ fed. fed ≡ spec.expression parts frames token.now) }
{
    let reading = begin_boxed(alloc, 0, inner_level(&frames)?)?;
    match feed_boxed(alloc, reading, token)? {
        Turn::Goes(reading, reach) => {
            let place = token.place;
            Ok(steps(parts, frames, BlockStage::Value { place, reading }, reach))
        }
        Turn::Done(value) => {
            drop(value);
            Ok(Turn::Refused)
        }
        Turn::Refused => Ok(Turn::Refused),
    }
}

/// `;` alone.
fn empty(
    alloc: Global,
    parts: Seq<Stmt>,
    frames: Stack<Frame>,
    place: Place,
) -> Result<Stepped, NoMemory>
    ensures { IfOk result (λ fed. fed ≡ spec.empty parts frames place) }
{
    let reach = level(&frames)?;
    let stmt = Box::new(alloc, Stmt::Empty { place })?;
    Ok(steps(parts, frames, BlockStage::Whole { stmt }, reach))
}

/// A mark that begins a statement, or ends a block.
#[tactic(auto, unfolding(k_parse_steps::specs::Statements::mark_begins))]
fn mark_begins(
    alloc: Global,
    parts: Seq<Stmt>,
    frames: Stack<Frame>,
    token: &Token,
    mark: Mark,
) -> Result<Stepped, NoMemory>
    ensures { IfOk result (λ fed. fed ≡ spec.mark_begins parts frames token.now mark) }
{
    if is_mark(mark, Mark::Semicolon) {
        empty(alloc, parts, frames, token.place)
    } else if is_mark(mark, Mark::LeftBrace) {
        block_begins(alloc, parts, frames, token.place)
    } else if is_mark(mark, Mark::RightBrace) {
        block_ends(alloc, parts, frames)
    } else {
        expression(alloc, parts, frames, token)
    }
}

/// A block begins.
fn block_begins(
    alloc: Global,
    parts: Seq<Stmt>,
    frames: Stack<Frame>,
    place: Place,
) -> Result<Stepped, NoMemory>
    ensures { IfOk result (λ fed. fed ≡ spec.block_begins parts frames place) }
{
    let reach = level(&frames)?;
    let frame = Frame::Block {
        place,
        parts: Seq::new(alloc),
    };
    await_part(parts, frames, frame, reach)
}

/// The first token of a statement, or in a block of a declaration, or its end.
#[tactic(auto, unfolding(k_parse_steps::specs::Statements::begins))]
pub fn begins(
    alloc: Global,
    parts: Seq<Stmt>,
    frames: Stack<Frame>,
    token: &Token,
) -> Result<Stepped, NoMemory>
    ensures { IfOk result (λ fed. fed ≡ spec.begins parts frames token.now) }
{
    match &token.what {
        TokenKind::Mark(mark) => mark_begins(alloc, parts, frames, token, *mark),
        TokenKind::Word(word) => {
            if is_word(*word, Word::Sizeof) {
                expression(alloc, parts, frames, token)
            } else {
                keyword(alloc, parts, frames, *word, token.place)
            }
        }
        _ => expression(alloc, parts, frames, token),
    }
}

//! The token behind an operand.
ghost use Rattle.std.specs.Prelude.{◌≡◌, IfOk};
ghost use Rattle.k_parse_steps.specs.Expressions as spec;
ghost use Rattle.k_parse_steps.specs.Level as levels;

use crate::expression::call::argued;
use crate::expression::plug::plug;
use crate::expression::{goes, hole, level, refused};
use k_num::{Box, NoMemory, Place, Stack};
use k_parse_steps::expression::call::Called;
use k_parse_steps::expression::plug::Plugged;
use k_parse_steps::expression::{ExpressionStage, Fed, Open, Site, Term};
use k_parse_steps::level::{above, plus};
use k_parse_steps::operators::{is_step, takes};
use k_parse_steps::tokens::is_mark;
use k_parse_steps::turn::Turn;
use k_tree::{Expr, Mark, Token, TokenKind};
use std::alloc::Global;

/// The deepest level of an operand of so many levels, of which an operator behind it makes sure.
fn reach_of(site: Site, opens: &Stack<Open>, height: usize) -> Result<usize, NoMemory>
    ensures { IfOk result (λ reach. reach ≡ levels.plus (spec.level site opens.now) height) }
{
    plus(level(site, opens)?, height)
}

/// An operator goes on with an operand.
#[tactic(auto, unfolding(k_parse_steps::specs::Expressions::take_operator))]
fn take(
    alloc: Global,
    site: Site,
    mut opens: Stack<Open>,
    left: Term,
    op: Mark,
    place: Place,
) -> Result<Fed, NoMemory>
    ensures { IfOk result (λ fed. fed ≡ spec.take_operator site opens left op place) }
{
    let reach = reach_of(site, &opens, left.height)?;
    if is_step(op) {
        let term = posted(alloc, place, op, left)?;
        return Ok(goes(site, opens, ExpressionStage::Value { term }, reach));
    }
    opens.push(operator_opens(op, left, place))?;
    Ok(goes(site, opens, ExpressionStage::Operand, reach))
}

/// The construct that an operator behind an operand opens.
fn operator_opens(op: Mark, left: Term, place: Place) -> Open
    ensures { result ≡ spec.operator_opens op left place }
{
    if is_mark(op, Mark::LeftBracket) {
        Open::Index { place, base: left }
    } else if is_mark(op, Mark::Question) {
        Open::Then { place, test: left }
    } else {
        Open::Infix { place, op, left }
    }
}

fn posted(alloc: Global, place: Place, op: Mark, term: Term) -> Result<Term, NoMemory>
    ensures { IfOk result (λ made. made ≡ spec.posted place op term) }
{
    let height = above(term.height, 0)?;
    let of = term.tree;
    Ok(Term {
        tree: Box::new(alloc, Expr::Post { place, op, of })?,
        rank: 15,
        height,
    })
}

fn paren(alloc: Global, place: Place, term: Term) -> Result<Term, NoMemory>
    ensures { IfOk result (λ made. made ≡ spec.enclosed place term) }
{
    let height = above(term.height, 0)?;
    let of = term.tree;
    Ok(Term {
        tree: Box::new(alloc, Expr::Paren { place, of })?,
        rank: 16,
        height,
    })
}

fn indexed(alloc: Global, place: Place, base: Term, index: Term) -> Result<Term, NoMemory>
    ensures { IfOk result (λ made. made ≡ spec.indexed place base index) }
{
    let height = above(base.height, index.height)?;
    let (base, index) = (base.tree, index.tree);
    Ok(Term {
        tree: Box::new(alloc, Expr::Index { place, base, index })?,
        rank: 15,
        height,
    })
}

/// A value that ends by a token of the construct around it.
fn valued(site: Site, opens: Stack<Open>, term: Term) -> Fed
    ensures { result ≡ spec.valued site opens term }
{
    goes(site, opens, ExpressionStage::Value { term }, 0)
}

/// `test ? then :`
fn colon(
    site: Site,
    mut opens: Stack<Open>,
    place: Place,
    test: Term,
    then: Term,
) -> Result<Fed, NoMemory>
    ensures { IfOk result (λ fed. fed ≡ spec.colon site opens place test «then») }
{
    opens.push(Open::Other { place, test, then })?;
    Ok(goes(site, opens, ExpressionStage::Operand, 0))
}

/// The mark behind the second operand of a conditional expression.
#[tactic(auto, unfolding(k_parse_steps::specs::Expressions::then_ends))]
fn then_ends(
    site: Site,
    opens: Stack<Open>,
    place: Place,
    test: Term,
    then: Term,
    mark: Mark,
) -> Result<Fed, NoMemory>
    ensures { IfOk result (λ fed. fed ≡ spec.then_ends site opens place test «then» mark) }
{
    match mark {
        Mark::Colon => colon(site, opens, place, test, then),
        _ => Ok(Turn::Refused),
    }
}

/// The mark behind an expression in parentheses.
#[tactic(auto, unfolding(k_parse_steps::specs::Expressions::paren_ends))]
fn paren_ends(
    alloc: Global,
    site: Site,
    opens: Stack<Open>,
    place: Place,
    term: Term,
    mark: Mark,
) -> Result<Fed, NoMemory>
    ensures { IfOk result (λ fed. fed ≡ spec.paren_ends site opens place term mark) }
{
    match mark {
        Mark::RightParen => {
            let term = paren(alloc, place, term)?;
            Ok(valued(site, opens, term))
        }
        _ => Ok(Turn::Refused),
    }
}

/// The mark behind an index.
#[tactic(auto, unfolding(k_parse_steps::specs::Expressions::index_ends))]
fn index_ends(
    alloc: Global,
    site: Site,
    opens: Stack<Open>,
    place: Place,
    base: Term,
    index: Term,
    mark: Mark,
) -> Result<Fed, NoMemory>
    ensures { IfOk result (λ fed. fed ≡ spec.index_ends site opens place base index mark) }
{
    match mark {
        Mark::RightBracket => {
            let term = indexed(alloc, place, base, index)?;
            Ok(valued(site, opens, term))
        }
        _ => Ok(Turn::Refused),
    }
}

/// The construct around a value goes on with the mark behind it.
#[tactic(auto, unfolding(k_parse_steps::specs::Expressions::enclose))]
fn enclose(
    alloc: Global,
    site: Site,
    opens: Stack<Open>,
    around: Open,
    term: Term,
    mark: Mark,
) -> Result<Fed, NoMemory>
    ensures { IfOk result (λ fed. fed ≡ spec.enclose site opens around term mark) }
{
    match around {
        Open::Then { place, test } => then_ends(site, opens, place, test, term, mark),
        Open::Paren { place } => paren_ends(alloc, site, opens, place, term, mark),
        Open::Index { place, base } => index_ends(alloc, site, opens, place, base, term, mark),
        Open::Call {
            place,
            name,
            mut args,
            height,
        } => {
            let height = height.max(term.height);
            args.push(term.tree.into_inner())?;
            let called = Called {
                place,
                name,
                args,
                height,
            };
            argued(alloc, site, opens, called, mark)
        }
        around => Ok(refused(around)),
    }
}

/// Is a token an operator that goes on with an operand of this rank?
fn takes_token(hole: u8, rank: u8, token: &Token) -> bool
    ensures { result ≡ spec.takes_token hole rank token.now.what }
{
    match &token.what {
        TokenKind::Mark(mark) => takes(hole, rank, *mark),
        _ => false,
    }
}

/// A token that goes on with an operand.
fn take_token(
    alloc: Global,
    site: Site,
    opens: Stack<Open>,
    term: Term,
    token: &Token,
) -> Result<Fed, NoMemory>
    ensures { IfOk result (λ fed. fed ≡ spec.take_token site opens term token.now.what token.now.place) }
{
    match &token.what {
        TokenKind::Mark(mark) => take(alloc, site, opens, term, *mark, token.place),
        _ => Ok(Turn::Refused),
    }
}

/// A token behind the last operand of the construct around.
fn enclose_by(
    alloc: Global,
    site: Site,
    opens: Stack<Open>,
    around: Open,
    term: Term,
    token: &Token,
) -> Result<Fed, NoMemory>
    ensures { IfOk result (λ fed. fed ≡ spec.enclose_by site opens around term token.now.what) }
{
    match &token.what {
        TokenKind::Mark(mark) => enclose(alloc, site, opens, around, term, *mark),
        _ => Ok(refused(around)),
    }
}

/// A token that doesn't go on with an operand ends it, and goes to the construct around.
#[tactic(auto, unfolding(k_parse_steps::specs::Expressions::value))]
pub fn value(
    alloc: Global,
    site: Site,
    mut opens: Stack<Open>,
    term: Term,
    token: &Token,
) -> Result<Fed, NoMemory>
    ensures { IfOk result (λ fed. fed ≡ spec.value site opens term token.now) }
{
    let goes_on = takes_token(hole(site, &opens), term.rank, token);
    match opens.pop() {
        None => {
            if goes_on {
                return take_token(alloc, site, opens, term, token);
            }
            Ok(Turn::Done(term.tree))
        }
        Some(around) => {
            if goes_on {
                opens.push(around)?;
                return take_token(alloc, site, opens, term, token);
            }
            match plug(alloc, around, term)? {
                Plugged::Whole { term } => value(alloc, site, opens, term, token),
                Plugged::Part { around, term } => {
                    enclose_by(alloc, site, opens, around, term, token)
                }
            }
        }
    }
}

//! Expressions (C17 6.5), token by token.
mod call;
mod close;
mod operand;
mod plug;
mod types;

ghost use Rattle.std.specs.Prelude.{◌≡◌, IfOk};
ghost use Rattle.k_parse_steps.specs.Expressions as spec;
ghost use Rattle.k_parse_steps.specs.declared.turn.Turn.TheVariants as turns;

use k_num::{Box, NoMemory, Place, Seq, Stack, Text};
use k_parse_steps::expression::{ExpressionStage, Fed, Open, Reading, Site, Term};
use k_parse_steps::level::plus;
use k_parse_steps::operators::right_rank;
use k_parse_steps::reading::Read;
use k_parse_steps::tokens::token_is_mark;
use k_parse_steps::turn::Turn;
use k_tree::{Expr, Mark, Token};
use std::alloc::Global;

/// The expression goes on.
fn goes(site: Site, opens: Stack<Open>, stage: ExpressionStage, reach: usize) -> Fed
    ensures { result ≡ spec.goes site opens stage reach }
{
    let reading = Reading { site, opens, stage };
    Turn::Goes(reading, reach)
}

/// The token can't stand in the construct around it.
fn refused(around: Open) -> Fed
    ensures { result ≡ turns.Refused }
{
    drop(around);
    Turn::Refused
}

/// The level of a node that stands in the innermost open construct.
fn level(site: Site, opens: &Stack<Open>) -> Result<usize, NoMemory>
    ensures { IfOk result (λ level. level ≡ spec.level site opens.now) }
{
    plus(site.level, opens.len())
}

/// The least rank of an operand in the innermost open construct.
#[tactic(auto, unfolding(k_parse_steps::specs::Expressions::hole))]
fn hole(site: Site, opens: &Stack<Open>) -> u8
    ensures { result ≡ spec.hole site opens.now }
{
    match opens.top() {
        None => site.rank,
        Some(Open::Infix { op, .. }) => right_rank(*op),
        Some(Open::Other { .. }) => 2,
        Some(Open::Cast { .. }) => 13,
        Some(Open::Prefix { op, .. }) => prefix_rank(*op),
        Some(Open::Sizeof { .. }) => 14,
        Some(Open::Call { .. }) => 1,
        Some(Open::Then { .. } | Open::Paren { .. } | Open::Index { .. }) => 0,
    }
}

/// The least rank of an operand behind an operator before it.
#[tactic(auto, unfolding(k_parse_steps::specs::Expressions::prefix_rank))]
fn prefix_rank(op: Mark) -> u8
    ensures { result ≡ spec.prefix_rank op }
{
    if k_parse_steps::operators::is_step(op) {
        14
    } else {
        13
    }
}

/// The next token of an expression.
#[tactic(auto, unfolding(k_parse_steps::specs::Expressions::feed))]
fn feed(alloc: Global, reading: Reading, token: &Token) -> Result<Fed, NoMemory>
    ensures { IfOk result (λ fed. fed ≡ spec.feed reading token.now) }
{
    let Reading { site, opens, stage } = reading;
    match stage {
        ExpressionStage::Operand => operand::operand(alloc, site, opens, token),
        ExpressionStage::Named { place, name } => named(alloc, site, opens, place, name, token),
        ExpressionStage::Type { specs, stars } => {
            types::in_type(alloc, site, opens, specs, stars, token)
        },
        ExpressionStage::Value { term } => close::value(alloc, site, opens, term, token),
    }
}

/// Behind a name: a call begins, or the name stands for itself.
#[tactic(auto, unfolding(k_parse_steps::specs::Expressions::named))]
fn named(
    alloc: Global,
    site: Site,
    mut opens: Stack<Open>,
    place: Place,
    name: Text,
    token: &Token,
) -> Result<Fed, NoMemory>
    ensures { IfOk result (λ fed. fed ≡ spec.named site opens place name token.now) }
{
    if token_is_mark(token, Mark::LeftParen) {
        opens.push(Open::Call {
            place,
            name,
            args: Seq::new(alloc),
            height: 0,
        })?;
        return Ok(goes(site, opens, ExpressionStage::Operand, 0));
    }
    let term = Term {
        tree: Box::new(alloc, Expr::Name { place, name })?,
        rank: 16,
        height: 1,
    };
    close::value(alloc, site, opens, term, token)
}

/// An expression begins.
fn begin(alloc: Global, rank: u8, level: usize) -> Reading
    ensures { result ≡ spec.begin rank level }
{
    Reading {
        site: Site { rank, level },
        opens: Stack::new(alloc),
        stage: ExpressionStage::Operand,
    }
}

/// The same, in a box.
pub fn begin_boxed(alloc: Global, rank: u8, level: usize) -> Result<Box<Reading>, NoMemory>
    ensures { IfOk result (λ reading. reading ≡ spec.begin rank level) }
{
    Box::new(alloc, begin(alloc, rank, level))
}

/// The next token of an expression in a box.
pub fn feed_boxed(alloc: Global, reading: Box<Reading>, token: &Token) -> Result<Read, NoMemory>
    ensures { IfOk result (λ read. read ≡ spec.feed reading token.now) }
{
    match feed(alloc, reading.into_inner(), token)? {
        Turn::Goes(reading, reach) => {
            let reading = Box::new(alloc, reading)?;
            Ok(Turn::Goes(reading, reach))
        }
        Turn::Done(value) => Ok(Turn::Done(value)),
        Turn::Refused => Ok(Turn::Refused),
    }
}

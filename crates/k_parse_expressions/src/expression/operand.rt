//! The first token of an operand.
ghost use Rattle.std.specs.Prelude.{◌≡◌, IfOk, nat_eq, length};
ghost use Rattle.k_parse_steps.specs.Expressions as spec;
ghost use Rattle.k_parse_steps.specs.Operators.{is_prefix_mark};
ghost use Rattle.k_parse_steps.specs.declared.expression.ExpressionStage.TheVariants as stages;
ghost use Rattle.k_tree.specs.Ranked as ranked;

use crate::expression::{goes, hole, level, refused};
use k_num::{Box, NoMemory, Place, Seq, Stack, Text};
use k_parse_steps::expression::{ExpressionStage, Fed, Open, Site, Term};
use k_parse_steps::level::plus;
use k_parse_steps::operators::{is_spec, is_step};
use k_parse_steps::stars::no_stars;
use k_parse_steps::tokens::{is_mark, is_word};
use k_parse_steps::turn::Turn;
use k_tree::{Expr, Mark, Token, TokenKind, Word};
use std::alloc::Global;

/// An operand of one token, which lies at this level.
fn leaf(
    alloc: Global,
    site: Site,
    opens: Stack<Open>,
    tree: Expr,
    own: usize,
) -> Result<Fed, NoMemory>
    ensures { IfOk result (λ fed. fed ≡ spec.goes site opens (stages.Value (spec.term tree 16 1)) own) }
{
    let term = Term {
        tree: Box::new(alloc, tree)?,
        rank: 16,
        height: 1,
    };
    Ok(goes(site, opens, ExpressionStage::Value { term }, own))
}

/// `(` before an operand. Behind `sizeof` it may belong to a type, which adds no level.
#[tactic(auto, unfolding(k_parse_steps::specs::Expressions::opened))]
fn opened(site: Site, mut opens: Stack<Open>, place: Place) -> Result<Fed, NoMemory>
    ensures { IfOk result (λ fed. fed ≡ spec.opened site opens place) }
{
    let inner = plus(level(site, &opens)?, 1)?;
    let reach = match opens.top() {
        Some(Open::Sizeof { .. }) => 0,
        _ => inner,
    };
    opens.push(Open::Paren { place })?;
    Ok(goes(site, opens, ExpressionStage::Operand, reach))
}

/// Are there no arguments?
fn has_none(args: &Seq<Expr>) -> bool
    ensures { result ≡ nat_eq (length args.now) 0 }
{
    args.len() == 0
}

/// `)` where an operand could begin: the end of a call without arguments.
#[tactic(auto, unfolding(k_parse_steps::specs::Expressions::no_arguments))]
fn no_arguments(alloc: Global, site: Site, mut opens: Stack<Open>) -> Result<Fed, NoMemory>
    ensures { IfOk result (λ fed. fed ≡ spec.no_arguments site opens) }
{
    match opens.pop() {
        Some(
            Open::Call {
                place,
                name,
                args,
                height: _height,
            },
        ) => {
            if !has_none(&args) {
                return Ok(Turn::Refused);
            }
            let term = Term {
                tree: Box::new(alloc, Expr::Call { place, name, args })?,
                rank: 15,
                height: 1,
            };
            Ok(goes(site, opens, ExpressionStage::Value { term }, 0))
        }
        Some(around) => Ok(refused(around)),
        None => Ok(Turn::Refused),
    }
}

/// An operator before an operand.
#[tactic(auto, unfolding(k_parse_steps::specs::Expressions::prefix_operator))]
fn prefix(site: Site, mut opens: Stack<Open>, op: Mark, place: Place) -> Result<Fed, NoMemory>
    ensures { IfOk result (λ fed. fed ≡ spec.prefix_operator site opens op place) }
{
    let reach = plus(level(site, &opens)?, 1)?;
    opens.push(Open::Prefix { place, op })?;
    Ok(goes(site, opens, ExpressionStage::Operand, reach))
}

/// Is it a unary operator other than `++` and `--`?
fn is_unary(mark: Mark) -> bool
    ensures { result ≡ ranked.is_unary mark }
{
    matches!(
        mark,
        Mark::Ampersand | Mark::Star | Mark::Plus | Mark::Minus | Mark::Tilde | Mark::Exclaim
    )
}

/// Is it an operator that stands before an operand?
#[tactic(auto, unfolding(k_parse_steps::specs::Operators::is_prefix_mark, k_parse_steps::specs::Operators::is_step_mark))]
fn is_prefix(mark: Mark) -> bool
    ensures { result ≡ is_prefix_mark mark }
{
    is_step(mark) || is_unary(mark)
}

/// A mark where an operand begins.
#[tactic(auto, unfolding(k_parse_steps::specs::Expressions::mark_operand))]
fn mark(
    alloc: Global,
    site: Site,
    opens: Stack<Open>,
    mark: Mark,
    place: Place,
) -> Result<Fed, NoMemory>
    ensures { IfOk result (λ fed. fed ≡ spec.mark_operand site opens mark place) }
{
    if is_mark(mark, Mark::LeftParen) {
        return opened(site, opens, place);
    }
    if is_mark(mark, Mark::RightParen) {
        return no_arguments(alloc, site, opens);
    }
    if is_prefix(mark) {
        return prefix(site, opens, mark, place);
    }
    Ok(Turn::Refused)
}

/// May the name of a type begin here? Then a `(` stands before it, and that may begin a cast, or follows `sizeof`.
#[tactic(auto, unfolding(k_parse_steps::specs::Expressions::is_before_type))]
fn is_before_type(site: Site, opens: &mut Stack<Open>) -> Result<bool, NoMemory>
    ensures kept { IfOk result (λ _. opens.new ≡ opens.old) }
    ensures value { IfOk result (λ before. before ≡ spec.is_before_type site opens.old) }
{
    match opens.pop() {
        Some(Open::Paren { place }) => {
            let before = match opens.top() {
                Some(Open::Sizeof { .. }) => true,
                _ => hole(site, opens) <= 13,
            };
            opens.push(Open::Paren { place })?;
            Ok(before)
        }
        Some(open) => {
            opens.push(open)?;
            Ok(false)
        }
        None => Ok(false),
    }
}

/// A keyword where an operand begins.
#[tactic(auto, unfolding(k_parse_steps::specs::Expressions::word_operand))]
fn word(
    alloc: Global,
    site: Site,
    mut opens: Stack<Open>,
    word: Word,
    place: Place,
) -> Result<Fed, NoMemory>
    ensures { IfOk result (λ fed. fed ≡ spec.word_operand site opens word place) }
{
    if is_word(word, Word::Sizeof) {
        let reach = level(site, &opens)?;
        opens.push(Open::Sizeof { place })?;
        return Ok(goes(site, opens, ExpressionStage::Operand, reach));
    }
    if !is_spec(word) {
        return Ok(Turn::Refused);
    }
    if !is_before_type(site, &mut opens)? {
        return Ok(Turn::Refused);
    }
    type_begins(alloc, site, opens, word)
}

/// The first specifier of a type.
fn type_begins(alloc: Global, site: Site, opens: Stack<Open>, word: Word) -> Result<Fed, NoMemory>
    ensures { IfOk result (λ fed. fed ≡ spec.type_begun site opens word) }
{
    let mut specs = Seq::new(alloc);
    specs.push(word)?;
    let now = ExpressionStage::Type {
        specs,
        stars: no_stars(alloc),
    };
    Ok(goes(site, opens, now, 0))
}

/// The first token of an operand.
#[tactic(auto, unfolding(k_parse_steps::specs::Expressions::operand))]
pub fn operand(
    alloc: Global,
    site: Site,
    opens: Stack<Open>,
    token: &Token,
) -> Result<Fed, NoMemory>
    ensures { IfOk result (λ fed. fed ≡ spec.operand site opens token.now) }
{
    let place = token.place;
    let own = level(site, &opens)?;
    match &token.what {
        TokenKind::Name(name) => {
            let name = Text::copy_of(alloc, name.as_str())?;
            Ok(goes(site, opens, ExpressionStage::Named { place, name }, own))
        }
        TokenKind::Number(kind, value) => {
            let tree = Expr::Number {
                place,
                kind: *kind,
                value: *value,
            };
            leaf(alloc, site, opens, tree, own)
        }
        TokenKind::Char(value) => {
            let tree = Expr::Char {
                place,
                value: *value,
            };
            leaf(alloc, site, opens, tree, own)
        }
        TokenKind::Str(bytes) => {
            let bytes = Seq::copy_of(alloc, bytes.as_slice())?;
            leaf(alloc, site, opens, Expr::Str { place, bytes }, own)
        }
        TokenKind::Mark(mark_read) => mark(alloc, site, opens, *mark_read, place),
        TokenKind::Word(word_read) => word(alloc, site, opens, *word_read, place),
        TokenKind::End => Ok(Turn::Refused),
    }
}

//! The name of a type, in a cast or behind `sizeof` (C17 6.7.7).
ghost use Rattle.std.specs.Prelude.{◌≡◌, IfOk};
ghost use Rattle.k_parse_steps.specs.Expressions as spec;
ghost use Rattle.k_parse_steps.specs.declared.expression.Open.TheVariants as open_;

use crate::expression::{goes, refused};
use k_num::{Box, NoMemory, Place, Seq, Stack};
use k_parse_steps::expression::{ExpressionStage, Fed, Open, Site, Term};
use k_parse_steps::stars::{Stars, all_stars, star, type_word};
use k_parse_steps::turn::Turn;
use k_tree::{Expr, Mark, Token, TokenKind, Word};
use std::alloc::Global;

/// The closing parenthesis of a type.
#[tactic(auto, unfolding(k_parse_steps::specs::Expressions::close_type))]
fn close(
    alloc: Global,
    site: Site,
    mut opens: Stack<Open>,
    specs: Seq<Word>,
    stars: Stars,
) -> Result<Fed, NoMemory>
    ensures { IfOk result (λ fed. fed ≡ spec.close_type site opens specs stars) }
{
    let stars = all_stars(stars)?;
    match opens.pop() {
        Some(Open::Paren { place }) => close_over(alloc, site, opens, place, specs, stars),
        Some(around) => Ok(refused(around)),
        None => Ok(Turn::Refused),
    }
}

/// A type in parentheses, the first of which stands at `place`.
#[tactic(auto, unfolding(k_parse_steps::specs::Expressions::close_over))]
fn close_over(
    alloc: Global,
    site: Site,
    mut opens: Stack<Open>,
    place: Place,
    specs: Seq<Word>,
    stars: Seq<bool>,
) -> Result<Fed, NoMemory>
    ensures { IfOk result (λ fed. fed ≡ spec.close_over site opens place specs stars) }
{
    match opens.pop() {
        Some(Open::Sizeof { place }) => {
            let tree = Expr::SizeofType {
                place,
                specs,
                stars,
            };
            let term = Term {
                tree: Box::new(alloc, tree)?,
                rank: 14,
                height: 1,
            };
            Ok(goes(site, opens, ExpressionStage::Value { term }, 0))
        }
        Some(around) => {
            opens.push(around)?;
            cast(site, opens, place, specs, stars)
        }
        None => cast(site, opens, place, specs, stars),
    }
}

/// A cast awaits its operand.
fn cast(
    site: Site,
    mut opens: Stack<Open>,
    place: Place,
    specs: Seq<Word>,
    stars: Seq<bool>,
) -> Result<Fed, NoMemory>
    ensures { IfOk result (λ fed. fed ≡ spec.cast_opened site opens (open_.Cast place specs stars)) }
{
    opens.push(Open::Cast {
        place,
        specs,
        stars,
    })?;
    Ok(goes(site, opens, ExpressionStage::Operand, 0))
}

/// One more keyword of a type.
#[tactic(auto, unfolding(k_parse_steps::specs::Expressions::word_of_type))]
fn word(
    site: Site,
    opens: Stack<Open>,
    specs: Seq<Word>,
    stars: Stars,
    word: Word,
) -> Result<Fed, NoMemory>
    ensures { IfOk result (λ fed. fed ≡ spec.word_of_type site opens specs stars word) }
{
    match type_word(specs, stars, true, word)? {
        Some((specs, stars)) => Ok(goes(site, opens, ExpressionStage::Type { specs, stars }, 0)),
        None => Ok(Turn::Refused),
    }
}

/// One more mark in the name of a type.
#[tactic(auto, unfolding(k_parse_steps::specs::Expressions::mark_of_type))]
fn mark(
    alloc: Global,
    site: Site,
    opens: Stack<Open>,
    specs: Seq<Word>,
    stars: Stars,
    mark: Mark,
) -> Result<Fed, NoMemory>
    ensures { IfOk result (λ fed. fed ≡ spec.mark_of_type site opens specs stars mark) }
{
    match mark {
        Mark::Star => {
            let stars = star(stars)?;
            Ok(goes(site, opens, ExpressionStage::Type { specs, stars }, 0))
        }
        Mark::RightParen => close(alloc, site, opens, specs, stars),
        _ => Ok(Turn::Refused),
    }
}

/// One more token in the name of a type.
#[tactic(auto, unfolding(k_parse_steps::specs::Expressions::in_type))]
pub fn in_type(
    alloc: Global,
    site: Site,
    opens: Stack<Open>,
    specs: Seq<Word>,
    stars: Stars,
    token: &Token,
) -> Result<Fed, NoMemory>
    ensures { IfOk result (λ fed. fed ≡ spec.in_type site opens specs stars token.now) }
{
    match &token.what {
        TokenKind::Word(word_read) => word(site, opens, specs, stars, *word_read),
        TokenKind::Mark(mark_read) => mark(alloc, site, opens, specs, stars, *mark_read),
        _ => Ok(Turn::Refused),
    }
}

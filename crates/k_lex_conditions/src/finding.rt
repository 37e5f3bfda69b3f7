//! `defined` in the line of a condition (C17 6.10.1p1), before macros are replaced.
ghost use Rattle.std.specs.Prelude.{◌≡◌, ◌++◌, false, option_to_list, Option, IfOk, OnOk};
ghost use Rattle.k_lex_conditions.specs.Defined as spec;
ghost use Rattle.k_lex_conditions.specs.Finding as way;

use k_lex_macros::copies::copy_of;
use k_num::{Kind, NoMemory, Place, Seq, Text};
use k_tree::{Mark, Token, TokenKind};
use std::alloc::Global;

/// The names that `defined` finds.
pub trait Names {
    ghost use Rattle.std.specs.Prelude.{ℕ, List, Bool};

    ghost finds: { Self → List ℕ → Bool };

    fn finds(&self, name: &str) -> bool
        ensures { result ≡ finds self.now name.now };
}

/// Where a line stands.
#[derive(Clone, Copy)]
pub enum Stage {
    Ready,
    /// Behind `defined`.
    Behind,
    /// Behind `defined (`.
    Opened,
    /// Behind `defined (` and a name, which was found or not, at its place.
    Closing(bool, Place),
}

fn is_defined(what: &TokenKind) -> bool
    ensures { result ≡ spec.is_defined what.now }
{
    match what {
        TokenKind::Name(name) => name.as_str() == "defined",
        _ => false,
    }
}

/// Whether a name is found. Other tokens are none.
fn found<N: Names>(names: &N, what: &TokenKind) -> Option<bool>
    ensures { result ≡ spec.found (N.finds names.now) what.now }
{
    match what {
        TokenKind::Name(name) => Some(names.finds(name.as_str())),
        TokenKind::Word(_) => Some(false),
        _ => None,
    }
}

/// 1 or 0.
fn number_at(known: bool, place: Place) -> Token
    ensures { result ≡ spec.number_at known place }
{
    Token {
        what: TokenKind::Number(Kind::I32, if known { 1 } else { 0 }),
        place,
    }
}

/// A token that doesn't stand behind `defined`.
fn ready(alloc: Global, token: &Token) -> Result<(Stage, Option<Token>), NoMemory>
    ensures { IfOk result (λ next. Option.Some next ≡ way.told (λ _. false) Stage.Ready token.now) }
{
    if is_defined(&token.what) {
        return Ok((Stage::Behind, None));
    }
    let what = copy_of(alloc, &token.what)?;
    let place = token.place;
    Ok((Stage::Ready, Some(Token { what, place })))
}

/// A name behind `defined`.
fn bare_name(place: Place, known: Option<bool>) -> Option<(Stage, Option<Token>)>
    ensures { result ≡ way.bare_name place known }
{
    match known {
        Some(known) => Some((Stage::Ready, Some(number_at(known, place)))),
        None => None,
    }
}

/// A name behind `defined (`.
fn opened_name(place: Place, known: Option<bool>) -> Option<(Stage, Option<Token>)>
    ensures { result ≡ way.opened_name place known }
{
    match known {
        Some(known) => Some((Stage::Closing(known, place), None)),
        None => None,
    }
}

/// A token behind `defined`.
fn behind_defined<N: Names>(names: &N, token: &Token) -> Option<(Stage, Option<Token>)>
    ensures { result ≡ way.behind_defined (N.finds names.now) token.now.place token.now.what }
{
    if let TokenKind::Mark(Mark::LeftParen) = token.what {
        return Some((Stage::Opened, None));
    }
    bare_name(token.place, found(names, &token.what))
}

/// A token behind `defined ( NAME`.
fn closing(known: bool, place: Place, token: &Token) -> Option<(Stage, Option<Token>)>
    ensures { result ≡ way.closing known place token.now.what }
{
    if let TokenKind::Mark(Mark::RightParen) = token.what {
        return Some((Stage::Ready, Some(number_at(known, place))));
    }
    None
}

/// A token, and where the line stands behind it.
fn told<N: Names>(
    alloc: Global,
    names: &N,
    stage: Stage,
    token: &Token,
) -> Result<Option<(Stage, Option<Token>)>, NoMemory>
    ensures { IfOk result (λ next. next ≡ way.told (N.finds names.now) stage token.now) }
{
    match stage {
        Stage::Ready => Ok(Some(ready(alloc, token)?)),
        Stage::Behind => Ok(behind_defined(names, token)),
        Stage::Opened => Ok(opened_name(token.place, found(names, &token.what))),
        Stage::Closing(known, place) => Ok(closing(known, place, token)),
    }
}

/// Adds a token, if there is one.
fn add(out: &mut Seq<Token>, put: Option<Token>) -> Result<(), NoMemory>
    ensures { OnOk result (out.new ≡ out.old ++ option_to_list put) }
{
    match put {
        Some(token) => out.push(token),
        None => Ok(()),
    }
}

/// Whether a line may end here.
fn may_end(stage: Stage) -> bool
    ensures { result ≡ way.may_end stage }
{
    match stage {
        Stage::Ready => true,
        _ => false,
    }
}

/// The tokens that take the place of these.
#[tactic(auto, using(crate::proofs::Found::in_front_again))]
fn replaced_from<N: Names>(
    alloc: Global,
    names: &N,
    tokens: &[Token],
) -> Result<Option<Seq<Token>>, NoMemory>
    ensures { IfOk result (λ list. list ≡ way.replaced_from (N.finds names.now) Stage.Ready tokens.now) }
{
    let mut out = Seq::new(alloc);
    let mut stage = Stage::Ready;
    for token in tokens {
        match told(alloc, names, stage, token)? {
            Some((next, put)) => {
                add(&mut out, put)?;
                stage = next;
            }
            None => return Ok(None),
        }
    }
    if may_end(stage) {
        return Ok(Some(out));
    }
    Ok(None)
}

/// The tokens of the line of a condition with 1 or 0 in place of each `defined NAME` and `defined(NAME)`, by whether the name is found: the names of
/// macros, and those that are known without one. `None` where a `defined` has not this form. Macros are to be replaced in what is given.
pub fn without_defined<N: Names>(
    alloc: Global,
    names: &N,
    tokens: &[Token],
) -> Result<Option<Seq<Token>>, NoMemory>
    ensures { IfOk result (λ list. spec.IsReplaced (N.finds names.now) tokens.now list) }
{
    Ok(replaced_from(alloc, names, tokens)?)
}

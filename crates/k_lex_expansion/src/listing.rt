//! Tokens of a list that is expanded.
ghost use Rattle.std.specs.Prelude.{◌≡◌, [], ◌∷◌, ◌++◌, map, IfOk, OnOk};
ghost use Rattle.k_lex_expansion.specs.Listing as spec;
ghost use Rattle.k_lex_expansion.specs.Stacks.{respaced};

use crate::names::either;
use crate::tokens::{Listed, Names, Spelled, Spelling};
use k_lex_pieces::words::is_same;
use k_num::{NoMemory, Seq, Stack};
use std::alloc::Global;

/// A token of the source, in which nothing is hidden.
pub fn unhidden(token: &Spelled, nothing: &Names) -> Result<Listed, NoMemory>
    requires { nothing.now ≡ [] }
    ensures { IfOk result (λ t. t ≡ spec.unhidden token.now) }
{
    Ok(Listed {
        spelling: token.spelling.share()?,
        spaced: token.spaced,
        hidden: nothing.share()?,
    })
}

/// A token of this spelling, in which nothing is hidden.
pub fn fresh(spelling: Spelling, nothing: &Names) -> Result<Listed, NoMemory>
    requires { nothing.now ≡ [] }
    ensures { IfOk result (λ t. t ≡ spec.fresh spelling) }
{
    Ok(Listed {
        spelling,
        spaced: false,
        hidden: nothing.share()?,
    })
}

/// Whether the token is spelled so.
pub fn is_spelled(spelling: &[u8], token: &Listed) -> bool
    ensures { result ≡ spec.is_spelled spelling.now token.now }
{
    is_same(token.spelling.get().as_slice(), spelling)
}

/// The same token once more.
pub fn copy_of(token: &Listed) -> Result<Listed, NoMemory>
    ensures { IfOk result (λ t. t ≡ token.now) }
{
    Ok(Listed {
        spelling: token.spelling.share()?,
        spaced: token.spaced,
        hidden: token.hidden.share()?,
    })
}

/// Adds copies of the tokens.
pub fn push_copies(list: &mut Seq<Listed>, tokens: &[Listed]) -> Result<(), NoMemory>
    ensures { OnOk result (list.new ≡ list.old ++ tokens.now) }
{
    for token in tokens {
        list.push(copy_of(token)?)?;
    }
    Ok(())
}

/// A copy of the list.
pub fn copies(alloc: Global, tokens: &[Listed]) -> Result<Seq<Listed>, NoMemory>
    ensures { IfOk result (λ list. list ≡ tokens.now) }
{
    let mut list = Seq::new(alloc);
    push_copies(&mut list, tokens)?;
    Ok(list)
}

/// The same token, with more names hidden in it.
fn hide(alloc: Global, names: &Names, token: Listed) -> Result<Listed, NoMemory>
    ensures { IfOk result (λ t. t ≡ spec.hide names.now token) }
{
    let hidden = either(alloc, &token.hidden, names)?;
    Ok(Listed {
        spelling: token.spelling,
        spaced: token.spaced,
        hidden,
    })
}

/// The tokens of the list, with more names hidden in each.
pub fn hidden_in(
    alloc: Global,
    names: &Names,
    mut list: Stack<Listed>,
) -> Result<Seq<Listed>, NoMemory>
    ensures { IfOk result (λ all. all ≡ map (spec.hide names.now) list) }
{
    let mut all = Seq::new(alloc);
    while let Some(token) = list.pop() {
        all.push(hide(alloc, names, token)?)?;
    }
    Ok(all)
}

/// Puts the tokens before the list.
pub fn push_all(list: &mut Stack<Listed>, mut tokens: Seq<Listed>) -> Result<(), NoMemory>
    ensures { OnOk result (list.new ≡ tokens ++ list.old) }
{
    while let Some(token) = tokens.pop() {
        list.push(token)?;
    }
    Ok(())
}

/// What is replaced by nothing hands its blanks to the token behind it.
fn hand(list: &mut Stack<Listed>, spaced: bool) -> Result<(), NoMemory>
    ensures { OnOk result (list.new ≡ spec.handed spaced list.old) }
{
    match list.pop() {
        None => Ok(()),
        Some(mut token) => {
            token.spaced = spaced || token.spaced;
            list.push(token)
        }
    }
}

/// The first token has blanks before it, or has none.
fn space(list: &mut Stack<Listed>, spaced: bool) -> Result<(), NoMemory>
    ensures { OnOk result (list.new ≡ respaced spaced list.old) }
{
    match list.pop() {
        None => Ok(()),
        Some(mut token) => {
            token.spaced = spaced;
            list.push(token)
        }
    }
}

/// Puts the tokens before the list, in the place of something that blanks stood before or not.
pub fn put_in_place(
    list: &mut Stack<Listed>,
    spaced: bool,
    tokens: Seq<Listed>,
) -> Result<(), NoMemory>
    ensures { OnOk result (list.new ≡ spec.in_place spaced tokens list.old) }
{
    if tokens.is_empty() {
        hand(list, spaced)
    } else {
        push_all(list, tokens)?;
        space(list, spaced)
    }
}

//! One token of two.
ghost use Rattle.std.specs.Prelude.{◌≡◌, [], ◌∷◌, ◌++◌, Some, IfOk, OnOk, true, false, None};
ghost use Rattle.k_lex_expansion.specs.Pasting as spec;
ghost use Rattle.k_lex_expansion.specs.Stacks.{Glues};

use crate::listing::push_copies;
use crate::names::both;
use crate::shared::Shared;
use crate::tokens::{Listed, Spelling};
use k_lex_pieces::pieces::{Piece, piece_at};
use k_num::{NoMemory, Seq};
use std::alloc::Global;

/// Whether such a piece is a token.
fn is_token_piece(piece: Piece) -> bool
    ensures { result ≡ spec.is_token_piece piece }
{
    match piece {
        Piece::Name | Piece::Number | Piece::Character | Piece::Str | Piece::Mark(_) => true,
        _ => false,
    }
}

/// Whether the bytes spell one token.
#[tactic(auto, unfolding(crate::specs::Pasting::is_token))]
pub fn is_token(bytes: &[u8]) -> bool
    ensures { result ≡ spec.is_token bytes.now }
{
    let (piece, count) = piece_at(bytes);
    count == bytes.len() && is_token_piece(piece)
}

/// The bytes of both.
fn append(alloc: Global, a: &[u8], b: &[u8]) -> Result<Seq<u8>, NoMemory>
    ensures { IfOk result (λ all. all ≡ a.now ++ b.now) }
{
    let mut all = Seq::copy_of(alloc, a)?;
    for x in b {
        all.push(*x)?;
    }
    Ok(all)
}

/// The two in one, of this spelling.
fn pasted(alloc: Global, a: &Listed, b: &Listed, spelling: Seq<u8>) -> Result<Listed, NoMemory>
    requires { spelling ≡ a.now.spelling ++ b.now.spelling }
    ensures { IfOk result (λ t. t ≡ spec.pasted a.now b.now) }
{
    let spelling = Shared::new(alloc, spelling)?;
    let names = both(alloc, a.hidden.get().as_slice(), b.hidden.get().as_slice())?;
    let hidden = Shared::new(alloc, names)?;
    Ok(Listed {
        spelling,
        spaced: a.spaced,
        hidden,
    })
}
/// The token that the two make, if they make one.
fn pasted_of(alloc: Global, a: &Listed, b: &Listed) -> Result<Option<Listed>, NoMemory>
    ensures { IfOk result (λ t. t ≡ spec.pasted_of a.now b.now) }
{
    let spelling = append(
        alloc,
        a.spelling.get().as_slice(),
        b.spelling.get().as_slice(),
    )?;
    if is_token(spelling.as_slice()) {
        Ok(Some(pasted(alloc, a, b, spelling)?))
    } else {
        Ok(None)
    }
}

/// A token at the end of a list and the first one of the next become one, if they make a token.
#[tactic(auto, using(crate::proofs::ReplacingLaws::glue_some, crate::proofs::ReplacingLaws::glue_none))]
fn glue_first(
    alloc: Global,
    list: &mut Seq<Listed>,
    last: &Listed,
    first: &Listed,
    rest: &[Listed],
) -> Result<bool, NoMemory>
    ensures { Glues result (spec.glue (list.old ++ last.now ∷ []) (first.now ∷ rest.now)) list.new }
{
    match pasted_of(alloc, last, first)? {
        None => Ok(false),
        Some(token) => {
            list.push(token)?;
            push_copies(list, rest)?;
            Ok(true)
        }
    }
}

/// The last token of a list and the first of the next one become one, if they make a token.
#[tactic(auto, using(crate::proofs::ReplacingLaws::glue_last))]
fn glue_last(
    alloc: Global,
    list: &mut Seq<Listed>,
    last: Listed,
    next: &[Listed],
) -> Result<bool, NoMemory>
    ensures { Glues result (spec.glue (list.old ++ last ∷ []) next.now) list.new }
{
    match next.split_first() {
        None => {
            list.push(last)?;
            Ok(true)
        }
        Some((first, rest)) => glue_first(alloc, list, &last, first, rest),
    }
}

/// The list goes on with the next one, with `##` between them. Where they make no token the list is lost.
pub fn glue(alloc: Global, list: &mut Seq<Listed>, next: &[Listed]) -> Result<bool, NoMemory>
    ensures { Glues result (spec.glue list.old next.now) list.new }
{
    match list.pop() {
        None => {
            push_copies(list, next)?;
            Ok(true)
        }
        Some(last) => glue_last(alloc, list, last, next),
    }
}

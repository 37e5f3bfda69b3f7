//! The parameters and the body of a macro.
ghost use Rattle.std.specs.Prelude.{◌≡◌, ◌+◌, [], ◌∷◌, ◌++◌, true, false, IfOk, OnOk};
ghost use Rattle.k_lex_pieces.specs.Outcome.{Gives};
ghost use Rattle.k_lex_bodies.specs.Bodies as spec;
ghost use Rattle.k_lex_bodies.specs.Taking.{Lists, Took, TookOne};

use crate::forms::{cut_short, is_plain_name, is_spelled, unformed};
use k_lex_expansion::names::has;
use k_lex_expansion::{Chain, Operand, Spelling};
use k_lex_pieces::fault::{Fault, Refusal, Stop};
use k_lex_pieces::words::is_same;
use k_lex_sources::Cut;
use k_num::{NoMemory, Place, Seq};
use std::alloc::Global;

/// What a token is in a list of parameters.
#[derive(Clone, Copy)]
pub enum Listing {
    Name,
    Comma,
    Closed,
    Bad,
}

/// Where a part of a body stands.
#[derive(Clone, Copy)]
pub enum Glue {
    /// At the front, where no `##` may stand.
    First,
    /// Behind another part.
    Free,
    /// Behind `##`.
    Pasted,
}

/// What stands in a body.
#[derive(Clone, Copy)]
pub enum Sign {
    /// `##`
    Paste,
    Token,
    /// The parameter of this number.
    Parameter(usize),
    /// `#` before the parameter of this number.
    Text(usize),
    Bad(Fault),
}

/// A part of a body.
#[derive(Drop)]
pub struct Part {
    pub glued: bool,
    pub spaced: bool,
    pub what: Operand,
}

/// The directive of a body: the place of its `#`, the fault that its line ends with, and whether the macro has a list
/// of parameters.
#[derive(Clone, Copy)]
pub struct Setting {
    pub hash: Place,
    pub end: Option<Fault>,
    pub listed: bool,
}

/// Whether a name can be a parameter behind those.
fn is_parameter(seen: &[Spelling], cut: &Cut) -> bool
    ensures { result ≡ spec.is_parameter seen.now cut.now }
{
    is_plain_name(cut) && !has(seen, cut.spelling.get().as_slice())
}

/// What a token is that follows the name of a parameter.
fn behind_name(cut: &Cut) -> Listing
    ensures { result ≡ spec.listing_of false [] cut.now }
{
    if is_spelled(b")", cut) {
        Listing::Closed
    } else if is_spelled(b",", cut) {
        Listing::Comma
    } else {
        Listing::Bad
    }
}

/// What a token is in a list of parameters.
fn listing_of(named: bool, seen: &[Spelling], cut: &Cut) -> Listing
    ensures { result ≡ spec.listing_of named seen.now cut.now }
{
    if named {
        if is_parameter(seen, cut) {
            Listing::Name
        } else {
            Listing::Bad
        }
    } else {
        behind_name(cut)
    }
}

/// What a token does in a list of parameters: whether a name is next, or none where the list ends.
fn list_cut(
    hash: Place,
    names: &mut Seq<Spelling>,
    cut: &Cut,
    listing: Listing,
) -> Result<Option<bool>, Stop>
    ensures { Lists hash names.old names.new result cut.now listing }
{
    match listing {
        Listing::Name => {
            names.push(cut.spelling.share()?)?;
            Ok(Some(false))
        }
        Listing::Comma => Ok(Some(true)),
        Listing::Closed => Ok(None),
        Listing::Bad => Err(Stop::Refused(unformed(hash))),
    }
}

/// The names of a list of parameters behind `(`, of which there is one, and the tokens behind the list.
fn parameters<'a>(
    alloc: Global,
    hash: Place,
    end: Option<Fault>,
    cuts: &'a [Cut],
) -> Result<(Seq<Spelling>, &'a [Cut]), Stop>
    ensures { Gives (λ found. (found.0, found.1.now)) result (spec.parameters hash end true [] cuts.now) }
{
    let mut names = Seq::new(alloc);
    let mut named = true;
    let mut rest = cuts;
    while let Some((cut, more)) = rest.split_first() {
        let listing = listing_of(named, names.as_slice(), cut);
        match list_cut(hash, &mut names, cut, listing) {
            Ok(Some(next)) => named = next,
            Ok(None) => return Ok((names, more)),
            Err(stop) => return Err(stop),
        }
        rest = more;
    }
    Err(Stop::Refused(cut_short(hash, end)))
}

/// The names of a list of parameters behind `(`, and the tokens behind the list.
pub fn parameter_list<'a>(
    alloc: Global,
    hash: Place,
    end: Option<Fault>,
    cuts: &'a [Cut],
) -> Result<(Seq<Spelling>, &'a [Cut]), Stop>
    ensures { Gives (λ found. (found.0, found.1.now)) result (spec.parameter_list hash end cuts.now) }
{
    match cuts.split_first() {
        None => Err(Stop::Refused(cut_short(hash, end))),
        Some((cut, rest)) => {
            if is_spelled(b")", cut) {
                Ok((Seq::new(alloc), rest))
            } else {
                parameters(alloc, hash, end, cuts)
            }
        }
    }
}

/// The number of a name in a list.
fn number_of(names: &[Spelling], name: &[u8]) -> Option<usize>
    ensures { result ≡ spec.number_of names.now name.now }
{
    let mut count = 0;
    let mut rest = names;
    while let Some((one, more)) = rest.split_first() {
        if is_same(one.get().as_slice(), name) {
            return Some(count);
        }
        count += 1;
        rest = more;
    }
    None
}

/// The fault of a `#` at this place that stands before no parameter.
fn lone_hash(it: Setting, fault: Fault, place: Place) -> Fault
    ensures { result ≡ spec.lone_hash it fault place }
{
    if it.listed {
        fault
    } else {
        Fault {
            what: Refusal::BadByte,
            place,
        }
    }
}

/// A token of a body.
fn token_sign(names: &[Spelling], cut: &Cut) -> Sign
    ensures { result ≡ spec.token_sign names.now cut.now cut.now.fault }
{
    match cut.fault {
        Some(fault) => Sign::Bad(fault),
        None => match number_of(names, cut.spelling.get().as_slice()) {
            None => Sign::Token,
            Some(n) => Sign::Parameter(n),
        },
    }
}

/// `#` before the parameter of a number, or before none.
fn text_sign(it: Setting, place: Place, number: Option<usize>) -> Sign
    ensures { result ≡ spec.text_sign it place number }
{
    match number {
        None => Sign::Bad(lone_hash(it, unformed(it.hash), place)),
        Some(n) => Sign::Text(n),
    }
}

/// `#` at this place, before some tokens.
fn hash_sign(it: Setting, names: &[Spelling], place: Place, cuts: &[Cut]) -> Sign
    ensures { result ≡ spec.hash_sign it names.now place cuts.now }
{
    match cuts.split_first() {
        None => Sign::Bad(lone_hash(it, cut_short(it.hash, it.end), place)),
        Some((next, _)) => {
            if is_spelled(b"#", next) && !next.spaced {
                Sign::Paste
            } else {
                text_sign(it, place, number_of(names, next.spelling.get().as_slice()))
            }
        }
    }
}

/// What a token is that stands before others in a body.
fn sign_of(it: Setting, names: &[Spelling], cut: &Cut, cuts: &[Cut]) -> Sign
    ensures { result ≡ spec.sign_of it names.now cut.now cuts.now }
{
    if is_spelled(b"#", cut) {
        hash_sign(it, names, cut.place, cuts)
    } else {
        token_sign(names, cut)
    }
}

/// A part behind this, which is that.
fn part_of(glue: Glue, cut: &Cut, what: Operand) -> Part
    ensures { result ≡ spec.part_of glue cut.now what }
{
    Part {
        glued: matches!(glue, Glue::Pasted),
        spaced: cut.spaced,
        what,
    }
}

/// What a token does that is this in a body: where the next one stands, and how many belong to this one.
#[tactic(auto, using(crate::proofs::TakingLaws::pushed))]
fn take_sign(
    it: Setting,
    parts: &mut Seq<Part>,
    glue: Glue,
    cut: &Cut,
    sign: Sign,
) -> Result<(Glue, usize), Stop>
    ensures { Took it parts.old parts.new result glue cut.now sign }
{
    match sign {
        Sign::Paste => match glue {
            Glue::Free => Ok((Glue::Pasted, 1)),
            _ => Err(Stop::Refused(unformed(it.hash))),
        },
        Sign::Token => {
            let spelling = cut.spelling.share()?;
            parts.push(part_of(glue, cut, Operand::Token(spelling)))?;
            Ok((Glue::Free, 0))
        }
        Sign::Parameter(n) => {
            parts.push(part_of(glue, cut, Operand::Parameter(n)))?;
            Ok((Glue::Free, 0))
        }
        Sign::Text(n) => {
            parts.push(part_of(glue, cut, Operand::Text(n)))?;
            Ok((Glue::Free, 1))
        }
        Sign::Bad(fault) => Err(Stop::Refused(fault)),
    }
}

/// The same, where some tokens belong to the part before.
#[tactic(auto, using(crate::proofs::TakingLaws::skipped, crate::proofs::TakingLaws::took_one))]
fn take_cut(
    it: Setting,
    names: &[Spelling],
    parts: &mut Seq<Part>,
    stand: (Glue, usize),
    cut: &Cut,
    cuts: &[Cut],
) -> Result<(Glue, usize), Stop>
    ensures { TookOne it names.now parts.old parts.new result stand.0 stand.1 (cut.now ∷ cuts.now) cuts.now }
{
    let (glue, skip) = stand;
    if skip > 0 {
        return Ok((glue, skip - 1));
    }
    take_sign(it, parts, glue, cut, sign_of(it, names, cut, cuts))
}

/// The parts of a body.
fn parts_of(alloc: Global, it: Setting, names: &[Spelling], cuts: &[Cut]) -> Result<Seq<Part>, Stop>
    ensures { Gives (λ parts. parts) result (spec.parts_from it names.now Glue.First 0 cuts.now) }
{
    let mut parts = Seq::new(alloc);
    let mut stand = (Glue::First, 0);
    let mut rest = cuts;
    while let Some((cut, more)) = rest.split_first() {
        match take_cut(it, names, &mut parts, stand, cut, more) {
            Ok(next) => stand = next,
            Err(stop) => return Err(stop),
        }
        rest = more;
    }
    match stand.0 {
        Glue::Pasted => Err(Stop::Refused(cut_short(it.hash, it.end))),
        _ => Ok(parts),
    }
}

/// The operand once more.
fn copy_of(operand: &Operand) -> Result<Operand, NoMemory>
    ensures { IfOk result (λ copy. copy ≡ operand.now) }
{
    match operand {
        Operand::Token(spelling) => Ok(Operand::Token(spelling.share()?)),
        Operand::Parameter(n) => Ok(Operand::Parameter(*n)),
        Operand::Text(n) => Ok(Operand::Text(*n)),
    }
}

/// What is glued to the part before some parts.
fn glued_to(alloc: Global, parts: &[Part]) -> Result<Seq<Operand>, NoMemory>
    ensures { IfOk result (λ more. more ≡ spec.glued_to parts.now) }
{
    let mut more = Seq::new(alloc);
    for part in parts {
        if !part.glued {
            return Ok(more);
        }
        more.push(copy_of(&part.what)?)?;
    }
    Ok(more)
}

/// The chain that begins with a part before others.
fn chain_of(alloc: Global, part: &Part, parts: &[Part]) -> Result<Chain, NoMemory>
    ensures { IfOk result (λ chain. chain ≡ spec.chain_of part.now parts.now) }
{
    let more = glued_to(alloc, parts)?;
    Ok(Chain {
        spaced: part.spaced,
        first: copy_of(&part.what)?,
        more,
    })
}

/// The chain of a part before others, where it begins one.
fn push_chain(
    alloc: Global,
    chains: &mut Seq<Chain>,
    part: &Part,
    parts: &[Part],
) -> Result<(), NoMemory>
    ensures { OnOk result (chains.new ++ spec.chains parts.now ≡ chains.old ++ spec.chains (part.now ∷ parts.now)) }
{
    if !part.glued {
        chains.push(chain_of(alloc, part, parts)?)?;
    }
    Ok(())
}

/// The chains of some parts.
fn chains_of(alloc: Global, parts: &[Part]) -> Result<Seq<Chain>, NoMemory>
    ensures { IfOk result (λ chains. chains ≡ spec.chains parts.now) }
{
    let mut chains = Seq::new(alloc);
    let mut rest = parts;
    while let Some((part, more)) = rest.split_first() {
        push_chain(alloc, &mut chains, part, more)?;
        rest = more;
    }
    Ok(chains)
}

/// The chains of a body.
pub fn body_of(
    alloc: Global,
    it: Setting,
    names: &[Spelling],
    cuts: &[Cut],
) -> Result<Seq<Chain>, Stop>
    ensures { Gives (λ body. body) result (spec.body_of it names.now cuts.now) }
{
    let parts = parts_of(alloc, it, names, cuts)?;
    Ok(chains_of(alloc, parts.as_slice())?)
}

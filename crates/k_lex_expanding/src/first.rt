//! What the first token of a list is: a token of the result, or the use of a macro.
ghost use Rattle.std.specs.Prelude.{◌≡◌, ◌+◌, ◌≤◌, [], ◌∷◌, ◌++◌, Some, length, map, slice_get, IfOk};
ghost use Rattle.k_lex_expansion.specs.Listing as listing;
ghost use Rattle.k_lex_expansion.specs.Names as names;
ghost use Rattle.k_lex_expansion.specs.Replacing as replacing;
ghost use Rattle.k_lex_expansion.specs.Expansion.{next};
ghost use Rattle.k_lex_expansion.specs.Uses.{Puts};
ghost use Rattle.k_lex_expanding.specs.First.{Meets, MeetsCall, MeetsOpen, MeetsUse, opens_of, work, unclosed_as};

use crate::calls::OpenCall;
use crate::macros::{body_at, parameters_at, used};
use k_lex_expansion::calls::{fits, gather, stack_of};
use k_lex_expansion::listing::is_spelled;
use k_lex_expansion::names::{both, with_name};
use k_lex_expansion::uses::put_in;
use k_lex_expansion::{Chain, Failure, Listed, Macro, Names, Spelled};
use k_lex_pieces::words::is_same;
use k_num::{NoMemory, Seq, Stack};
use std::alloc::Global;

/// What the first token of a list is.
#[derive(Drop)]
pub enum First {
    /// A token of the result.
    Kept(Listed),
    /// The name of a macro, whose body took its place.
    Replaced,
    /// A use that fails.
    Fails(Failure),
    /// A call, and how many tokens of the source it takes.
    Calls { call: OpenCall, taken: usize },
}

/// Whether the next token of the list, and the source behind it, is `(`, if there is one.
fn opens(list: &Stack<Listed>, source: &[Spelled]) -> Option<bool>
    ensures { result ≡ opens_of (list.now ++ map listing.unhidden source.now) }
{
    match list.top() {
        Some(token) => Some(is_spelled(b"(", token)),
        None => match source.split_first() {
            Some((token, _)) => Some(is_same(token.spelling.get().as_slice(), b"(")),
            None => None,
        },
    }
}

/// A call of the macro of this number, with what its `)` hides.
fn open_call(
    alloc: Global,
    number: usize,
    token: &Listed,
    arguments: Seq<Seq<Listed>>,
    hidden: &Names,
) -> Result<OpenCall, NoMemory>
    ensures { IfOk result (λ call. call ≡ record { number = number; complete = []; waiting = arguments; names = names.both token.now.hidden hidden.now ++ token.now.spelling ∷ []; spaced = token.now.spaced }) }
{
    let common = both(
        alloc,
        token.hidden.get().as_slice(),
        hidden.get().as_slice(),
    )?;
    let names = with_name(alloc, common.as_slice(), &token.spelling)?;
    let waiting = stack_of(alloc, arguments)?;
    Ok(OpenCall {
        number,
        complete: Seq::new(alloc),
        waiting,
        names,
        spaced: token.spaced,
    })
}

/// A call whose `)` is not there.
fn unclosed(ends: bool) -> Failure
    ensures { result ≡ unclosed_as ends }
{
    if ends {
        Failure::Arguments
    } else {
        Failure::Cut
    }
}

/// The call of a macro with so many parameters, whose `(` comes next.
#[tactic(auto, using(crate::proofs::FirstLaws::call_open, crate::proofs::FirstLaws::call_unfit))]
fn call_at(
    alloc: Global,
    nothing: &Names,
    number: usize,
    count: usize,
    token: &Listed,
    list: &mut Stack<Listed>,
    source: &[Spelled],
    ends: bool,
) -> Result<First, NoMemory>
    requires nothing { nothing.now ≡ [] }
    requires open { 1 ≤ length list.old + length source.now }
    ensures { MeetsCall result number count token.now list.old source.now ends list.new }
{
    match gather(alloc, nothing, list, source)? {
        None => Ok(First::Fails(unclosed(ends))),
        Some(closed) => {
            if !fits(count, closed.arguments.as_slice()) {
                return Ok(First::Fails(Failure::Arguments));
            }
            let call = open_call(alloc, number, token, closed.arguments, &closed.hidden)?;
            Ok(First::Calls {
                call,
                taken: closed.taken,
            })
        }
    }
}

/// The name of a macro with so many parameters, which is used where `(` comes next.
#[tactic(auto, using(crate::proofs::FirstLaws::opens_call, crate::proofs::FirstLaws::opens_nothing, crate::proofs::FirstLaws::opens_end, crate::proofs::FirstLaws::opens_cut))]
fn open_at(
    alloc: Global,
    nothing: &Names,
    number: usize,
    count: usize,
    token: Listed,
    list: &mut Stack<Listed>,
    source: &[Spelled],
    ends: bool,
) -> Result<First, NoMemory>
    requires { nothing.now ≡ [] }
    ensures { MeetsOpen result number count token list.old source.now ends list.new }
{
    match opens(list, source) {
        Some(true) => call_at(alloc, nothing, number, count, &token, list, source, ends),
        Some(false) => Ok(First::Kept(token)),
        None => if ends {
            Ok(First::Kept(token))
        } else {
            Ok(First::Fails(Failure::Cut))
        },
    }
}

/// The body of a macro without parameters takes the place of its name.
fn replace_name(
    alloc: Global,
    nothing: &Names,
    limit: usize,
    token: &Listed,
    body: &[Chain],
    list: &mut Stack<Listed>,
    made: &mut usize,
) -> Result<Option<Failure>, NoMemory>
    requires { nothing.now ≡ [] }
    ensures { Puts result limit (token.now.hidden ++ token.now.spelling ∷ []) token.now.spaced (replacing.replaced [] body.now) list.old made.old list.new made.new }
{
    let names = with_name(alloc, token.hidden.get().as_slice(), &token.spelling)?;
    put_in(
        alloc,
        nothing,
        limit,
        &names,
        token.spaced,
        &[],
        body,
        list,
        made,
    )
}

/// The use of the macro of this number.
#[tactic(auto, using(crate::proofs::FirstLaws::with_parameters, crate::proofs::FirstLaws::without_parameters, crate::proofs::FirstLaws::replaces))]
fn use_at(
    alloc: Global,
    nothing: &Names,
    macros: &[Macro],
    limit: usize,
    number: usize,
    token: Listed,
    list: &mut Stack<Listed>,
    made: &mut usize,
    source: &[Spelled],
    ends: bool,
) -> Result<First, NoMemory>
    requires { nothing.now ≡ [] }
    ensures { MeetsUse result macros.now limit number token list.old made.old source.now ends list.new made.new }
{
    match parameters_at(macros, number) {
        Some(count) => open_at(alloc, nothing, number, count, token, list, source, ends),
        None => {
            let body = body_at(macros, number);
            match replace_name(alloc, nothing, limit, &token, body, list, made)? {
                None => Ok(First::Replaced),
                Some(failure) => Ok(First::Fails(failure)),
            }
        }
    }
}

/// Looks at a token that was the first of a list.
#[tactic(auto, using(crate::proofs::FirstLaws::uses_none))]
pub fn look(
    alloc: Global,
    nothing: &Names,
    macros: &[Macro],
    limit: usize,
    token: Listed,
    list: &mut Stack<Listed>,
    made: &mut usize,
    source: &[Spelled],
    ends: bool,
) -> Result<First, NoMemory>
    requires { nothing.now ≡ [] }
    ensures { Meets result macros.now limit (next macros.now limit (work (token ∷ list.old) source.now ends made.old)) list.old made.old source.now ends list.new made.new }
{
    match used(macros, &token) {
        None => Ok(First::Kept(token)),
        Some(number) => use_at(
            alloc, nothing, macros, limit, number, token, list, made, source, ends,
        ),
    }
}

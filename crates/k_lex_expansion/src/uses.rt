//! Uses of macros: which macro a token uses, and how the macro's body takes the place of the use.
ghost use Rattle.std.specs.Prelude.{◌≡◌, ◌+◌, ◌≤◌, ◌<◌, [], Some, IfSome, IfNone};
ghost use Rattle.std.specs.Option.{option_copied};
ghost use Rattle.k_lex_expansion.specs.Expansion as spec;
ghost use Rattle.k_lex_expansion.specs.Replacing.{replaced};
ghost use Rattle.k_lex_expansion.specs.Uses.{Puts};

use crate::arguments::Argument;
use crate::failure::Failure;
use crate::listing::{hidden_in, put_in_place};
use crate::macros::{Chain, Macro};
use crate::names::has;
use crate::replacing;
use crate::tokens::{Listed, Names};
use k_lex_pieces::words::is_same;
use k_num::{NoMemory, Stack};
use std::alloc::Global;

/// The macro of this name.
fn find<'a>(macros: &'a [Macro], name: &[u8]) -> Option<&'a Macro>
    ensures { option_copied result ≡ spec.named macros.now name.now }
{
    for one in macros {
        if is_same(one.name.get().as_slice(), name) {
            return Some(one);
        }
    }
    None
}

/// The macro that the token uses, unless it is hidden.
pub fn used<'a>(macros: &'a [Macro], token: &Listed) -> Option<&'a Macro>
    ensures { option_copied result ≡ spec.used macros.now token.now }
{
    if has(
        token.hidden.get().as_slice(),
        token.spelling.get().as_slice(),
    ) {
        None
    } else {
        find(macros, token.spelling.get().as_slice())
    }
}

/// How much is made with so many more, if that is within the limit.
pub fn counted(limit: usize, made: usize, more: usize) -> Option<usize>
    ensures within { IfSome result (λ all. (all ≡ made + more) × (all ≤ limit)) }
    ensures beyond { IfNone result (limit < made + more) }
{
    match made.checked_add(more) {
        Some(all) => { if all <= limit { Some(all) } else { None } }
        None => None,
    }
}

/// How much is made with a replacement by so many tokens.
fn counted_use(limit: usize, made: usize, tokens: usize) -> Option<usize>
    ensures within { IfSome result (λ all. (all ≡ made + (1 + tokens)) × (all ≤ limit)) }
    ensures beyond { IfNone result (limit < made + (1 + tokens)) }
{
    match counted(limit, made, 1) {
        Some(all) => counted(limit, all, tokens),
        None => None,
    }
}

/// The tokens take the place of a use, before the list.
#[tactic(auto, using(crate::proofs::CountLaws::puts_ok, crate::proofs::CountLaws::puts_many))]
fn put_tokens(
    alloc: Global,
    limit: usize,
    names: &Names,
    spaced: bool,
    tokens: Stack<Listed>,
    list: &mut Stack<Listed>,
    made: &mut usize,
) -> Result<Option<Failure>, NoMemory>
    ensures { Puts result limit names.now spaced (Some tokens) list.old made.old list.new made.new }
{
    match counted_use(limit, *made, tokens.len()) {
        Some(all) => {
            let tokens = hidden_in(alloc, names, tokens)?;
            put_in_place(list, spaced, tokens)?;
            *made = all;
            Ok(None)
        }
        None => Ok(Some(Failure::TokensMany)),
    }
}

/// The body of a macro takes the place of its use, before the list: these names are hidden in each of its tokens. A macro without parameters has no
/// arguments.
pub fn put_in(
    alloc: Global,
    nothing: &Names,
    limit: usize,
    names: &Names,
    spaced: bool,
    args: &[Argument],
    body: &[Chain],
    list: &mut Stack<Listed>,
    made: &mut usize,
) -> Result<Option<Failure>, NoMemory>
    requires { nothing.now ≡ [] }
    ensures { Puts result limit names.now spaced (replaced args.now body.now) list.old made.old list.new made.new }
{
    match replacing::replaced(alloc, nothing, args, body)? {
        None => Ok(Some(Failure::Paste)),
        Some(tokens) => put_tokens(alloc, limit, names, spaced, tokens, list, made),
    }
}

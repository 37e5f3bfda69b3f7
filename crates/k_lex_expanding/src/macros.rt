//! Macros by their numbers.
ghost use Rattle.std.specs.Prelude.{◌≡◌, None, slice_get, IfSome, IfNone};
ghost use Rattle.k_lex_expansion.specs.Expansion as spec;
ghost use Rattle.k_lex_expanding.specs.Macros.{IsNamed, IsUsed, body_of, count_of};

use k_lex_expansion::names::has;
use k_lex_expansion::{Chain, Listed, Macro};
use k_lex_pieces::words::is_same;

/// The number of the macro of this name.
fn find(macros: &[Macro], name: &[u8]) -> Option<usize>
    ensures { IsNamed result macros.now name.now }
{
    for number in 0..macros.len() {
        if is_same(macros[number].name.get().as_slice(), name) {
            return Some(number);
        }
    }
    None
}

/// The number of the macro that the token uses, unless it is hidden.
pub fn used(macros: &[Macro], token: &Listed) -> Option<usize>
    ensures { IsUsed result macros.now token.now }
{
    if has(
        token.hidden.get().as_slice(),
        token.spelling.get().as_slice(),
    ) {
        None
    } else {
        find(macros, token.spelling.get().as_slice())
    }
}

/// How many parameters the macro of this number has, if it has a list of them.
pub fn parameters_at(macros: &[Macro], number: usize) -> Option<usize>
    ensures { result ≡ count_of (slice_get macros.now number) }
{
    match macros.get(number) {
        None => None,
        Some(one) => match &one.parameters {
            None => None,
            Some(names) => Some(names.len()),
        },
    }
}

/// The body of the macro of this number.
pub fn body_at(macros: &[Macro], number: usize) -> &[Chain]
    ensures { result.now ≡ body_of (slice_get macros.now number) }
{
    match macros.get(number) {
        None => &[],
        Some(one) => one.body.as_slice(),
    }
}

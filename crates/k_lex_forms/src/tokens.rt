//! The tokens of a line, and what is wrong with them.
ghost use Rattle.std.specs.Prelude.{◌≡◌, IfOk};
ghost use Rattle.k_lex_forms.specs.Tokens as spec;

use k_lex_expansion::Spelled;
use k_lex_lines::Placed;
use k_lex_pieces::fault::Fault;
use k_lex_sources::Cut;
use k_num::{NoMemory, Seq};
use std::alloc::Global;

/// The first thing that is wrong with some tokens.
pub fn first_fault(cuts: &[Cut]) -> Option<Fault>
    ensures { result ≡ spec.first_fault cuts.now }
{
    for cut in cuts {
        if let Some(fault) = cut.fault {
            return Some(fault);
        }
    }
    None
}

/// The token that a piece is.
fn placed(cut: &Cut) -> Result<Placed, NoMemory>
    ensures { IfOk result (λ t. t ≡ spec.placed cut.now) }
{
    Ok(Placed {
        token: Spelled {
            spelling: cut.spelling.share()?,
            spaced: cut.spaced,
        },
        place: cut.place,
    })
}

/// The tokens before the first that is wrong.
pub fn right_tokens(alloc: Global, cuts: &[Cut]) -> Result<Seq<Placed>, NoMemory>
    ensures { IfOk result (λ ts. ts ≡ spec.right_tokens cuts.now) }
{
    let mut tokens = Seq::new(alloc);
    for cut in cuts {
        if cut.fault.is_some() {
            return Ok(tokens);
        }
        tokens.push(placed(cut)?)?;
    }
    Ok(tokens)
}

//! The bytes of a source, in which lines are joined.
ghost use Rattle.std.specs.Prelude.{◌≡◌, ◌+◌, ◌^◌, ◌<◌, ◌≤◌, length, IfOk};
ghost use Rattle.k_lex_sources.specs.Splicing as spec;
ghost use Rattle.k_lex_sources.specs.Taking.{Takes};

use k_lex_pieces::bytes::after;
use k_num::{NoMemory, Place, Seq};
use std::alloc::Global;

/// The bytes that are left of a source, and their places.
#[derive(Drop)]
pub struct Source {
    pub text: Seq<u8>,
    pub places: Seq<Place>,
}

/// Whether the text begins with a backslash and a newline.
fn joins(text: &[u8]) -> bool
    ensures { result ≡ spec.joins text.now }
{
    matches!(text, [b'\\', b'\n', ..])
}

/// Takes the first byte of the rest, or leaves it out where it is joined to the one before. The result tells whether
/// the next one is.
fn take_byte(
    source: &mut Source,
    joined: bool,
    place: Place,
    b: u8,
    rest: &[u8],
) -> Result<bool, NoMemory>
    ensures takes { IfOk result (λ next. Takes source.old source.new joined next place b rest.now) }
    ensures longer { IfOk result (λ _. length source.new.text ≤ length source.old.text + 1) }
{
    if joined {
        return Ok(false);
    }
    if joins(rest) {
        return Ok(true);
    }
    source.text.push(b)?;
    source.places.push(place)?;
    Ok(false)
}

/// The bytes of a source that are left.
pub fn spliced(alloc: Global, source: &[u8]) -> Result<Source, NoMemory>
    requires { length source.now < 2 ^ 31 }
    ensures text { IfOk result (λ s. s.text ≡ spec.texts (spec.source_of source.now)) }
    ensures places { IfOk result (λ s. s.places ≡ spec.places (spec.source_of source.now)) }
    ensures short { IfOk result (λ s. length s.text ≤ length source.now) }
{
    let mut made = Source {
        text: Seq::new(alloc),
        places: Seq::new(alloc),
    };
    let mut place = Place { line: 1, column: 1 };
    let mut joined = false;
    let mut rest = source;
    while let Some((b, more)) = rest.split_first() {
        match take_byte(&mut made, joined, place, *b, rest) {
            Ok(next) => joined = next,
            Err(e) => return Err(e),
        }
        place = after(place, *b);
        rest = more;
    }
    Ok(made)
}

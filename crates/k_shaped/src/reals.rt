//! Real numbers.
ghost use Rattle.std.specs.Prelude.{◌≡◌, ◌++◌, [], ◌∷◌, List, ℕ, map, if◌then◌else◌, OnOk, IfOk};
ghost use Rattle.std.specs.Char.{to_ascii_uppercase};
ghost use Rattle.std.specs.Float.{is_sign_negative};
ghost use Rattle.k_real.specs.Codes.{real_of};
ghost use Rattle.k_shaped.specs.Texts.{real_digits, in_case as in_case_of, real_text, sign as sign_of};

use crate::Shape;
use crate::digits::{precision, sign};
use crate::letters::{is_capital, is_fixed, is_scientific};
use crate::padding::put_padded;
use k_num::NoMemory;
use k_real::{fixed_text, general_text, real_of_code, scientific_text};
use std::alloc::Global;

/// Whether a real is negative, which the NaN never is.
fn is_negative(x: f64) -> bool
    ensures { result ≡ is_sign_negative x }
{
    if x != x { false } else { x.is_sign_negative() }
}

/// A real with its `-` in small letters.
#[tactic(auto, unfolding(crate::specs::Texts::real_digits))]
fn with_minus(alloc: Global, c: u8, precision: u32, a: u64) -> Result<Vec<u8>, NoMemory>
    ensures { IfOk result (λ text. text.items ≡ (if is_sign_negative (real_of a) then 45 ∷ [] else []) ++ real_digits c precision a) }
{
    if is_fixed(c) {
        return fixed_text(alloc, precision as usize, a);
    }
    if is_scientific(c) {
        return scientific_text(alloc, precision, a);
    }
    general_text(alloc, precision, a)
}

/// What stands behind the `-`, if there is one.
fn behind_minus(text: &[u8], negative: bool) -> &[u8]
    ensures { (rest : List ℕ) → text.now ≡ (if negative then 45 ∷ [] else []) ++ rest → result.now ≡ rest }
{
    if negative {
        match text {
            [_, rest @ ..] => rest,
            [] => text,
        }
    } else {
        text
    }
}

/// A text in capital letters.
fn capital(alloc: Global, text: &[u8]) -> Result<Vec<u8>, NoMemory>
    ensures { IfOk result (λ all. all.items ≡ map to_ascii_uppercase text.now) }
{
    let mut all = Vec::new(alloc);
    let mut rest = text;
    while let Some((b, more)) = rest.split_first() {
        all.push(b.to_ascii_uppercase())?;
        rest = more;
    }
    Ok(all)
}

/// A text in the letters of a conversion.
#[tactic(auto, unfolding(crate::specs::Texts::in_case))]
fn in_case(alloc: Global, c: u8, text: &[u8]) -> Result<Vec<u8>, NoMemory>
    ensures { IfOk result (λ all. all.items ≡ in_case_of c text.now) }
{
    if is_capital(c) {
        return capital(alloc, text);
    }
    let all = Vec::from_slice(alloc, text)?;
    Ok(all)
}

/// Writes `f F e E g G` of the real that a code stands for.
#[tactic(auto, unfolding(crate::specs::Texts::real_text))]
pub(crate) fn put_real(
    alloc: Global,
    out: &mut Vec<u8>,
    shape: Shape,
    a: u64,
) -> Result<(), NoMemory>
    ensures { OnOk result (out.new.items ≡ out.old.items ++ real_text shape a) }
{
    let x = real_of_code(a);
    let negative = is_negative(x);
    let text = with_minus(alloc, shape.conversion, precision(shape, 6), a)?;
    let body = in_case(alloc, shape.conversion, behind_minus(&text, negative))?;
    let zeros = shape.zero && x.is_finite();
    put_padded(
        out,
        shape.minus,
        zeros,
        shape.width,
        sign(shape, negative),
        &body,
    )
}

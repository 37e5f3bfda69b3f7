//! Shares, ratios and the shades that stand for ratios.
ghost use Rattle.std.specs.Prelude.{◌≡◌, ◌++◌, IfOk, OnOk};
ghost use Rattle.k_page.specs.Amounts as spec;

use k_num::NoMemory;
use k_selfpar::Frac;
use k_text::{push, push_named, push_number};

/// How wide a picture is, in its own units.
pub(crate) const WIDTH: u64 = 1200;

/// A part of a whole in so many parts, rounded down; 0 of no whole.
pub(crate) fn scaled(part: u64, whole: u64, parts: u64) -> Result<u64, NoMemory>
    ensures { IfOk result (λ n. n ≡ spec.scaled part whole parts) }
{
    if whole == 0 {
        return Ok(0);
    }
    match part.checked_mul(parts) {
        Some(product) => Ok(product / whole),
        None => Err(NoMemory),
    }
}

/// A part of a whole in percent, with one digit behind the point.
#[tactic(auto, unfolding(crate::specs::Amounts::share))]
pub(crate) fn push_share(text: &mut Vec<u8>, part: u64, whole: u64) -> Result<(), NoMemory>
    ensures { OnOk result (text.new.items ≡ text.old.items ++ spec.share part whole) }
{
    let tenths = scaled(part, whole, 1000)?;
    push_number(text, tenths / 10)?;
    push_named(text, ".", tenths % 10)?;
    push(text, " %")
}

/// A fraction.
#[tactic(auto, unfolding(crate::specs::Amounts::ratio))]
pub(crate) fn push_ratio(text: &mut Vec<u8>, ratio: &Frac) -> Result<(), NoMemory>
    ensures { OnOk result (text.new.items ≡ text.old.items ++ spec.ratio ratio.now) }
{
    push_number(text, ratio.num())?;
    push_named(text, "/", ratio.den())
}

/// How many whole times a fraction is.
fn times(ratio: &Frac) -> u64
    ensures { result ≡ spec.times ratio.now }
{
    ratio.num() / ratio.den()
}

/// The shade of so many whole times.
#[tactic(auto, unfolding(crate::specs::Amounts::shade_of))]
pub(crate) fn shade_of(times: u64) -> &'static str
    ensures { result.now ≡ spec.shade_of times }
{
    if times < 2 {
        "s1"
    } else if times < 5 {
        "s2"
    } else if times < 25 {
        "s3"
    } else if times < 100 {
        "s4"
    } else {
        "s5"
    }
}

/// The shade of a self-parallelism: one of five.
pub(crate) fn shade(ratio: &Frac) -> &'static str
    ensures { result.now ≡ spec.shade ratio.now }
{
    shade_of(times(ratio))
}

/// How many instances there are, their work and their path together, and their self-parallelism.
#[tactic(auto, unfolding(crate::specs::Amounts::sums))]
pub(crate) fn push_sums(
    text: &mut Vec<u8>,
    instances: u64,
    work: u64,
    path: u64,
    sp: &Frac,
) -> Result<(), NoMemory>
    ensures { OnOk result (text.new.items ≡ text.old.items ++ spec.sums instances work path sp.now) }
{
    push_named(text, " n=", instances)?;
    push_named(text, " work=", work)?;
    push_named(text, " path=", path)?;
    push(text, " sp=")?;
    push_ratio(text, sp)
}

//! Numbers of a table, and columns.
ghost use Rattle.std.specs.Prelude.{◌≡◌, ◌++◌, ◌<◌, ◌^◌, OnOk, replicate};
ghost use Rattle.k_advise_text.specs.Numbers as spec;

use k_num::NoMemory;
use k_selfpar::Frac;
use k_text::{push, push_number};
use std::alloc::Global;

/// So many blanks.
fn push_blanks(text: &mut Vec<u8>, many: usize) -> Result<(), NoMemory>
    ensures { OnOk result (text.new.items ≡ text.old.items ++ replicate many 32) }
{
    for _k in 0..many {
        text.push(b' ')?;
    }
    Ok(())
}

/// A text at the right of a column.
#[tactic(auto, unfolding(crate::specs::Numbers::right))]
pub(crate) fn push_right(text: &mut Vec<u8>, width: usize, cell: &[u8]) -> Result<(), NoMemory>
    ensures { OnOk result (text.new.items ≡ text.old.items ++ spec.right width cell.now) }
{
    push_blanks(text, width.saturating_sub(cell.len()))?;
    text.extend_from_slice(cell)?;
    Ok(())
}

/// A text at the left of a column.
#[tactic(auto, unfolding(crate::specs::Numbers::left))]
pub(crate) fn push_left(text: &mut Vec<u8>, width: usize, cell: &[u8]) -> Result<(), NoMemory>
    ensures { OnOk result (text.new.items ≡ text.old.items ++ spec.left width cell.now) }
{
    text.extend_from_slice(cell)?;
    push_blanks(text, width.saturating_sub(cell.len()))
}

/// Digits, with a comma before each three that others stand before.
fn push_separated(text: &mut Vec<u8>, digits: &[u8]) -> Result<(), NoMemory>
    ensures { OnOk result (text.new.items ≡ text.old.items ++ spec.separated digits.now) }
{
    let mut rest = digits;
    while let Some((digit, more)) = rest.split_first() {
        text.push(*digit)?;
        if more.len() % 3 == 0 && more.len() > 0 {
            text.push(b',')?;
        }
        rest = more;
    }
    Ok(())
}

/// A number with separators.
#[tactic(auto, unfolding(crate::specs::Numbers::count_text))]
pub(crate) fn push_count(alloc: Global, text: &mut Vec<u8>, number: u64) -> Result<(), NoMemory>
    ensures { OnOk result (text.new.items ≡ text.old.items ++ spec.count_text number) }
{
    let mut digits = Vec::new(alloc);
    push_number(&mut digits, number)?;
    push_separated(text, digits.as_slice())
}

/// A number with separators, between two texts.
pub(crate) fn push_count_between(
    alloc: Global,
    text: &mut Vec<u8>,
    before: &str,
    number: u64,
    behind: &str,
) -> Result<(), NoMemory>
    ensures { OnOk result (text.new.items ≡ text.old.items ++ spec.between before.now (spec.count_text number) behind.now) }
{
    push(text, before)?;
    push_count(alloc, text, number)?;
    push(text, behind)
}

/// Tenths, as a decimal of one digit.
#[tactic(auto, unfolding(crate::specs::Numbers::tenths_text))]
pub(crate) fn push_tenths(text: &mut Vec<u8>, tenths: u128) -> Result<(), NoMemory>
    ensures { OnOk result (text.new.items ≡ text.old.items ++ spec.tenths_text tenths) }
{
    push_number(text, tenths / 10)?;
    push(text, ".")?;
    push_number(text, tenths % 10)
}

/// Hundredths, as a decimal of two digits.
#[tactic(auto, unfolding(crate::specs::Numbers::hundredths_text))]
fn push_hundredths(text: &mut Vec<u8>, hundredths: u128) -> Result<(), NoMemory>
    ensures { OnOk result (text.new.items ≡ text.old.items ++ spec.hundredths_text hundredths) }
{
    push_number(text, hundredths / 100)?;
    push(text, ".")?;
    push_number(text, hundredths % 100 / 10)?;
    push_number(text, hundredths % 10)
}

/// A fraction, as a decimal of two digits.
#[tactic(auto, unfolding(crate::specs::Numbers::ratio_text))]
pub(crate) fn push_ratio(text: &mut Vec<u8>, ratio: Frac) -> Result<(), NoMemory>
    ensures { OnOk result (text.new.items ≡ text.old.items ++ spec.ratio_text ratio) }
{
    let den = u128::from(ratio.den());
    push_hundredths(text, (200 * u128::from(ratio.num()) + den) / (2 * den))
}

/// A fraction between two texts.
pub(crate) fn push_ratio_between(
    text: &mut Vec<u8>,
    before: &str,
    ratio: Frac,
    behind: &str,
) -> Result<(), NoMemory>
    ensures { OnOk result (text.new.items ≡ text.old.items ++ spec.between before.now (spec.ratio_text ratio) behind.now) }
{
    push(text, before)?;
    push_ratio(text, ratio)?;
    push(text, behind)
}

/// A text between two others.
pub(crate) fn push_between(
    text: &mut Vec<u8>,
    before: &str,
    middle: &str,
    behind: &str,
) -> Result<(), NoMemory>
    ensures { OnOk result (text.new.items ≡ text.old.items ++ spec.between before.now middle.now behind.now) }
{
    push(text, before)?;
    push(text, middle)?;
    push(text, behind)
}

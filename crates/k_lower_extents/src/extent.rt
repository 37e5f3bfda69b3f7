//! The extent of a statement's code, and how those of its parts are put together.
ghost use Rattle.std.specs.Prelude.{◌≡◌, ◌≤◌, ◌||◌, IfOk};
ghost use Rattle.k_marks_meaning.specs.Jumps.{no_jumps as no_jumps_meant, jumps_of_both as jumps_of_both_meant};
ghost use Rattle.k_lower_code.specs.Stretches.{over_size as over_meant, pad_size as pad_meant, pads_size as pads_meant};
ghost use Rattle.k_lower_extents.specs.StatementSums.{arms as arms_meant, behind as behind_meant, closed as closed_meant, followed_by as followed_by_meant, if_else as if_else_meant, in_order as in_order_meant, of_size as of_size_meant, one_jump as one_jump_meant, rests as rests_meant, settled_unless as settled_unless_meant, without_objects as without_objects_meant};

use crate::sums::{sum, sum_of_three};
use k_marks_jumps::any;
use k_marks_meaning::Jumps;
use k_num::{NoMemory, Stack};
use std::alloc::Global;

/// How many instructions the code of a statement has, the jumps that lead out of its text, and how many objects it makes that live on
/// behind it.
#[derive(Clone, Copy)]
pub struct Extent {
    pub size: u32,
    pub jumps: Jumps,
    pub opens: u32,
}

/// The extent of the statement of a number.
#[derive(Clone, Copy)]
pub struct NumberedExtent {
    pub number: u32,
    pub extent: Extent,
}

/// No jumps.
pub(crate) fn no_jumps() -> Jumps
    ensures { result ≡ no_jumps_meant }
{
    Jumps {
        breaks: false,
        continues: false,
        returns: false,
    }
}

/// The jumps of two parts.
fn jumps_of_both(one: Jumps, other: Jumps) -> Jumps
    ensures { result ≡ jumps_of_both_meant one other }
{
    Jumps {
        breaks: one.breaks || other.breaks,
        continues: one.continues || other.continues,
        returns: one.returns || other.returns,
    }
}

/// Text without jumps that makes no objects.
pub(crate) fn of_size(size: u32) -> Extent
    ensures { result ≡ of_size_meant size }
{
    Extent {
        size,
        jumps: no_jumps(),
        opens: 0,
    }
}

/// Text of one instruction with these jumps.
pub(crate) fn one_jump(jumps: Jumps) -> Extent
    ensures { result ≡ one_jump_meant jumps }
{
    Extent {
        size: 1,
        jumps,
        opens: 0,
    }
}

/// One text behind another.
pub(crate) fn behind(one: Extent, other: Extent) -> Result<Extent, NoMemory>
    ensures { IfOk result (λ x. x ≡ behind_meant one other) }
{
    let size = sum(one.size, other.size)?;
    let opens = sum(one.opens, other.opens)?;
    Ok(Extent {
        size,
        jumps: jumps_of_both(one.jumps, other.jumps),
        opens,
    })
}

/// The size of a pad, where a jump of the text comes to it.
pub(crate) fn pad_size(jumps: bool) -> u32
    ensures is { result ≡ pad_meant jumps }
    ensures small { result ≤ 2 }
{
    if jumps { 2 } else { 0 }
}

/// The size of the jump over the pads behind a text, where there are any.
pub(crate) fn over_size(pads: bool) -> u32
    ensures is { result ≡ over_meant pads }
    ensures small { result ≤ 1 }
{
    if pads { 1 } else { 0 }
}

/// The size of the pads of a text with these jumps, and of the jump over them.
fn pads_size(jumps: Jumps) -> u32
    ensures { result ≡ pads_meant jumps }
{
    let over = over_size(jumps.breaks || jumps.continues);
    let breaks = pad_size(jumps.breaks);
    let continues = pad_size(jumps.continues);
    over + breaks + continues
}

/// A text that is closed at its end, with pads for its jumps.
fn closed(text: Extent) -> Result<Extent, NoMemory>
    ensures { IfOk result (λ x. x ≡ closed_meant text) }
{
    let size = sum_of_three(text.size, pads_size(text.jumps), 1)?;
    Ok(Extent {
        size,
        jumps: text.jumps,
        opens: 0,
    })
}

/// A text of which no objects live on.
fn without_objects(text: Extent) -> Extent
    ensures { result ≡ without_objects_meant text }
{
    Extent {
        size: text.size,
        jumps: text.jumps,
        opens: 0,
    }
}

/// The rest of a block behind a statement: where the statement makes objects, the rest is closed, and they die at its end.
#[tactic(auto, using(crate::proofs::Followed::opens_none, crate::proofs::Followed::opens_some))]
pub(crate) fn followed_by(one: Extent, rest: Extent) -> Result<Extent, NoMemory>
    ensures { IfOk result (λ x. x ≡ followed_by_meant one one.opens rest) }
{
    if one.opens == 0 {
        return behind(one, rest);
    }
    let closed = closed(rest)?;
    let both = behind(one, closed)?;
    Ok(without_objects(both))
}

/// Statements one behind the other, put together from the last one on.
#[tactic(auto, using(crate::proofs::Followed::onto_last))]
pub(crate) fn in_order(extents: &[Extent]) -> Result<Extent, NoMemory>
    ensures { IfOk result (λ x. x ≡ in_order_meant extents.now) }
{
    let mut rest = extents;
    let mut all = of_size(0);
    while let Some((last, before)) = rest.split_last() {
        all = followed_by(*last, all)?;
        rest = before;
    }
    Ok(all)
}

/// The extents of statements one behind the other: on top from the first on, below it from the second on, and so on, to that of nothing.
#[tactic(auto, using(crate::proofs::Followed::rests_last))]
pub(crate) fn rests(alloc: Global, extents: &[Extent]) -> Result<Stack<Extent>, NoMemory>
    ensures { IfOk result (λ x. x ≡ rests_meant extents.now) }
{
    let mut found = Stack::new(alloc);
    let mut rest = extents;
    let mut all = of_size(0);
    found.push(all)?;
    while let Some((last, before)) = rest.split_last() {
        all = followed_by(*last, all)?;
        found.push(all)?;
        rest = before;
    }
    Ok(found)
}

/// A text behind which the control source is as before it, by two more instructions, unless it stays as the text leaves it.
pub(crate) fn settled_unless(stays: bool, text: Extent) -> Result<Extent, NoMemory>
    ensures { IfOk result (λ x. x ≡ settled_unless_meant stays text) }
{
    if stays {
        return Ok(text);
    }
    let size = sum_of_three(1, text.size, 1)?;
    Ok(Extent {
        size,
        jumps: text.jumps,
        opens: text.opens,
    })
}

/// The arms of an `if`, behind a test of this size: with the first stands the test, with the second a jump over it.
fn arms(test: u32, one: Extent, other: Option<Extent>) -> Result<Extent, NoMemory>
    ensures { IfOk result (λ x. x ≡ arms_meant test one other) }
{
    let first = sum_of_three(test, 1, one.size)?;
    let Some(other) = other else {
        return Ok(Extent {
            size: first,
            jumps: one.jumps,
            opens: 0,
        });
    };
    let size = sum_of_three(first, 1, other.size)?;
    Ok(Extent {
        size,
        jumps: jumps_of_both(one.jumps, other.jumps),
        opens: 0,
    })
}

/// `if`: the control source behind it stays where an arm may leave it.
pub(crate) fn if_else(test: u32, one: Extent, other: Option<Extent>) -> Result<Extent, NoMemory>
    ensures { IfOk result (λ x. x ≡ if_else_meant test one other) }
{
    let arms = arms(test, one, other)?;
    settled_unless(any(arms.jumps), arms)
}

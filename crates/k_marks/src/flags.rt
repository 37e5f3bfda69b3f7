//! One flag for each number below a count.
ghost use Rattle.std.specs.Prelude.{◌≡◌, IfOk, slice_set, replicate, true, false};
ghost use Rattle.k_marks.specs.Flags.{raised};
ghost use Rattle.k_marks_meaning.specs.Marking.{flags};

use k_num::{NoMemory, Seq};
use std::alloc::Global;

/// Raises the flag of a number, if there is one.
#[tactic(auto, using(std::proofs::lemmas::List::set_past))]
fn raise_one(list: &mut [bool], number: u32)
    ensures { list.new ≡ slice_set list.old number true }
{
    let at = number as usize;
    if at < list.len() {
        list[at] = true;
    }
}

/// Raises the flags of numbers.
fn raise(list: &mut [bool], numbers: &[u32])
    ensures { list.new ≡ raised numbers.now list.old }
{
    for number in numbers {
        raise_one(list, *number);
    }
}

/// Raises the flags of numbers in a vector.
fn raise_all(list: &mut Vec<bool>, numbers: &[u32])
    ensures { list.new.items ≡ raised numbers.now list.old.items }
{
    raise(list.as_mut_slice(), numbers)
}

/// So many flags, none of them raised.
fn all_down(alloc: Global, count: u32) -> Result<Vec<bool>, NoMemory>
    ensures { IfOk result (λ list. list.items ≡ replicate count false) }
{
    let mut list = Vec::new(alloc);
    for index in 0..count {
        list.push(false)?;
    }
    Ok(list)
}

/// Of the numbers below a count, whether each is among these.
#[tactic(auto, using(crate::proofs::FlagLaws::raised_all))]
pub(crate) fn flags(alloc: Global, count: u32, numbers: &[u32]) -> Result<Seq<bool>, NoMemory>
    ensures { IfOk result (λ list. list ≡ flags count numbers.now) }
{
    let mut list = all_down(alloc, count)?;
    raise_all(&mut list, numbers);
    Ok(Seq::from_vec(list))
}

//! The sizes of one object: none is left out, each is one, and there are at most 4,194,304 elements (C17 6.7.6.2p1).
ghost use Rattle.std.specs.Prelude.{◌≡◌, ◌≤◌, ◌*◌, ◌++◌, ◌∷◌, List, Some, IfOk, OnOk, min, option_map, option_to_list};
ghost use Rattle.k_types_meaning.specs.Dimensions as rules;
ghost use Rattle.k_types_objects.specs.Products.{counted, counted_option, starts, with_first, IsSmall};
ghost use Rattle.k_types_objects.specs.KeptSizes.{size_in, sizes_in};

use crate::size::Size;
use k_num::{NoMemory, Seq};
use std::alloc::Global;

/// The greatest count of elements of one object.
const LIMIT: u64 = 4_194_304;

/// The sizes behind a first one that may be given, as those of one object; none where one is wrong or there are
/// too many elements.
pub(crate) fn within_limit(
    alloc: Global,
    first: Option<u32>,
    sizes: &[Size],
) -> Result<Option<Seq<u32>>, NoMemory>
    ensures { IfOk result (λ dims. dims ≡ rules.within_limit (with_first first (rules.all_sizes (sizes_in sizes.now)))) }
{
    let Some(count) = count(start(first), sizes) else {
        return Ok(None);
    };
    if count > LIMIT {
        return Ok(None);
    }
    let mut dims = first_sizes(alloc, first)?;
    put_sizes(&mut dims, sizes)?;
    Ok(Some(dims))
}

/// A first size, as a count of elements that is at most one above the limit; 1 where there is none.
fn start(first: Option<u32>) -> u64
    ensures value { result ≡ starts first }
    ensures within { result ≤ 4194305 }
{
    match first {
        None => 1,
        Some(size) => u64::from(size).min(LIMIT + 1),
    }
}

/// So many times a size, at most one above the limit.
fn times(count: u64, size: u64) -> u64
    requires { count ≤ 4194305 }
    ensures product { result ≡ min (count * size) 4194305 }
    ensures within { result ≤ 4194305 }
{
    (count * size.min(LIMIT + 1)).min(LIMIT + 1)
}

/// So many times the elements of these sizes, at most one above the limit; none where one is left out or is none.
fn count(first: u64, sizes: &[Size]) -> Option<u64>
    requires { first ≤ 4194305 }
    ensures { result ≡ counted first (sizes_in sizes.now) }
{
    let mut count = Some(first);
    let mut rest = sizes;
    while let Some((size, more)) = rest.split_first() {
        count = count_with(count, size);
        rest = more;
    }
    count
}

/// A count that may be none, with one size more.
fn count_with(count: Option<u64>, size: &Size) -> Option<u64>
    requires { IsSmall count }
    ensures value { (sizes : List rules.Size) → counted_option result sizes ≡ counted_option count (size_in size.now ∷ sizes) }
    ensures within { IsSmall result }
{
    match count {
        None => None,
        Some(count) => count_one(count, size),
    }
}

/// A count with one size more.
fn count_one(count: u64, size: &Size) -> Option<u64>
    requires { count ≤ 4194305 }
    ensures value { (sizes : List rules.Size) → counted_option result sizes ≡ counted count (size_in size.now ∷ sizes) }
    ensures within { IsSmall result }
{
    match size {
        Size::LeftOut => None,
        Size::Is(size) => Some(times(count, *size)),
        Size::NoSize => None,
    }
}

/// A first size that may be given.
fn first_sizes(alloc: Global, first: Option<u32>) -> Result<Seq<u32>, NoMemory>
    ensures { IfOk result (λ dims. dims ≡ option_to_list first) }
{
    let mut dims = Seq::new(alloc);
    let Some(first) = first else {
        return Ok(dims);
    };
    dims.push(first)?;
    Ok(dims)
}

/// Puts sizes behind others. One that no object has counts as want of memory.
fn put_sizes(dims: &mut Seq<u32>, sizes: &[Size]) -> Result<(), NoMemory>
    ensures { OnOk result (option_map (λ ds. dims.old ++ ds) (rules.all_sizes (sizes_in sizes.now)) ≡ Some dims.new) }
{
    let mut rest = sizes;
    while let Some((size, more)) = rest.split_first() {
        let Size::Is(size) = size else {
            return Err(NoMemory);
        };
        let Ok(size) = u32::try_from(*size) else {
            return Err(NoMemory);
        };
        dims.push(size)?;
        rest = more;
    }
    Ok(())
}

/// What is known of sizes of which one is wrong: 0 in place of each of which nothing is known.
pub(crate) fn known_sizes(alloc: Global, sizes: &[Size]) -> Result<Seq<u32>, NoMemory>
    ensures { IfOk result (λ dims. dims ≡ rules.known_sizes 1 (sizes_in sizes.now)) }
{
    let mut dims = Seq::new(alloc);
    let mut elements = 1;
    let mut rest = sizes;
    while let Some((size, more)) = rest.split_first() {
        let known = known_size(elements, size)?;
        dims.push(known)?;
        elements = times_known(elements, known);
        rest = more;
    }
    Ok(dims)
}

/// What is known of a size, where those before it make so many elements.
fn known_size(elements: u64, size: &Size) -> Result<u32, NoMemory>
    requires { elements ≤ 4194304 }
    ensures value { IfOk result (λ known. known ≡ rules.known_size elements (size_in size.now)) }
    ensures within { IfOk result (λ known. elements * known ≤ 4194304) }
{
    match size {
        Size::LeftOut => Ok(0),
        Size::Is(size) => size_within(elements, *size),
        Size::NoSize => Ok(0),
    }
}

/// A size, where there are not too many elements with it, else 0.
fn size_within(elements: u64, size: u64) -> Result<u32, NoMemory>
    requires { elements ≤ 4194304 }
    ensures value { IfOk result (λ known. known ≡ rules.known_size elements (rules.Is size)) }
    ensures within { IfOk result (λ known. elements * known ≤ 4194304) }
{
    if times(elements, size) > LIMIT {
        return Ok(0);
    }
    match u32::try_from(size) {
        Ok(size) => Ok(size),
        Err(_) => Err(NoMemory),
    }
}

/// So many elements, each with as many as a size says, where it is known.
fn times_known(elements: u64, known: u32) -> u64
    requires few { elements ≤ 4194304 }
    requires within { elements * known ≤ 4194304 }
    ensures value { result ≡ rules.times_known elements known }
    ensures within { result ≤ 4194304 }
{
    if 1 <= known {
        elements * u64::from(known)
    } else {
        elements
    }
}

/// How many elements an array of a size takes: where the size is not known, as many as any object has.
pub fn room(size: u32) -> u32
    ensures { result ≡ rules.room size }
{
    if 1 <= size { size } else { 4_194_304 }
}

//! The dimensions of declarators and parameters, as sizes (C17 6.7.6.2).
ghost use Rattle.std.specs.Prelude.{◌≡◌, IfOk};
ghost use Rattle.k_types_meaning.specs.Dimensions as rules;
ghost use Rattle.k_types_objects.specs.KeptSizes.{sizes_in};

use crate::extent::{known_sizes, within_limit};
use k_num::{NoMemory, Seq};
use std::alloc::Global;
use std::marker::Model;

/// A dimension.
#[derive(Clone, Copy)]
pub enum Size {
    /// It is left out.
    LeftOut,
    /// A size of 1 or more.
    Is(u64),
    /// It is no integer constant of 1 or more.
    NoSize,
}

/// The dimensions of a declarator or a parameter, as sizes.
#[derive(Drop)]
pub struct Sizes {
    list: Seq<Size>,
}

impl Model for Sizes {
    ghost use Rattle.std.specs.Prelude.{List};
    ghost use Rattle.k_types_meaning.specs.Dimensions as sizing;

    ghost Value = { List sizing.Size };

    ghost use Rattle.k_types_objects.specs.KeptSizes.{sizes_in};

    ghost view = { λ s. sizes_in s.list };
}

impl Sizes {
    /// These sizes.
    pub fn of_list(list: Seq<Size>) -> Sizes
        ensures { result ≡ sizes_in list }
    {
        Sizes { list }
    }
}

/// The dimensions of an object, of which an initialiser may give the first; none where one is wrong (C17
/// 6.7.6.2p1, 6.7.9p22).
pub fn object_sizes(
    alloc: Global,
    sizes: &Sizes,
    given: Option<u32>,
) -> Result<Option<Seq<u32>>, NoMemory>
    ensures { IfOk result (λ dims. dims ≡ rules.object_sizes sizes.now given) }
{
    sizes_of_object(alloc, sizes.list.as_slice(), given)
}

/// The sizes of an object.
fn sizes_of_object(
    alloc: Global,
    sizes: &[Size],
    given: Option<u32>,
) -> Result<Option<Seq<u32>>, NoMemory>
    ensures { IfOk result (λ dims. dims ≡ rules.object_sizes (sizes_in sizes.now) given) }
{
    let Some((first, more)) = sizes.split_first() else {
        return Ok(Some(Seq::new(alloc)));
    };
    match first {
        Size::LeftOut => match given {
            None => Ok(None),
            Some(count) => within_limit(alloc, Some(count), more),
        },
        Size::Is(_) => within_limit(alloc, None, sizes),
        Size::NoSize => Ok(None),
    }
}

/// The dimensions of an object, and where one is wrong what is known of them.
pub fn sizes_or_known(
    alloc: Global,
    sizes: &Sizes,
    dims: Option<Seq<u32>>,
) -> Result<Seq<u32>, NoMemory>
    ensures { IfOk result (λ known. known ≡ rules.sizes_or_known sizes.now dims) }
{
    match dims {
        None => known_sizes(alloc, sizes.list.as_slice()),
        Some(dims) => Ok(dims),
    }
}

/// The dimensions of a parameter behind the first, which may be left out and counts for nothing; none where one
/// is wrong (C17 6.7.6.3p7).
pub fn param_sizes(alloc: Global, sizes: &Sizes) -> Result<Option<Seq<u32>>, NoMemory>
    ensures { IfOk result (λ dims. dims ≡ rules.param_sizes sizes.now) }
{
    sizes_of_param(alloc, sizes.list.as_slice())
}

/// The sizes of a parameter behind the first.
fn sizes_of_param(alloc: Global, sizes: &[Size]) -> Result<Option<Seq<u32>>, NoMemory>
    ensures { IfOk result (λ dims. dims ≡ rules.param_sizes (sizes_in sizes.now)) }
{
    let Some((first, more)) = sizes.split_first() else {
        return Ok(Some(Seq::new(alloc)));
    };
    match first {
        Size::LeftOut | Size::Is(_) => within_limit(alloc, None, more),
        Size::NoSize => Ok(None),
    }
}

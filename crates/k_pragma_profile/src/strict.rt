//! The loops that may be marked where turns may share no storage either, and each instance is to be looked at.
ghost use Rattle.std.specs.Prelude.{◌≡◌};
ghost use Rattle.k_pragma_profile.specs.Strict.{has_pairs, is_deep, is_shared, is_strict, strictly_markable};

use k_carry_storage_pairs::LoopStorage;
use k_num::Seq;
use k_pragma::{CarriedPairs, LoopPairs};

/// Whether this tells a storage pair of the loop of a region.
fn has_pairs(region: u32, told: &LoopStorage) -> bool
    ensures { result ≡ has_pairs region told.now }
{
    told.region == region && !told.pairs.is_empty()
}

/// Whether one of these does.
fn is_shared(shared: &[LoopStorage], region: u32) -> bool
    ensures { result ≡ is_shared shared.now region }
{
    shared.iter().any(|told| has_pairs(region, told))
}

/// Whether an instance of a region was too deep to be looked at.
fn is_deep(deep: &[bool], region: u32) -> bool
    ensures { result ≡ is_deep deep.now region }
{
    match deep.get(region as usize) {
        Some(flag) => *flag,
        None => false,
    }
}

/// Whether a loop shares no storage, and each of its instances was looked at.
fn is_strict(deep: &[bool], shared: &[LoopStorage], told: &LoopPairs) -> bool
    ensures { result ≡ is_strict deep.now shared.now told.now }
{
    !is_shared(shared, told.region) && !is_deep(deep, told.region)
}

/// What is told of the loops that share no storage, by their storage pairs, and that had no instance which was not looked at, by flags of the regions. A loop
/// that the pairs don't name shares none, and a region behind the flags had none.
#[tactic(auto, unfolding(crate::specs::Strict::strictly_markable))]
pub fn unshared(deep: &[bool], shared: &[LoopStorage], found: CarriedPairs) -> CarriedPairs
    ensures loops { result.loops ≡ strictly_markable deep.now shared.now found.loops }
    ensures end { result.end ≡ found.end }
{
    let CarriedPairs { end, loops } = found;
    let mut loops = loops.into_vec();
    loops.retain(|one| is_strict(deep, shared, one));
    CarriedPairs {
        end,
        loops: Seq::from_vec(loops),
    }
}

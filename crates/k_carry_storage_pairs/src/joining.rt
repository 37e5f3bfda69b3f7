//! The storage pairs of loops, put together of those that follow a load and those that follow a store.
ghost use Rattle.std.specs.Prelude.{◌≡◌, ◌++◌, map, OnOk, IfOk};
ghost use Rattle.k_carry_storage_pairs.specs.Storage.{as_shared};
ghost use Rattle.k_carry_storage_pairs.specs.Kept.{joined, one_joined, pairs_among, pairs_of_one};

use crate::{LoopStorage, Shared, Sharing};
use k_carry_pairs::{LoopPairs, Pair};
use k_num::{NoMemory, Seq};
use std::alloc::Global;

/// A pair as one of a kind.
fn shared(kind: Sharing, pair: &Pair) -> Shared
    ensures { result ≡ as_shared kind pair.now }
{
    Shared {
        kind,
        from: pair.from,
        to: pair.to,
    }
}

/// Puts pairs behind others, as pairs of a kind.
fn push_all(pairs: &mut Seq<Shared>, kind: Sharing, more: &[Pair]) -> Result<(), NoMemory>
    ensures { OnOk result (pairs.new ≡ pairs.old ++ map (as_shared kind) more.now) }
{
    let mut rest = more;
    while let Some((pair, later)) = rest.split_first() {
        pairs.push(shared(kind, pair))?;
        rest = later;
    }
    Ok(())
}

/// Puts the pairs of a loop behind others, if it is that of this region.
fn push_if(
    pairs: &mut Seq<Shared>,
    kind: Sharing,
    region: u32,
    one: &LoopPairs,
) -> Result<(), NoMemory>
    ensures { OnOk result (pairs.new ≡ pairs.old ++ pairs_of_one kind region one.now) }
{
    if one.region == region {
        return push_all(pairs, kind, one.pairs.as_slice());
    }
    Ok(())
}

/// Puts the pairs of a region behind others, of those of loops.
fn push_of(
    pairs: &mut Seq<Shared>,
    kind: Sharing,
    region: u32,
    loops: &[LoopPairs],
) -> Result<(), NoMemory>
    ensures { OnOk result (pairs.new ≡ pairs.old ++ pairs_among kind region loops.now) }
{
    let mut rest = loops;
    while let Some((one, later)) = rest.split_first() {
        push_if(pairs, kind, region, one)?;
        rest = later;
    }
    Ok(())
}

/// The storage pairs of a loop: those that follow a load, and then those that follow a store.
fn join_one(alloc: Global, loads: &LoopPairs, stores: &[LoopPairs]) -> Result<LoopStorage, NoMemory>
    ensures { IfOk result (λ l. l ≡ one_joined stores.now loads.now) }
{
    let mut pairs = Seq::new(alloc);
    push_all(&mut pairs, Sharing::Anti, loads.pairs.as_slice())?;
    push_of(&mut pairs, Sharing::Output, loads.region, stores)?;
    Ok(LoopStorage {
        region: loads.region,
        pairs,
    })
}

/// The storage pairs of loops.
pub fn join(
    alloc: Global,
    loads: &[LoopPairs],
    stores: &[LoopPairs],
) -> Result<Seq<LoopStorage>, NoMemory>
    ensures { IfOk result (λ loops. loops ≡ joined stores.now loads.now) }
{
    let mut loops = Seq::new(alloc);
    let mut rest = loads;
    while let Some((one, later)) = rest.split_first() {
        loops.push(join_one(alloc, one, stores)?)?;
        rest = later;
    }
    Ok(loops)
}

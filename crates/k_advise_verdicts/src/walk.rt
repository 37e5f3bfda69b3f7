//! The verdicts on all loops of a run: four lists in order of region, walked side by side.
ghost use Rattle.std.specs.Prelude.{◌≡◌, ◌++◌, OnOk, IfOk};
ghost use Rattle.k_carry_pairs.specs.Carried.{AreSorted, loop_before};
ghost use Rattle.k_carry_storage_pairs.specs.Storage.{storage_before};
ghost use Rattle.k_advise_verdicts.specs.Told.{Passes, facts_before, front, number_of_facts, number_of_pairs, number_of_storage, pairs_in, row_before, shared_in, standing_at, told, verdicts_of};

use crate::facts::LoopFacts;
use crate::judging::verdict_of;
use crate::standing::Standing;
use crate::word::LoopVerdict;
use k_carry_pairs::{LoopPairs, Pair};
use k_carry_storage_pairs::{LoopStorage, Shared};
use k_num::{NoMemory, Seq};
use k_selfpar::Row;
use std::alloc::Global;

/// What is known of loops, without those of lower regions.
fn facts_from(facts: &[LoopFacts], region: u32) -> &[LoopFacts]
    requires { AreSorted facts_before facts.now }
    ensures { Passes number_of_facts region facts.now result.now }
{
    let mut rest = facts;
    while let Some((first, later)) = rest.split_first() {
        if first.region >= region {
            return rest;
        }
        rest = later;
    }
    rest
}

/// Loops with what they carry, without those of lower regions.
fn carried_from(loops: &[LoopPairs], region: u32) -> &[LoopPairs]
    requires { AreSorted loop_before loops.now }
    ensures { Passes number_of_pairs region loops.now result.now }
{
    let mut rest = loops;
    while let Some((first, later)) = rest.split_first() {
        if first.region >= region {
            return rest;
        }
        rest = later;
    }
    rest
}

/// Loops with what their turns share, without those of lower regions.
fn shared_from(loops: &[LoopStorage], region: u32) -> &[LoopStorage]
    requires { AreSorted storage_before loops.now }
    ensures { Passes number_of_storage region loops.now result.now }
{
    let mut rest = loops;
    while let Some((first, later)) = rest.split_first() {
        if first.region >= region {
            return rest;
        }
        rest = later;
    }
    rest
}

/// What is known of the first of these loops, if that is the one of this region.
fn front_facts(facts: &[LoopFacts], region: u32) -> Option<LoopFacts>
    ensures { result ≡ front number_of_facts region facts.now }
{
    match facts.split_first() {
        Some((first, _)) => {
            if first.region == region {
                Some(*first)
            } else {
                None
            }
        }
        None => None,
    }
}

/// What the first of these loops carries, if that is the one of this region.
fn front_carried(loops: &[LoopPairs], region: u32) -> &[Pair]
    ensures { result.now ≡ pairs_in (front number_of_pairs region loops.now) }
{
    match loops.split_first() {
        Some((carrying, _)) => {
            if carrying.region == region {
                carrying.pairs.as_slice()
            } else {
                &[]
            }
        }
        None => &[],
    }
}

/// What the turns of the first of these loops share, if that is the one of this region.
fn front_shared(loops: &[LoopStorage], region: u32) -> &[Shared]
    ensures { result.now ≡ shared_in (front number_of_storage region loops.now) }
{
    match loops.split_first() {
        Some((sharing, _)) => {
            if sharing.region == region {
                sharing.pairs.as_slice()
            } else {
                &[]
            }
        }
        None => &[],
    }
}

/// Where the loop of a region stands in a plan; one of which nothing is told is not in it.
fn standing_at(standings: &[Standing], region: u32) -> Standing
    ensures { result ≡ standing_at standings.now region }
{
    match standings.get(region as usize) {
        Some(standing) => *standing,
        None => Standing {
            picked: false,
            inside: None,
            saves: false,
        },
    }
}

/// Adds the verdict on the loop of a row, if it is that of a loop.
fn add_verdict(
    verdicts: &mut Seq<LoopVerdict>,
    start: u64,
    row: &Row,
    standing: &Standing,
    facts: Option<LoopFacts>,
    carried: &[Pair],
    shared: &[Shared],
) -> Result<(), NoMemory>
    ensures { OnOk result (verdicts.new ≡ verdicts.old ++ told start row.now standing.now facts carried.now shared.now) }
{
    let Some(facts) = facts else {
        return Ok(());
    };
    verdicts.push(LoopVerdict {
        region: row.region,
        verdict: verdict_of(start, row, &facts, standing, carried, shared),
    })
}

/// The verdicts on the loops that have a row, in order of region, where a start of the team has this price. Of each
/// loop of the source there is what is known of it, and of each region where it stands in the plan.
pub fn verdicts(
    alloc: Global,
    start: u64,
    rows: &[Row],
    facts: &[LoopFacts],
    standings: &[Standing],
    carried: &[LoopPairs],
    shared: &[LoopStorage],
) -> Result<Seq<LoopVerdict>, NoMemory>
    requires rows { AreSorted row_before rows.now }
    requires facts { AreSorted facts_before facts.now }
    requires carried { AreSorted loop_before carried.now }
    requires shared { AreSorted storage_before shared.now }
    ensures { IfOk result (λ found. found ≡ verdicts_of start facts.now standings.now carried.now shared.now rows.now) }
{
    let mut found = Seq::new(alloc);
    let mut facts = facts;
    let mut carried = carried;
    let mut shared = shared;
    let mut rest = rows;
    while let Some((row, later)) = rest.split_first() {
        facts = facts_from(facts, row.region);
        carried = carried_from(carried, row.region);
        shared = shared_from(shared, row.region);
        let known = front_facts(facts, row.region);
        let standing = standing_at(standings, row.region);
        let pairs = front_carried(carried, row.region);
        let storage = front_shared(shared, row.region);
        add_verdict(&mut found, start, row, &standing, known, pairs, storage)?;
        rest = later;
    }
    Ok(found)
}

//! Maps from location to time, one for each level.
ghost use Rattle.std.specs.Prelude.{◌≡◌, ℕ, ◌+◌, ◌-◌, ◌^◌, ◌<◌, ◌≤◌, ◌==◌, ◌&&◌, if◌then◌else◌, map, length, take, vec_len, IsSome, is_some, OnOk};
ghost use Rattle.std.specs.Ordering.{nat_cmp};
ghost use Rattle.std.specs.BTreeMap.{get};
ghost use Rattle.k_shadow.specs.Content.{set_times, without};
ghost use Rattle.k_shadow.specs.Maps.{map_time, levels_in, StandsIn};

use crate::Steps;
use k_num::NoMemory;
use std::alloc::Global;
use std::collections::BTreeMap;
use std::sync::ledger::Ledger;

/// The time of a location, 0 where it is absent, in one step.
pub fn time_in<L: Ledger>(map: &BTreeMap<u32, u64>, loc: u32, steps: &mut Steps<L>) -> u64
    ensures time { result ≡ map_time map.now loc }
    ensures step { steps.new ≡ steps.old + 1 }
{
    steps.tick();
    map.get(&loc).copied().unwrap_or(0)
}

/// Sets the time of a location, where it stands in the map.
fn set_in(map: &mut BTreeMap<u32, u64>, loc: u32, time: u64)
    ensures times { (at : ℕ) → map_time map.new at ≡ (if at == loc && is_some (get nat_cmp map.old loc) then time else map_time map.old at) }
    ensures held { (at : ℕ) → IsSome (get nat_cmp map.old at) → IsSome (get nat_cmp map.new at) }
{
    if let Some(held) = map.get_mut(&loc) {
        *held = time;
    }
}

/// Sets the times of the `count` locations from `first` on to 0.
fn clear_in(map: &mut BTreeMap<u32, u64>, first: u32, count: u32)
    requires { first + count < 2 ^ 32 }
    ensures times { (at : ℕ) → map_time map.new at ≡ without first count (map_time map.old) at }
    ensures held { (at : ℕ) → IsSome (get nat_cmp map.old at) → IsSome (get nat_cmp map.new at) }
{
    for loc in first..first + count {
        set_in(map, loc, 0);
    }
}

/// Gives the `count` locations from `first` on a place in the map, with time 0 where they had none.
fn hold_in(map: &mut BTreeMap<u32, u64>, first: u32, count: u32) -> Result<(), NoMemory>
    requires { first + count < 2 ^ 32 }
    ensures times { (at : ℕ) → map_time map.new at ≡ map_time map.old at }
    ensures kept { (at : ℕ) → IsSome (get nat_cmp map.old at) → IsSome (get nat_cmp map.new at) }
    ensures ok { OnOk result ((at : ℕ) → first ≤ at → at < first + count → IsSome (get nat_cmp map.new at)) }
{
    for loc in first..first + count {
        hold_one(map, loc)?;
    }
    Ok(())
}

/// Gives a location a place in the map, with time 0 where it had none.
fn hold_one(map: &mut BTreeMap<u32, u64>, loc: u32) -> Result<(), NoMemory>
    ensures times { (at : ℕ) → map_time map.new at ≡ map_time map.old at }
    ensures kept { (at : ℕ) → IsSome (get nat_cmp map.old at) → IsSome (get nat_cmp map.new at) }
    ensures ok { OnOk result (IsSome (get nat_cmp map.new loc)) }
{
    if !map.contains_key(&loc) {
        map.insert(loc, 0)?;
    }
    Ok(())
}

/// Adds empty maps until there are `count`. A refusal may have added some.
pub fn add_maps(
    alloc: Global,
    maps: &mut Vec<BTreeMap<u32, u64>>,
    count: usize,
) -> Result<(), NoMemory>
    requires { vec_len maps.old ≤ count }
    ensures fewer { vec_len maps.new ≤ count }
    ensures levels { levels_in maps.new.items count ≡ levels_in maps.old.items count }
    ensures same { vec_len maps.old ≡ count → maps.new.items ≡ maps.old.items }
    ensures ok { OnOk result (vec_len maps.new ≡ count) }
{
    for _level in maps.len()..count {
        maps.push(BTreeMap::new(alloc))?;
    }
    Ok(())
}

/// Drops the map of the innermost of `depth` levels, if it has one.
pub fn drop_innermost(maps: &mut Vec<BTreeMap<u32, u64>>, depth: usize)
    requires live { 0 < depth }
    requires fewer { vec_len maps.old ≤ depth }
    ensures fewer { vec_len maps.new ≤ depth - 1 }
    ensures levels { levels_in maps.new.items (depth - 1) ≡ take (depth - 1) (levels_in maps.old.items depth) }
{
    if maps.len() == depth {
        maps.pop();
    }
}

/// Sets the time of a location in each map to that of its level.
pub fn set_in_all(maps: &mut [BTreeMap<u32, u64>], loc: u32, times: &[u64])
    requires each { length times.now ≡ length maps.old }
    requires held { StandsIn maps.old loc }
    ensures times { map map_time maps.new ≡ set_times loc times.now (map map_time maps.old) }
    ensures held { (at : ℕ) → StandsIn maps.old at → StandsIn maps.new at }
{
    for level in 0..maps.len() {
        set_in(&mut maps[level], loc, times[level]);
    }
}

/// Sets the times of the `count` locations from `first` on to 0 in each map.
pub fn clear_in_all(maps: &mut [BTreeMap<u32, u64>], first: u32, count: u32)
    requires { first + count < 2 ^ 32 }
    ensures times { map map_time maps.new ≡ map (without first count) (map map_time maps.old) }
    ensures held { (at : ℕ) → StandsIn maps.old at → StandsIn maps.new at }
{
    for level in 0..maps.len() {
        clear_in(&mut maps[level], first, count);
    }
}

/// Gives the `count` locations from `first` on a place in each map. A refusal may have done so in some.
pub fn hold_in_all(maps: &mut [BTreeMap<u32, u64>], first: u32, count: u32) -> Result<(), NoMemory>
    requires { first + count < 2 ^ 32 }
    ensures times { map map_time maps.new ≡ map map_time maps.old }
    ensures kept { (at : ℕ) → StandsIn maps.old at → StandsIn maps.new at }
    ensures ok { OnOk result ((at : ℕ) → first ≤ at → at < first + count → StandsIn maps.new at) }
{
    for level in 0..maps.len() {
        hold_in(&mut maps[level], first, count)?;
    }
    Ok(())
}

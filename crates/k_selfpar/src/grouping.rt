//! Contexts of the tree that a dictionary stands for: entries are multiplied by how often they occur in a context, and never
//! expanded.
ghost use Rattle.std.specs.Prelude.{◌≡◌, ◌≤◌, ◌<◌, ◌+◌, ◌*◌, ◌^◌, ◌==◌, ◌&&◌, if◌then◌else◌, map, length, slice_get, IfOk, OnOk};
ghost use Rattle.k_dict_entries.specs.Entries.{AreInterned, AreRuns, expansion};
ghost use Rattle.k_dict_entries.specs.Rules.{AreProfile, NameRegions};
ghost use Rattle.k_dict_entries.specs.Tallies.{total as count_all};
ghost use Rattle.k_selfpar.specs.Contexts.{ContextsAreAtLeastOne, GivesContexts, has_turns};
ghost use Rattle.k_selfpar.specs.Grouping.{AddsContexts, AreChildren, Fits, IsContextOf, item_for, tallied};
ghost use Rattle.k_selfpar.specs.Items.{AreItems, Rise, items_in, total, totals};
ghost use Rattle.k_selfpar.specs.Nested.{CanPlan};
ghost use Rattle.k_selfpar.specs.Sums.{AreSmall, HaveChildren};

use crate::Frac;
use crate::context::{Context, ContextFault, ContextList};
use crate::item::{Item, item_of, sort_by_region, split_region};
use crate::sums::sums_of;
use k_dict_entries::{Dict, Run, Tally};
use k_num::{NoMemory, Seq};
use k_optab::Region;
use std::alloc::Global;

/// The greatest number of contexts.
const MOST_CONTEXTS: usize = 65_536;

/// Counts the children that so many instances have by these runs.
fn count_runs(tally: &mut Tally, runs: &[Run], count: u64) -> Result<(), NoMemory>
    requires { count_all tally.old + count * count_all runs.now < 2 ^ 64 }
    ensures { OnOk result (tally.new ≡ tallied count runs.now tally.old) }
{
    let mut rest = runs;
    while let Some((run, later)) = rest.split_first() {
        tally.add(run.entry, count * run.count)?;
        rest = later;
    }
    Ok(())
}

/// These runs with the regions of their entries.
pub fn items_of(alloc: Global, dict: &Dict, runs: &[Run]) -> Result<Vec<Item>, NoMemory>
    requires { AreRuns 0 (length dict.now) runs.now }
    ensures { IfOk result (λ items. items.items ≡ map (item_for dict.now) runs.now) }
{
    let mut items = Vec::new(alloc);
    let mut rest = runs;
    while let Some((run, later)) = rest.split_first() {
        items.push(item_of(dict, run.entry, run.count))?;
        rest = later;
    }
    Ok(items)
}

/// The children of the instances of items, in order of their regions.
fn children_of(alloc: Global, dict: &Dict, items: &[Item]) -> Result<Vec<Item>, NoMemory>
    requires items { AreItems dict.now items.now }
    requires interned { AreInterned dict.now }
    requires fits { Fits dict.now items.now }
    ensures { IfOk result (λ children. AreChildren dict.now items.now children.items) }
{
    let mut tally = Tally::new(alloc);
    let mut rest = items;
    while let Some((item, later)) = rest.split_first() {
        count_runs(
            &mut tally,
            dict.entry(item.run.entry).runs.as_slice(),
            item.run.count,
        )?;
        rest = later;
    }
    let runs = tally.runs(alloc)?;
    let mut children = items_of(alloc, dict, runs.as_slice())?;
    sort_by_region(&mut children)?;
    Ok(children)
}

/// Whether a region is a loop, and the next one its body.
fn has_turns(regions: &[Region], region: usize) -> bool
    requires { region < length regions.now }
    ensures { result ≡ has_turns regions.now region }
{
    match regions.get(region + 1) {
        None => false,
        Some(next) => regions[region].kind.is_loop() && next.kind.is_body(),
    }
}

/// How many instances of a region there are.
fn count_in(items: &[Item], region: u64) -> u64
    requires { total (λ n. 1) items.now < 2 ^ 64 }
    ensures { result ≡ total (λ n. 1) (items_in region items.now) }
{
    let mut count = 0;
    let mut rest = items;
    while let Some((item, later)) = rest.split_first() {
        if u64::from(item.region) == region {
            count += item.run.count;
        }
        rest = later;
    }
    count
}

/// The context of instances of a region, whose children are these.
fn context_of(
    dict: &Dict,
    regions: &[Region],
    parent: u32,
    region: u32,
    group: &[Item],
    children: &[Item],
) -> Context
    requires region { region < length regions.now }
    requires items { AreItems dict.now group.now }
    requires interned { AreInterned dict.now }
    requires small { AreSmall (totals dict.now group.now) }
    requires have { HaveChildren dict.now }
    requires few { total (λ n. 1) children.now < 2 ^ 64 }
    ensures { IsContextOf regions.now parent region (totals dict.now group.now) (total (λ n. 1) (items_in (region + 1) children.now)) result }
{
    let sums = sums_of(dict, group);
    let mut turns = 0;
    if has_turns(regions, region as usize) {
        turns = count_in(children, u64::from(region) + 1);
    }
    Context {
        parent,
        region,
        kind: regions[region as usize].kind,
        instances: sums.instances,
        turns,
        work: sums.work,
        path: sums.path,
        sp: Frac::ratio(sums.serial, sums.path),
    }
}

/// Adds the contexts of items whose parents are in one context: first that of the lowest region, behind it those of its
/// instances' children, and then those of the others. It calls itself once for each level of the tree, of which there are at most 32.
pub fn add_contexts(
    alloc: Global,
    dict: &Dict,
    regions: &[Region],
    parent: u32,
    items: &[Item],
    contexts: &mut ContextList,
) -> Result<(), ContextFault>
    requires items { AreItems dict.now items.now }
    requires rise { Rise 0 items.now }
    requires profile { AreProfile dict.now }
    requires regions { NameRegions (length regions.now) dict.now }
    requires fits { Fits dict.now items.now }
    requires room { length contexts.old ≤ 65536 }
    ensures { AddsContexts regions.now dict.now parent items.now contexts.old result contexts.new }
{
    let mut rest = items;
    while let Some((first, _)) = rest.split_first() {
        let region = first.region;
        let (group, later) = split_region(rest, region);
        let number = contexts.len();
        if number == MOST_CONTEXTS {
            return Err(ContextFault::Wide);
        }
        let children = children_of(alloc, dict, group)?;
        let below = children.as_slice();
        let context = context_of(dict, regions, parent, region, group, below);
        contexts.push(context)?;
        add_contexts(alloc, dict, regions, number as u32, below, contexts)?;
        rest = later;
    }
    Ok(())
}

/// The contexts of the tree that an entry stands for: its instances, grouped by their lists of regions from the root. A context
/// stands before those of its instances' children, and these in order of their regions. `Wide` comes exactly where there are more
/// than 65,536.
pub fn contexts(
    alloc: Global,
    dict: &Dict,
    root: u32,
    regions: &Seq<Region>,
) -> Result<ContextList, ContextFault>
    requires root { root < length dict.now }
    requires profile { AreProfile dict.now }
    requires regions { NameRegions (length regions.now) dict.now }
    ensures contexts { GivesContexts regions.now (expansion dict.now root) result }
    ensures at_least_one { IfOk result ContextsAreAtLeastOne }
    ensures can_plan { IfOk result CanPlan }
{
    let first = item_of(dict, root, 1);
    let mut contexts = Seq::new(alloc);
    match add_contexts(alloc, dict, regions.as_slice(), 0, &[first], &mut contexts) {
        Ok(()) => Ok(contexts),
        Err(fault) => {
            drop(contexts);
            Err(fault)
        }
    }
}

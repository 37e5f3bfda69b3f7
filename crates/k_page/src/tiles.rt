//! Where contexts stand in the picture.
ghost use Rattle.std.specs.Prelude.{◌≡◌, drop, slice_get, IfOk, OnOk, option_copied};
ghost use Rattle.k_page.specs.Tiles as spec;

use k_num::{NoMemory, Seq};
use k_selfpar::Context;
use std::alloc::Global;

/// A context with its place in the picture.
#[derive(Clone, Copy, Debug, PartialEq, Eq)]
pub struct Tile {
    /// The number of the context.
    pub number: u64,
    pub context: Context,
    /// How much work the contexts before it have themselves, without that of the contexts in them: where it begins.
    pub start: u64,
    /// How many contexts are around it.
    pub level: u64,
}

/// Adds a number at a place of a list, where the list has this place.
#[tactic(auto, using(crate::proofs::Adding::added_within, crate::proofs::Adding::added_past))]
fn add_at(sums: &mut [u64], place: u32, number: u64) -> Result<(), NoMemory>
    ensures { OnOk result (sums.new ≡ spec.added place number sums.old) }
{
    let place = place as usize;
    if place >= sums.len() {
        return Ok(());
    }
    match sums[place].checked_add(number) {
        Some(sum) => {
            sums[place] = sum;
            Ok(())
        }
        None => Err(NoMemory),
    }
}

/// Adds the work of each context at its parent's place.
fn add_works(sums: &mut [u64], contexts: &[Context]) -> Result<(), NoMemory>
    ensures { OnOk result (sums.new ≡ spec.works_from sums.old contexts.now) }
{
    for context in contexts {
        add_at(sums, context.parent, context.work)?;
    }
    Ok(())
}

/// Contexts but the first.
fn behind_root(contexts: &[Context]) -> &[Context]
    ensures { result.now ≡ drop 1 contexts.now }
{
    match contexts.split_first() {
        None => contexts,
        Some((_, inner)) => inner,
    }
}

/// For each context the work of the contexts directly in it.
fn inner_works(alloc: Global, contexts: &[Context]) -> Result<Vec<u64>, NoMemory>
    ensures { IfOk result (λ sums. sums.items ≡ spec.inner_works contexts.now) }
{
    let mut sums: Vec<u64> = vec![in alloc; 0; contexts.len()]?;
    add_works(sums.as_mut_slice(), behind_root(contexts))?;
    Ok(sums)
}

/// The tile of a number.
fn tile_at(tiles: &[Tile], number: u32) -> Option<&Tile>
    ensures { option_copied result ≡ slice_get tiles.now number }
{
    tiles.get(number as usize)
}

/// How many contexts are around one whose parent is this.
fn level_in(tiles: &[Tile], parent: u32) -> Result<u64, NoMemory>
    ensures { IfOk result (λ level. level ≡ spec.level_in tiles.now parent) }
{
    let Some(tile) = tile_at(tiles, parent) else {
        return Ok(0);
    };
    match tile.level.checked_add(1) {
        Some(level) => Ok(level),
        None => Err(NoMemory),
    }
}

/// The work that a context has itself, where the contexts directly in it have these works.
fn own_work(sums: &[u64], number: usize, work: u64) -> u64
    ensures { result ≡ spec.own_work sums.now number work }
{
    if number < sums.len() {
        work.saturating_sub(sums[number])
    } else {
        work
    }
}

/// Adds the tile of a context, which begins here. Answered is where the next one begins.
fn add_tile(
    tiles: &mut Seq<Tile>,
    sums: &[u64],
    start: u64,
    context: &Context,
) -> Result<u64, NoMemory>
    ensures tiles { OnOk result (tiles.new ≡ spec.with_tile tiles.old start context.now) }
    ensures next { IfOk result (λ next. next ≡ spec.next_start tiles.old sums.now start context.now) }
{
    let own = own_work(sums, tiles.len(), context.work);
    let level = level_in(tiles.as_slice(), context.parent)?;
    let Some(next) = start.checked_add(own) else {
        return Err(NoMemory);
    };
    tiles.push(Tile {
        number: tiles.len() as u64,
        context: *context,
        start,
        level,
    })?;
    Ok(next)
}

/// The tiles of contexts.
pub(crate) fn tiles_of(alloc: Global, contexts: &[Context]) -> Result<Seq<Tile>, NoMemory>
    ensures { IfOk result (λ tiles. tiles ≡ spec.tiles contexts.now) }
{
    let sums = inner_works(alloc, contexts)?;
    let mut tiles = Seq::new(alloc);
    let mut start = 0;
    for context in contexts {
        start = add_tile(&mut tiles, sums.as_slice(), start, context)?;
    }
    Ok(tiles)
}

/// How many levels tiles have.
pub(crate) fn levels(tiles: &[Tile]) -> Result<u64, NoMemory>
    ensures { IfOk result (λ levels. levels ≡ spec.levels_from 0 tiles.now) }
{
    let mut most: u64 = 0;
    for tile in tiles {
        let Some(levels) = tile.level.checked_add(1) else {
            return Err(NoMemory);
        };
        most = most.max(levels);
    }
    Ok(most)
}

//! What is told of the contexts of each region together: one pass from the last context to the first.
ghost use Rattle.std.specs.Prelude.{◌≡◌, ◌<◌, length, map, slice_set, IfOk, OnOk};
ghost use Rattle.k_plan.specs.Choices.{Choice};
ghost use Rattle.k_plan.specs.Plan.{CanPlan};
ghost use Rattle.k_advise_plan.specs.Plan.{picks_from};
ghost use Rattle.k_advise_verdicts.specs.Placing.{AreGathered, IsAdded, Reaches, gathered_at, joined, standing_of};
ghost use Rattle.k_advise_verdicts.specs.Standings.{AreStandings};

use crate::placing::{Placed, place_all};
use crate::standing::Standing;
use k_advise_plan::{Team, ThreadedPick};
use k_num::{NoMemory, Seq};
use k_selfpar::ContextList;
use std::alloc::Global;

/// What is told of the contexts of a region together.
#[derive(Clone, Copy)]
pub struct Gathered {
    /// Whether one is a pick.
    pub picked: bool,
    /// Whether one saves something.
    pub saves: bool,
    /// Whether no pick is above one of them.
    pub apart: bool,
    /// The region of the pick above the first of them, if there is one.
    pub first: Option<u32>,
}

const NOTHING: Gathered = Gathered {
    picked: false,
    saves: false,
    apart: false,
    first: None,
};

/// What is told of the contexts of a region.
fn gathered_at(table: &[Gathered], region: u32) -> Gathered
    ensures { result ≡ gathered_at table.now region }
{
    match table.get(region as usize) {
        Some(gathered) => *gathered,
        None => NOTHING,
    }
}

/// The same with one context before the others.
fn joined(placed: &Placed, others: &Gathered) -> Gathered
    ensures { result ≡ joined placed.now others.now }
{
    Gathered {
        picked: placed.picked || others.picked,
        saves: placed.saves || others.saves,
        apart: placed.under.is_none() || others.apart,
        first: placed.under,
    }
}

/// Gives a region its place in the table.
fn reach(table: &mut Vec<Gathered>, region: u32) -> Result<(), NoMemory>
    ensures { OnOk result (Reaches region table.old.items table.new.items) }
{
    while table.len() <= region as usize {
        table.push(NOTHING)?;
    }
    Ok(())
}

/// Tells this of the contexts of a region.
fn put(table: &mut Vec<Gathered>, region: u32, gathered: Gathered)
    requires { region < length table.old.items }
    ensures { table.new.items ≡ slice_set table.old.items region gathered }
{
    table[region as usize] = gathered;
}

/// Adds a context before the others of its region.
fn add(table: &mut Vec<Gathered>, placed: &Placed) -> Result<(), NoMemory>
    ensures { OnOk result (IsAdded placed.now table.old.items table.new.items) }
{
    reach(table, placed.region)?;
    let others = gathered_at(table.as_slice(), placed.region);
    put(table, placed.region, joined(placed, &others));
    Ok(())
}

/// What is told of the contexts of each region.
fn gather(alloc: Global, placed: &[Placed]) -> Result<Vec<Gathered>, NoMemory>
    ensures { IfOk result (λ table. AreGathered placed.now table.items) }
{
    let mut table = Vec::new(alloc);
    let mut rest = placed;
    while let Some((last, before)) = rest.split_last() {
        add(&mut table, last)?;
        rest = before;
    }
    Ok(table)
}

/// Where a loop stands, by what is told of its contexts.
fn standing_of(gathered: &Gathered) -> Standing
    ensures { result ≡ standing_of gathered.now }
{
    Standing {
        picked: gathered.picked,
        inside: if gathered.apart { None } else { gathered.first },
        saves: gathered.saves,
    }
}

/// Where each loop stands.
fn told(alloc: Global, table: &[Gathered]) -> Result<Seq<Standing>, NoMemory>
    ensures { IfOk result (λ told. told ≡ map standing_of table.now) }
{
    let mut told = Seq::new(alloc);
    let mut rest = table;
    while let Some((gathered, later)) = rest.split_first() {
        told.push(standing_of(gathered))?;
        rest = later;
    }
    Ok(told)
}

/// Where each loop stands in the plan of these picks, by its region. It takes time in proportion to the contexts, and
/// to the greatest number of a region.
pub fn standings(
    alloc: Global,
    team: &Team,
    contexts: &ContextList,
    picks: &[ThreadedPick],
) -> Result<Seq<Standing>, NoMemory>
    requires { CanPlan contexts.now }
    ensures { IfOk result (λ standings. (plan : Choice) → picks.now ≡ picks_from team.now 0 plan contexts.now → AreStandings team.now contexts.now plan standings) }
{
    let placed = place_all(alloc, team, contexts.as_slice(), picks)?;
    let table = gather(alloc, placed.as_slice())?;
    let found = told(alloc, table.as_slice())?;
    Ok(found)
}

//! Where each context stands in a plan: one pass from the first context on, since each stands behind its parent.
ghost use Rattle.std.specs.Prelude.{◌≡◌, ◌^◌, ◌<◌, IfOk};
ghost use Rattle.k_plan.specs.Choices.{Choice};
ghost use Rattle.k_plan.specs.Plan.{ParentsComeFirst};
ghost use Rattle.k_advise_plan.specs.Plan.{picks_from};
ghost use Rattle.k_advise_plan.specs.Recast.{AreSmall};
ghost use Rattle.k_advise_verdicts.specs.Placing.{ArePlaced, behind, is_first, pick_of, placed_at, placed_by};

use k_advise_plan::{Team, ThreadedPick, threaded_saving};
use k_num::{NoMemory, Seq};
use k_selfpar::Context;
use std::alloc::Global;

/// Where a context stands in a plan.
#[derive(Clone, Copy)]
pub struct Placed {
    /// The number of its region.
    pub region: u32,
    /// Whether it is a pick.
    pub picked: bool,
    /// The region of the pick above it, if there is one.
    pub under: Option<u32>,
    /// Whether it saves something.
    pub saves: bool,
}

/// Whether the first of these picks is of this context.
fn is_first(picks: &[ThreadedPick], number: usize) -> bool
    ensures { result ≡ is_first picks.now number }
{
    match picks.split_first() {
        None => false,
        Some((pick, _)) => pick.context as usize == number,
    }
}

/// These picks without the first, if that is taken.
fn behind(picks: &[ThreadedPick], taken: bool) -> &[ThreadedPick]
    ensures { result.now ≡ behind taken picks.now }
{
    if !taken {
        return picks;
    }
    match picks.split_first() {
        None => picks,
        Some((_, later)) => later,
    }
}

/// Where the context of this number stands; one of which nothing is told is not in the plan.
fn placed_at(placed: &[Placed], number: u32) -> Placed
    ensures { result ≡ placed_at placed.now number }
{
    match placed.get(number as usize) {
        Some(there) => *there,
        None => Placed {
            region: 0,
            picked: false,
            under: None,
            saves: false,
        },
    }
}

/// The region of the pick that is this context, or is above it.
fn pick_of(placed: &Placed) -> Option<u32>
    ensures { result ≡ pick_of placed.now }
{
    if placed.picked {
        Some(placed.region)
    } else {
        placed.under
    }
}

/// Where a context stands, behind others of which it is known.
fn placed_by(placed: &[Placed], team: &Team, picked: bool, context: &Context) -> Placed
    requires { context.now.work < 2 ^ 50 }
    ensures { result ≡ placed_by team.now picked context.now placed.now }
{
    let parent = placed_at(placed, context.parent);
    Placed {
        region: context.region,
        picked,
        under: pick_of(&parent),
        saves: threaded_saving(context, team) > 0,
    }
}

/// Where each context stands in the plan of these picks.
pub(crate) fn place_all(
    alloc: Global,
    team: &Team,
    contexts: &[Context],
    picks: &[ThreadedPick],
) -> Result<Seq<Placed>, NoMemory>
    requires small { AreSmall contexts.now }
    requires parents { ParentsComeFirst contexts.now }
    ensures { IfOk result (λ placed. (plan : Choice) → picks.now ≡ picks_from team.now 0 plan contexts.now → ArePlaced team.now contexts.now plan placed) }
{
    let mut placed = Seq::new(alloc);
    let mut left = picks;
    let mut rest = contexts;
    while let Some((context, later)) = rest.split_first() {
        let picked = is_first(left, placed.len());
        let found = placed_by(placed.as_slice(), team, picked, context);
        placed.push(found)?;
        left = behind(left, picked);
        rest = later;
    }
    Ok(placed)
}

//! The plan for a team of threads.
ghost use Rattle.std.specs.Prelude.{◌≡◌, ◌≤◌, ◌<◌, ◌^◌, length, map, All, IfOk};
ghost use Rattle.k_selfpar.specs.Contexts.{root_work};
ghost use Rattle.k_plan.specs.Plan.{CanPlan};
ghost use Rattle.k_advise_plan.specs.Plan.{IsGain, TellsPlan};
ghost use Rattle.k_advise_plan.specs.Recast.{without_doall};
ghost use Rattle.k_advise_plan.specs.Saving.{carried_in};

use crate::recast::recast_all;
use crate::team::Team;
use k_num::{NoMemory, Seq};
use k_plan::{Limits, Pick, plan};
use k_selfpar::{Context, ContextList, Frac, root_work};
use std::alloc::Global;

/// A loop of a plan for a team.
#[derive(Clone, Copy, Debug, PartialEq, Eq)]
pub struct ThreadedPick {
    /// The number of its context.
    pub context: u32,
    /// What it saves, in the units of work.
    pub saves: u64,
}

/// A plan for a team: its loops in order of context, and what they save together.
#[derive(Debug, PartialEq, Eq, Drop)]
pub struct ThreadedPlan {
    pub picks: Seq<ThreadedPick>,
    pub total: u64,
}

impl ThreadedPlan {
    /// How many times faster a run of so much work is with the plan, as an exact fraction; 1/1 where the run has no work.
    pub fn gain(&self, run_work: u64) -> Frac
        requires work { run_work < 2 ^ 62 }
        requires saved { self.now.total ≤ run_work }
        ensures { IsGain run_work self.now.total result }
    {
        Frac::ratio(run_work, run_work - self.total)
    }
}

/// These picks, without whether their turns look independent.
fn told(alloc: Global, picks: &[Pick]) -> Result<Seq<ThreadedPick>, NoMemory>
    ensures { IfOk result (λ told. told ≡ map without_doall picks.now) }
{
    let mut told = Seq::new(alloc);
    let mut rest = picks;
    while let Some((pick, later)) = rest.split_first() {
        told.push(ThreadedPick {
            context: pick.context,
            saves: pick.saves,
        })?;
        rest = later;
    }
    Ok(told)
}

/// The plan for a team: loops that pass, none of which is above another, that save the most together. Where a loop saves as much as
/// the best choice below it, the loop is taken. `carries` tells of each region whether it is a loop that carried a pair in the run.
pub fn threaded_plan(
    alloc: Global,
    contexts: &ContextList,
    team: &Team,
    carries: &[bool],
) -> Result<ThreadedPlan, NoMemory>
    requires { CanPlan contexts.now }
    ensures plan { IfOk result (TellsPlan team.now (carried_in carries.now) contexts.now) }
    ensures named { IfOk result (λ plan. All (λ pick. pick.context < length contexts.now) plan.picks) }
    ensures at_most_work { IfOk result (λ plan. plan.total ≤ root_work contexts.now) }
{
    let contexts = contexts.as_slice();
    let recasts = recast_all(alloc, contexts, team, carries, root_work(contexts))?;
    let limits = Limits {
        sp: 0,
        doall: 0,
        doacross: 0,
    };
    let advice = plan(alloc, &recasts, &limits)?;
    let picks = told(alloc, advice.picks.as_slice())?;
    Ok(ThreadedPlan {
        picks,
        total: advice.total,
    })
}

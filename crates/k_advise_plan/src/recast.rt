//! Contexts that save by their self-parallelism alone what others save with a team: `k_plan` is asked of these.
ghost use Rattle.std.specs.Prelude.{◌≡◌, ◌≤◌, ◌<◌, ◌^◌, IfOk};
ghost use Rattle.k_optab.specs.Regions.{is_loop as is_loop_kind};
ghost use Rattle.k_advise_plan.specs.Saving.{carried_in, passes, threaded_saving};
ghost use Rattle.k_advise_plan.specs.Recast.{AreRecast, AreSmall, IsRecast};

use crate::saving::{passes, threaded_saving};
use crate::team::Team;
use k_num::{NoMemory, Seq};
use k_optab::RegionKind;
use k_selfpar::{Context, Frac};
use std::alloc::Global;

/// A kind that is that of a loop, or not.
fn kind_of(is_loop: bool) -> RegionKind
    ensures { is_loop_kind result ≡ is_loop }
{
    if is_loop {
        RegionKind::Loop
    } else {
        RegionKind::Body
    }
}

/// A context that saves so much by its self-parallelism alone, and is a loop or none.
fn recast(context: &Context, is_loop: bool, saves: u64) -> Context
    requires work { context.now.work < 2 ^ 50 }
    requires bound { saves ≤ context.now.work }
    requires less { 0 < context.now.work → saves < context.now.work }
    ensures { IsRecast is_loop saves context.now result }
{
    Context {
        parent: context.parent,
        region: context.region,
        kind: kind_of(is_loop),
        instances: context.instances,
        turns: context.turns,
        work: context.work,
        path: context.path,
        sp: Frac::ratio(context.work, context.work - saves),
    }
}

/// These contexts, each as one that saves by its self-parallelism alone what it saves with a team, and is a loop where it passes.
pub(crate) fn recast_all(
    alloc: Global,
    contexts: &[Context],
    team: &Team,
    carries: &[bool],
    run_work: u64,
) -> Result<Seq<Context>, NoMemory>
    requires { AreSmall contexts.now }
    ensures { IfOk result (AreRecast team.now (carried_in carries.now) run_work contexts.now) }
{
    let mut recasts = Seq::new(alloc);
    let mut rest = contexts;
    while let Some((context, later)) = rest.split_first() {
        let is_loop = passes(context, team, carries, run_work);
        let saves = threaded_saving(context, team);
        recasts.push(recast(context, is_loop, saves))?;
        rest = later;
    }
    Ok(recasts)
}

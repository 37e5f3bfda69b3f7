//! Contexts that are made of what rows tell of loops.
ghost use Rattle.std.specs.Prelude.{◌≡◌, ◌+◌, ◌<◌, ◌^◌, IfOk};
ghost use Rattle.k_plan.specs.Plan.{CanPlan};

use k_num::{NoMemory, Seq};
use k_optab::RegionKind;
use k_selfpar::{Context, ContextList, Frac};
use std::alloc::Global;

/// What is told of a region: how many instances it has, their work but for that of the loops below, and their self-parallelism.
#[derive(Clone, Copy)]
pub struct Told(pub u32, pub u32, pub (u32, u32));

/// A run that makes one loop, and behind it an outer one around a middle one around an inner one.
#[derive(Clone, Copy)]
pub struct Nest {
    pub run: Told,
    pub first: Told,
    pub outer: Told,
    pub middle: Told,
    pub inner: Told,
}

/// The work of loops below, and the rest.
fn with_own(below: u64, own: u32) -> u64
    requires { below < 2 ^ 40 }
    ensures value { result ≡ below + own }
    ensures bound { result < below + 2 ^ 32 }
{
    below + u64::from(own)
}

/// The context of a region.
fn context(parent: u32, region: u32, kind: RegionKind, told: Told, work: u64) -> Context
    ensures parent { result.parent ≡ parent }
    ensures work { result.work ≡ work }
{
    let Told(instances, _, (num, den)) = told;
    Context {
        parent,
        region,
        kind,
        instances: u64::from(instances),
        turns: 0,
        work,
        path: 0,
        sp: Frac::ratio(u64::from(num), u64::from(den)),
    }
}

/// The contexts of a run: 0 is the run, 1 the first loop, 2, 3 and 4 are the outer, the middle and the inner one.
pub fn contexts_of(alloc: Global, nest: &Nest) -> Result<ContextList, NoMemory>
    ensures { IfOk result CanPlan }
{
    let inner_work = with_own(0, nest.inner.1);
    let middle_work = with_own(inner_work, nest.middle.1);
    let outer_work = with_own(middle_work, nest.outer.1);
    let first_work = with_own(0, nest.first.1);
    let loops_work = with_own(outer_work, nest.first.1);
    let run_work = with_own(loops_work, nest.run.1);
    let mut contexts = Seq::new(alloc);
    contexts.push(context(0, 0, RegionKind::Func, nest.run, run_work))?;
    contexts.push(context(0, 1, RegionKind::Loop, nest.first, first_work))?;
    contexts.push(context(0, 2, RegionKind::Loop, nest.outer, outer_work))?;
    contexts.push(context(2, 3, RegionKind::Loop, nest.middle, middle_work))?;
    contexts.push(context(3, 4, RegionKind::Loop, nest.inner, inner_work))?;
    Ok(contexts)
}

//! The plan: one pass from the last context to the first finds the best totals below each, and one back marks the picks.
ghost use Rattle.std.specs.Prelude.{◌≡◌, ◌+◌, ◌≤◌, ◌<◌, ◌^◌, length, replicate, All, OnOk, IfOk};
ghost use Rattle.k_plan.specs.Best.{AreBest, CanSum, best, best_choice, is_free, takes, with_pick};
ghost use Rattle.k_selfpar.specs.Contexts.{root_work};
ghost use Rattle.k_plan.specs.Plan.{CanPlan, IsAdvice, behind_root, picks_from};

use crate::advice::{Advice, Pick};
use crate::limits::Limits;
use crate::saving::{is_doall, passes, saving};
use k_num::{NoMemory, Seq};
use k_selfpar::{Context, ContextList};
use std::alloc::Global;

/// The best total of the choices at a context and below it, where `below` is that of the choices below it.
fn best_total(context: &Context, limits: &Limits, run_work: u64, below: u64) -> u64
    requires work { context.now.work < 2 ^ 50 }
    requires run_work { run_work < 2 ^ 50 }
    requires sp { limits.now.sp < 2 ^ 62 }
    ensures { result ≡ best limits.now run_work context.now below }
{
    if passes(context, limits, run_work) {
        saving(context).max(below)
    } else {
        below
    }
}

/// Whether a context is a loop that passes, and no choice below it saves more than it does.
fn takes(context: &Context, limits: &Limits, run_work: u64, below: u64) -> bool
    requires work { context.now.work < 2 ^ 50 }
    requires run_work { run_work < 2 ^ 50 }
    requires sp { limits.now.sp < 2 ^ 62 }
    ensures { result ≡ takes limits.now run_work context.now below }
{
    passes(context, limits, run_work) && below <= saving(context)
}

/// Adds the best total of each context but the root to its parent's, from the last context to the first.
fn add_best(below: &mut [u64], inner: &[Context], limits: &Limits, run_work: u64)
    requires zero { below.old ≡ replicate (length inner.now + 1) 0 }
    requires sum { CanSum limits.now run_work inner.now }
    ensures { AreBest limits.now run_work inner.now below.new }
{
    let mut rest = inner;
    while let Some((context, before)) = rest.split_last() {
        let number = before.len() + 1;
        let total = best_total(context, limits, run_work, below[number]);
        let sum = &mut below[context.parent as usize];
        *sum += total;
        rest = before;
    }
}

/// The best totals of the choices below each context, where `inner` are the contexts behind the root.
fn best_below(
    alloc: Global,
    inner: &[Context],
    limits: &Limits,
    run_work: u64,
) -> Result<Vec<u64>, NoMemory>
    requires { CanSum limits.now run_work inner.now }
    ensures { IfOk result (λ below. AreBest limits.now run_work inner.now below.items) }
{
    let mut below: Vec<u64> = vec![in alloc; 0; inner.len() + 1]?;
    add_best(below.as_mut_slice(), inner, limits, run_work);
    Ok(below)
}

/// Whether no context above one with this parent is taken, where `free` tells it of each context before with those above it.
fn is_free(free: &[bool], parent: u32) -> bool
    requires { 0 < length free.now → parent < length free.now }
    ensures { result ≡ is_free free.now parent }
{
    match free.first() {
        None => true,
        Some(_) => free[parent as usize],
    }
}

/// Adds the pick of a context, where it is picked.
fn add_pick(
    picks: &mut Seq<Pick>,
    picked: bool,
    number: u32,
    context: &Context,
) -> Result<(), NoMemory>
    requires { context.now.work < 2 ^ 50 }
    ensures { OnOk result (picks.new ≡ with_pick picked number context.now picks.old) }
{
    if !picked {
        return Ok(());
    }
    picks.push(Pick {
        context: number,
        doall: is_doall(context),
        saves: saving(context),
    })
}

/// The picks: the contexts that are taken and have none above them that is.
fn choose(
    alloc: Global,
    contexts: &[Context],
    limits: &Limits,
    run_work: u64,
    below: &[u64],
) -> Result<Seq<Pick>, NoMemory>
    requires plan { CanPlan contexts.now }
    requires sp { limits.now.sp < 2 ^ 62 }
    requires root { run_work ≡ root_work contexts.now }
    requires below { AreBest limits.now run_work (behind_root contexts.now) below.now }
    ensures { IfOk result (λ picks. picks ≡ picks_from 0 (best_choice limits.now contexts.now) contexts.now) }
{
    let mut free: Vec<bool> = Vec::new(alloc);
    let mut picks = Seq::new(alloc);
    let mut rest = contexts;
    while let Some((context, later)) = rest.split_first() {
        let number = free.len();
        let above_free = is_free(free.as_slice(), context.parent);
        let best = takes(context, limits, run_work, below[number]);
        add_pick(&mut picks, best & above_free, number as u32, context)?;
        free.push(above_free & !best)?;
        rest = later;
    }
    Ok(picks)
}

/// The plan: loops none of which is above another, that save the most together. Where a loop saves as much as the best choice
/// below it, the loop is taken. The order of picks is that of the contexts.
pub fn plan(alloc: Global, contexts: &ContextList, limits: &Limits) -> Result<Advice, NoMemory>
    requires contexts { CanPlan contexts.now }
    requires sp { limits.now.sp < 2 ^ 62 }
    ensures plan { IfOk result (IsAdvice limits.now contexts.now) }
    ensures named { IfOk result (λ advice. All (λ pick. pick.context < length contexts.now) advice.picks) }
    ensures at_most_work { IfOk result (λ advice. advice.total ≤ root_work contexts.now) }
{
    let contexts = contexts.as_slice();
    let Some((root, inner)) = contexts.split_first() else {
        return Ok(Advice {
            picks: Seq::new(alloc),
            total: 0,
        });
    };
    let below = best_below(alloc, inner, limits, root.work)?;
    let picks = choose(alloc, contexts, limits, root.work, below.as_slice())?;
    let total = best_total(root, limits, root.work, below[0]);
    Ok(Advice { picks, total })
}

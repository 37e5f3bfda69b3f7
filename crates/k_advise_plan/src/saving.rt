//! What a loop saves with a team of threads, and whether it is worth making parallel for them.
ghost use Rattle.std.specs.Prelude.{◌≡◌, ◌*◌, ◌≤◌, ◌<◌, ◌^◌};
ghost use Rattle.k_advise_plan.specs.Saving.{carried_in, lesser, passes, threaded_saving};

use crate::team::Team;
use k_selfpar::Context;

/// How many times faster a team makes a loop at most: the lesser of its threads and the loop's self-parallelism, as numerator and
/// denominator.
fn lesser(context: &Context, threads: u64) -> (u64, u64)
    ensures value { result ≡ lesser threads context.now.sp }
    ensures divisible { 0 < result.1 }
{
    let num = context.sp.num();
    let den = context.sp.den();
    if u128::from(threads) * u128::from(den) <= u128::from(num) {
        (threads, 1)
    } else {
        (num, den)
    }
}

/// What a loop saves with a team: its work less what one of the threads has of it, rounded up, and less the price of its starts.
pub fn threaded_saving(context: &Context, team: &Team) -> u64
    requires { context.now.work < 2 ^ 50 }
    ensures value { result ≡ threaded_saving team.now context.now }
    ensures bound { result ≤ context.now.work }
    ensures less { 0 < context.now.work → result < context.now.work }
{
    let (num, den) = lesser(context, team.threads);
    if num < den {
        return 0;
    }
    let share = (u128::from(context.work) * u128::from(den)).div_ceil(u128::from(num));
    let price = u128::from(context.instances) * u128::from(team.start);
    let gained = context.work - share as u64;
    if u128::from(gained) <= price {
        0
    } else {
        gained - price as u64
    }
}

/// Whether the loop of a region carries a pair; one of which nothing is told carries none.
fn carries_pair(carries: &[bool], region: u32) -> bool
    ensures { result ≡ carried_in carries.now region }
{
    let number = region as usize;
    number < carries.len() && carries[number]
}

/// Whether a context is a loop that is worth making parallel for a team, in a run of so much work. `carries` tells of each region
/// whether it is a loop that carried a pair in the run.
pub fn passes(context: &Context, team: &Team, carries: &[bool], run_work: u64) -> bool
    requires { context.now.work < 2 ^ 50 }
    ensures { result ≡ passes team.now (carried_in carries.now) run_work context.now }
{
    let saved = threaded_saving(context, team);
    let free = !carries_pair(carries, context.region);
    context.kind.is_loop() && saved > 0 && 1000 * saved >= run_work && free
}

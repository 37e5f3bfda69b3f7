//! What a loop saves, and whether it is worth making parallel.
ghost use Rattle.std.specs.Prelude.{◌≡◌, ◌*◌, ◌≤◌, ◌<◌, ◌^◌, nat_le};
ghost use Rattle.k_plan.specs.Saving.{is_doall, passes, saving, threshold};

use crate::limits::Limits;
use k_selfpar::Context;

/// What a loop saves: its work less its work divided by its self-parallelism, rounded up.
pub(crate) fn saving(context: &Context) -> u64
    requires { context.now.work < 2 ^ 50 }
    ensures value { result ≡ saving context.now }
    ensures bound { result ≤ context.now.work }
{
    let num = context.sp.num();
    let den = context.sp.den();
    if num < den {
        return 0;
    }
    let left = (u128::from(context.work) * u128::from(den)).div_ceil(u128::from(num));
    context.work - left as u64
}

/// A product that needs more than 64 bits.
fn product(part: u64, count: u64) -> u128
    requires { part < 2 ^ 62 }
    ensures value { result ≡ part * count }
    ensures bound { result < 2 ^ 126 }
{
    u128::from(part) * u128::from(count)
}

/// Whether the turns of a loop look independent: its self-parallelism is at least three quarters of its turns for each instance.
pub(crate) fn is_doall(context: &Context) -> bool
    ensures { result ≡ is_doall context.now }
{
    let reached = 4 * product(context.sp.num(), context.instances);
    let wanted = 3 * product(context.sp.den(), context.turns);
    context.turns > 0 && reached >= wanted
}

/// The thousandths of the root's work that a loop has to save.
fn threshold(context: &Context, limits: &Limits) -> u64
    ensures { result ≡ threshold limits.now context.now }
{
    if is_doall(context) {
        limits.doall
    } else {
        limits.doacross
    }
}

/// Whether a context's self-parallelism reaches its limit.
fn is_parallel(context: &Context, limits: &Limits) -> bool
    requires { limits.now.sp < 2 ^ 62 }
    ensures { result ≡ nat_le (limits.now.sp * context.now.sp.1) context.now.sp.0 }
{
    context.sp.at_least(limits.sp)
}

/// Whether a context is a loop that is worth making parallel, in a run of so much work.
pub(crate) fn passes(context: &Context, limits: &Limits, run_work: u64) -> bool
    requires work { context.now.work < 2 ^ 50 }
    requires run_work { run_work < 2 ^ 50 }
    requires sp { limits.now.sp < 2 ^ 62 }
    ensures { result ≡ passes limits.now run_work context.now }
{
    let wanted = product(run_work, threshold(context, limits));
    let saved = 1000 * u128::from(saving(context));
    context.kind.is_loop() && is_parallel(context, limits) && saved >= wanted
}

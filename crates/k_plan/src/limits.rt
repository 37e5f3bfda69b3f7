//! What a loop must reach to be worth making parallel.
ghost use Rattle.std.specs.Prelude.{◌≡◌};
ghost use Rattle.k_plan.specs.Saving.{standard_limits};

/// What a loop must reach to be worth making parallel.
#[derive(Clone, Copy, Debug, PartialEq, Eq)]
pub struct Limits {
    /// The least self-parallelism.
    pub sp: u64,
    /// The least saving of a loop whose turns look independent, in thousandths of the root's work.
    pub doall: u64,
    /// The least saving of any other loop, in thousandths of the root's work.
    pub doacross: u64,
}

/// The standard limits: a self-parallelism of 5, one thousandth of the work for independent turns, and 30 thousandths for others.
pub fn standard_limits() -> Limits
    ensures { result ≡ standard_limits }
{
    Limits {
        sp: 5,
        doall: 1,
        doacross: 30,
    }
}

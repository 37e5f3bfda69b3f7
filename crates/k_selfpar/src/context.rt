//! Contexts: the instances of a run's tree, grouped by their list of regions from the root.
ghost use Rattle.std.specs.Prelude.{◌≡◌};
ghost use Rattle.k_selfpar.specs.Contexts.{root_work};

use crate::Frac;
use k_num::{NoMemory, Seq};
use k_optab::RegionKind;

/// The instances with one list of regions from the root, together.
#[derive(Clone, Copy, Debug, PartialEq, Eq)]
pub struct Context {
    /// The number of the context around it. The root's is its own.
    pub parent: u32,
    /// The number of its region.
    pub region: u32,
    /// What its region is.
    pub kind: RegionKind,
    /// How many instances there are.
    pub instances: u64,
    /// How many turns the instances of a loop took together; 0 for other kinds.
    pub turns: u64,
    /// Their works together.
    pub work: u64,
    /// Their critical paths together.
    pub path: u64,
    /// Their self-parallelism: the time that they would take with their children one behind the other, as a multiple of their paths.
    pub sp: Frac,
}

/// Contexts, each behind the one around it.
pub type ContextList = Seq<Context>;

/// Why contexts are not given.
#[derive(Clone, Copy, Debug, PartialEq, Eq)]
pub enum ContextFault {
    /// There are more than 65,536.
    Wide,
    /// No memory was found.
    Memory,
}

impl From<NoMemory> for ContextFault {
    ghost use Rattle.std.specs.Prelude.{◌≡◌};
    ghost use Rattle.k_selfpar.specs.declared.context.ContextFault.TheVariants.{Memory};

    ghost from_gives = { λ _ fault. fault ≡ Memory };

    fn from(_error: NoMemory) -> ContextFault {
        ContextFault::Memory
    }
}

/// The work of the root, the first of contexts; 0 where there is none.
pub fn root_work(contexts: &[Context]) -> u64
    ensures { result ≡ root_work contexts.now }
{
    match contexts.first() {
        None => 0,
        Some(root) => root.work,
    }
}

//! The sum of one run.
ghost use Rattle.std.specs.Prelude.{◌≡◌, [], ◌∷◌, length, IfOk};
ghost use Rattle.k_dict_saved.specs.Profile.{IsSaved};
ghost use Rattle.k_sum.specs.Sums.{HasBounds};
ghost use Rattle.k_sum.specs.Sums as spec;

use crate::exits::Exit;
use crate::sum::Sum;
use k_dict_entries::Run;
use k_dict_saved::Saved;
use k_num::{NoMemory, Seq};
use std::alloc::Global;

/// One run that ended with a value.
fn one_exit(alloc: Global, value: i32) -> Result<Seq<Exit>, NoMemory>
    ensures { IfOk result (λ exits. exits ≡ record { value = value; runs = 1 } ∷ []) }
{
    let mut exits = Seq::new(alloc);
    exits.push(Exit { value, runs: 1 })?;
    Ok(exits)
}

/// One run whose root has this entry.
fn one_root(alloc: Global, entry: u32) -> Result<Seq<Run>, NoMemory>
    ensures { IfOk result (λ roots. roots ≡ record { entry = entry; count = 1 } ∷ []) }
{
    let mut roots = Seq::new(alloc);
    roots.push(Run { entry, count: 1 })?;
    Ok(roots)
}

/// The sum of a profile's one run.
pub fn sum_of(alloc: Global, saved: Saved) -> Result<Sum, NoMemory>
    requires { IsSaved saved }
    ensures sum { IfOk result (λ sum. sum ≡ spec.sum_of saved) }
    ensures bounds { IfOk result HasBounds }
{
    let root = saved.dict.len() - 1;
    let work = saved.dict.entry(root).work;
    let exits = one_exit(alloc, saved.exit)?;
    let roots = one_root(alloc, root)?;
    let Saved {
        exit: _,
        ops,
        regions,
        dict,
    } = saved;
    Ok(Sum {
        runs: 1,
        exits,
        ops,
        work,
        regions,
        dict,
        roots,
    })
}

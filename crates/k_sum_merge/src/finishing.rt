//! A sum as its file has it.
ghost use Rattle.std.specs.Prelude.{◌<◌, ◌⊎◌, ◌↔◌, IsTrue, IfOk};
ghost use Rattle.k_sum_merge.specs.Merges.{Finishes, IsPast};
ghost use Rattle.k_sum_saved.specs.Merged.{IsMerged};
ghost use Rattle.k_sum_saved.specs.SumLines.{AreOfOneRegion};

use crate::sizes::count_instances;
use k_dict_entries::DictFault;
use k_num::NoMemory;
use k_sum::{Sum, SumFault};
use k_sum_order::in_order;
use k_sum_saved::are_of_one_region;
use std::alloc::Global;

/// The greatest work of all runs together.
const MOST_WORK: u64 = 17_592_186_044_416;

/// The greatest number of instances of all runs together.
const MOST_INSTANCES: u64 = 576_460_752_303_423_488;

/// Whether all roots are of one region.
fn is_of_one(sum: &Sum) -> bool
    requires { IsMerged sum.now }
    ensures { IsTrue result ↔ AreOfOneRegion sum.now.dict sum.now.roots }
{
    are_of_one_region(sum.dict.entries(), sum.roots.as_slice())
}

/// Whether work or instances are more than one file may tell of.
fn are_many(work: u64, instances: u64) -> bool
    ensures { IsTrue result ↔ ((17592186044416 < work) ⊎ (576460752303423488 < instances)) }
{
    work > MOST_WORK || instances > MOST_INSTANCES
}

/// Whether the runs are past the limits of a file.
fn is_past(alloc: Global, sum: &Sum) -> Result<bool, NoMemory>
    requires { IsMerged sum.now }
    ensures { IfOk result (λ past. IsTrue past ↔ IsPast sum.now) }
{
    let instances = count_instances(alloc, sum.dict.entries(), sum.roots.as_slice())?;
    Ok(are_many(sum.work, instances))
}

/// The sum in order, where its roots are of one region and its runs are within the limits of a file.
fn order(alloc: Global, sum: Sum) -> Result<Sum, SumFault>
    requires merged { IsMerged sum }
    requires one { AreOfOneRegion sum.dict sum.roots }
    requires within { ¬ IsPast sum }
    ensures { Finishes sum result }
{
    match in_order(alloc, sum) {
        Ok(ordered) => Ok(ordered),
        Err(fault) => Err(SumFault::Dict(fault)),
    }
}

/// The sum with its entries in order, which can be saved. A refusal tells that its roots are not of one region that is main, that
/// its runs are past the limits of a file, or that no memory was found.
pub fn finish(alloc: Global, sum: Sum) -> Result<Sum, SumFault>
    requires { IsMerged sum }
    ensures { Finishes sum result }
{
    if !is_of_one(&sum) {
        drop(sum);
        return Err(SumFault::Other);
    }
    match is_past(alloc, &sum) {
        Err(NoMemory) => {
            drop(sum);
            Err(SumFault::Dict(DictFault::Memory))
        }
        Ok(true) => {
            drop(sum);
            Err(SumFault::Large)
        }
        Ok(false) => order(alloc, sum),
    }
}

//! Files, put together one after the other.
ghost use Rattle.k_dict_entries.specs.Entries.{AreInterned};
ghost use Rattle.k_sum.specs.Sums.{AddsTo};
ghost use Rattle.k_sum_saved.specs.Merged.{IsMerged};

use k_sum::{Sum, SumFault};
use std::alloc::Global;

/// Puts other runs of the same program to these. A refusal changes nothing.
pub fn merge(alloc: Global, all: &mut Sum, more: &Sum) -> Result<(), SumFault>
    requires all { IsMerged all.old }
    requires more { IsMerged more.now }
    ensures adds { AddsTo all.old more.now result all.new }
    ensures merged { IsMerged all.new }
    ensures interned { AreInterned all.new.dict }
{
    all.add(alloc, more)
}

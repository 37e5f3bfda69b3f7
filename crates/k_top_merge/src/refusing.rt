//! Why files are refused whose runs are to be put together: failures that name a file.
ghost use Rattle.k_top_answers.specs.Failures.{failure_of_finish, failure_of_saved_in, failure_of_sum};
ghost use Rattle.k_top_lemmas.specs.Merges.{IsOrShort};

use k_dict_saved::SavedFault;
use k_num::{NoMemory, Text};
use k_sum::SumFault;
use k_top_answers::Failure;
use std::alloc::Global;

/// Why the file of this name is refused.
pub(crate) fn refused(alloc: Global, name: &str, fault: SavedFault) -> Failure
    ensures { IsOrShort (failure_of_saved_in name.now fault) result }
{
    match Text::copy_of(alloc, name) {
        Ok(name) => Failure::of_saved(name, fault),
        Err(NoMemory) => Failure::NoMemory,
    }
}

/// Why the runs of the file of this name are not put to others.
pub(crate) fn not_added(alloc: Global, name: &str, fault: SumFault) -> Failure
    ensures { IsOrShort (failure_of_sum name.now fault) result }
{
    match Text::copy_of(alloc, name) {
        Ok(name) => Failure::of_sum(name, fault),
        Err(NoMemory) => Failure::NoMemory,
    }
}

/// Why a sum has no file, whose last file has this name.
pub(crate) fn not_finished(alloc: Global, name: &str, fault: SumFault) -> Failure
    ensures { IsOrShort (failure_of_finish name.now fault) result }
{
    match Text::copy_of(alloc, name) {
        Ok(name) => Failure::of_finish(name, fault),
        Err(NoMemory) => Failure::NoMemory,
    }
}

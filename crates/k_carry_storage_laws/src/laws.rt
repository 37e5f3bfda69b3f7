//! What holds of the accesses of accepted programs: each function's contract is a law, and its body does nothing.
ghost use Rattle.k_carry_storage_laws.specs.Laws.{OperationsAreTold, StorageOfPrograms};

/// What is told of the operations of an accepted program's run is told of each of them once and in order, with the sources of its event.
pub fn operations_are_told()
    ensures { OperationsAreTold }
{}

/// The storage pairs of an accepted program's flat code are those of its run, by what the operations of the run do.
pub fn storage_of_programs()
    ensures { StorageOfPrograms }
{}

//! What holds of every world: each function's contract is a law, and its body does nothing.
ghost use Rattle.k_world.specs.WorldLaws.{CallsStay, ControlStays, EqualReadsGoAlike, OperationsTellDeeds, OperationsCount, OperationsStaySound, OriginsStay, TestsControl};

/// Operations on what earlier ones gave have earlier sources, are counted, and take bounded work.
pub fn operations_stay_sound()
    ensures { OperationsStaySound }
{}

/// What an operation changes, and what stays.
pub fn what_stays()
    ensures counted { OperationsCount }
    ensures deeds { OperationsTellDeeds }
    ensures control { ControlStays }
    ensures tests { TestsControl }
    ensures calls { CallsStay }
    ensures origins { OriginsStay }
{}

/// Equal operands give equal results, wherever their values came from and whatever happened before.
pub fn equal_reads()
    ensures { EqualReadsGoAlike }
{}

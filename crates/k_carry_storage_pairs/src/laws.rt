//! What storage pairs are: each function's contract is a law, and its body does nothing.
ghost use Rattle.k_carry_storage_pairs.specs.Laws.{AccessesAreMade, OneAnswer, SomeAnswer, SomeFlags};

/// One list of loops tells of a run, and some flags tell which of its instances were not tracked.
pub fn one_answer()
    ensures one { OneAnswer }
    ensures some { SomeAnswer }
    ensures deep { SomeFlags }
{}

/// A load gives what its element holds, a store sets its element to what it gives, and no other operation changes memory.
pub fn accesses_are_made()
    ensures { AccessesAreMade }
{}

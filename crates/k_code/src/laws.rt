//! What holds of the runs of code: each function's contract is a law, and its body does nothing.
ghost use Rattle.k_code.specs.Budgets.{BudgetCutsShort};
ghost use Rattle.k_code.specs.Endings.{CyclesMakeOperations, EndsOnce, OneOutcome, ValidCodeEnds};
ghost use Rattle.k_code.specs.Examples.{Runs, StaysWithoutMain};
ghost use Rattle.k_code.specs.Examples as run;
ghost use Rattle.k_code.specs.Finds.{InstructionsFind};
ghost use Rattle.k_code.specs.Telling.{TellingChangesNothing};
ghost use Rattle.k_code.specs.Reads.{LevelsAreRegions, SourcesAreRead};
ghost use Rattle.k_code.specs.Stands.{BalancesAreUnique, StaysBalanced};

/// An instruction of valid code finds its registers, its targets, and the functions, regions and objects that it names.
pub fn instructions_find()
    ensures { InstructionsFind }
{}

/// Each cycle of valid code makes an operation, so its run ends, after fewer than 2^59 instructions. A run ends once, with one outcome.
pub fn valid_code_ends()
    ensures cycles { CyclesMakeOperations }
    ensures ends { ValidCodeEnds }
    ensures once { EndsOnce }
    ensures one { OneOutcome }
{}

/// A smaller budget only cuts the run short.
pub fn budget_cuts_short()
    ensures { BudgetCutsShort }
{}

/// A run in which it is told what operations do goes through the configurations of the run.
pub fn telling_changes_nothing()
    ensures { TellingChangesNothing }
{}

/// Before each step of valid code, each live call has open what the balance of its function says, and each function has one balance.
pub fn stays_balanced()
    ensures balanced { StaysBalanced }
    ensures unique { BalancesAreUnique }
{}

/// Reads are counted at the levels of the instances that are open, and at each level an operation reads no fewer times than it has sources.
pub fn reads_are_counted()
    ensures levels { LevelsAreRegions }
    ensures sources { SourcesAreRead }
{}

/// Small codes run as the rules of their instructions say: each with its events, its output and its end.
pub fn small_codes_run()
    ensures operations { Runs run.operations }
    ensures conversion { Runs run.conversion }
    ensures test_true { Runs run.test_true }
    ensures test_false { Runs run.test_false }
    ensures two_turns { Runs run.two_turns }
    ensures save { Runs run.save }
    ensures keep { Runs run.keep }
    ensures back { Runs run.back }
    ensures restore { Runs run.restore }
    ensures regions { Runs run.regions }
    ensures call { Runs run.call }
    ensures call_for_nothing { Runs run.call_for_nothing }
    ensures operand_lacking { Runs run.operand_lacking }
    ensures operand_dropped { Runs run.operand_dropped }
    ensures call_too_large { Runs run.call_too_large }
    ensures call_of_main { Runs run.call_of_main }
    ensures object_filled { Runs run.object_filled }
    ensures element_stored { Runs run.element_stored }
    ensures second_object { Runs run.second_object }
    ensures program_object { Runs run.program_object }
    ensures program_string { Runs run.program_string }
    ensures pointer_moved { Runs run.pointer_moved }
    ensures pointers_compared { Runs run.pointers_compared }
    ensures object_unset { Runs run.object_unset }
    ensures object_closed { Runs run.object_closed }
    ensures newer_closed { Runs run.newer_closed }
    ensures object_of_call { Runs run.object_of_call }
    ensures forgotten { Runs run.forgotten }
    ensures fall_off { Runs run.fall_off }
    ensures bytes { Runs run.bytes }
    ensures format { Runs run.format }
    ensures trapped { Runs run.trapped }
    ensures out_of_steps { Runs run.out_of_steps }
    ensures end_as_int { Runs run.end_as_int }
    ensures end_with_pointer { Runs run.end_with_pointer }
    ensures end_with_nothing { Runs run.end_with_nothing }
    ensures stays_without_main { StaysWithoutMain }
{}

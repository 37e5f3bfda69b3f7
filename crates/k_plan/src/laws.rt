//! What holds of plans: each function's contract is a law, and its body does nothing.
ghost use Rattle.k_plan.specs.Laws.{AdviceAddsUp, AdviceIsUnique, ChoicesSaveAtMostTheWork, PlanExists, PlanIsUnique, RoundsUp};

/// There is exactly one plan.
pub fn one_plan()
    ensures exists { PlanExists }
    ensures unique { PlanIsUnique }
    ensures advice { AdviceIsUnique }
{}

/// What an advice tells as its total is what its picks save together.
pub fn advice_adds_up()
    ensures { AdviceAddsUp }
{}

/// No choice saves more than the root's work.
pub fn saved_work()
    ensures { ChoicesSaveAtMostTheWork }
{}

/// What is left of a loop's work is rounded up.
pub fn rounding()
    ensures { RoundsUp }
{}

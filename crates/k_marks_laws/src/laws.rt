//! What loops mean: each function's contract is a law, and its body does nothing.
ghost use Rattle.k_marks_laws.specs.Closed.{BoundIsSameInSources, ReductionsCombineInSources, TestsAreOnBothInSources, TurnsAreLeastInSources, VariableIsCountedInSources};
ghost use Rattle.k_marks_laws.specs.Counted.{BoundIsSame, CountedIsConverted, VariableIsCounted};
ghost use Rattle.k_marks_laws.specs.Ended.{TestsAreOnBoth, TurnsAreLeast};
ghost use Rattle.k_marks_laws.specs.Frames.{CallsLeave, ExpressionsLeave, StatementsLeave};
ghost use Rattle.k_marks_laws.specs.Laws.{LoopsAreTyped, ReductionsAreTyped};
ghost use Rattle.k_marks_laws.specs.Reduced.{ReductionsCombine};
ghost use Rattle.k_marks_laws.specs.Typing.{AssignmentIsTyped, PostfixIsTyped, PrefixIsTyped, ReductionIsTyped, TestIsTyped};

/// What runs changes no variable of its function but those that its text assigns, reduces or declares. So neither a call
/// nor a pointer reaches another one.
pub fn frames()
    ensures expressions { ExpressionsLeave }
    ensures statements { StatementsLeave }
    ensures calls { CallsLeave }
{}

/// Before the k-th test of a counted loop, from 0, its variable is `x + k * step` as a number of its kind, where it was x, a
/// number of its kind, before the loop; and the bound has the same value before each test. Each test is the comparison of these
/// two, so the number of turns of a loop that ended is the least k for which it is false. This holds of every test that is
/// reached, also where the loop then traps or runs out of steps.
///
/// What typing gives is a premise, `IsTypedLoop`: the kinds in which the step and the test are made, and that the body declares no
/// variable that the test names, since each declarator has a number of its own. `loops` says so of each loop of a
/// source that has a typed tree, and `rules_of_typing` of each of its parts beside the last.
pub fn induction()
    ensures variable { VariableIsCounted }
    ensures converted { CountedIsConverted }
    ensures bound { BoundIsSame }
    ensures test { TestsAreOnBoth }
    ensures turns { TurnsAreLeast }
{}

/// A variable that a loop reduces is behind the loop what it was before, combined modulo 2^n with what the statements in the
/// body contribute in the order in which they run, or in any other: their sum with signs, their product, or their `&`, `|`
/// or `^` bit by bit.
///
/// What typing gives is a premise, `AreTyped`: the kinds in which these statements are made. `loops` says so of each
/// loop of a source that has a typed tree, and `rules_of_typing` of each such statement.
pub fn reduction()
    ensures { ReductionsCombine }
{}

/// The trees that the rules of typing give to steps `i++`, `++i`, `i--`, `--i` and `i += e`, to tests `i op e` and to reductions
/// `s = s op e` are typed as the laws above ask.
pub fn rules_of_typing()
    ensures postfix { PostfixIsTyped }
    ensures prefix { PrefixIsTyped }
    ensures assignment { AssignmentIsTyped }
    ensures test { TestIsTyped }
    ensures reduction { ReductionIsTyped }
{}

/// Each loop of a source, `for`, `while` or `do`, has what the laws above ask of typing: the kinds in which its step, its test and
/// the reductions in its body are made, and, where its step counts, that the body declares no variable that the test names.
pub fn loops()
    ensures counted { LoopsAreTyped }
    ensures reduced { ReductionsAreTyped }
{}

/// In each source that has a typed tree: before the k-th test of a counted loop, from 0, its variable is `x + k * step` as a number
/// of its kind, where it was x before the loop; the bound has the same value before each test; each test is the comparison of these
/// two; and the number of turns of a loop that ended is the least k for which it is false. This holds of every test that is
/// reached, also where the loop then traps or runs out of steps.
pub fn induction_of_sources()
    ensures variable { VariableIsCountedInSources }
    ensures bound { BoundIsSameInSources }
    ensures test { TestsAreOnBothInSources }
    ensures turns { TurnsAreLeastInSources }
{}

/// In each source that has a typed tree: a variable that a loop reduces, `for`, `while` or `do`, is behind the loop what it was
/// before, combined modulo 2^n with what the statements in the body contribute in the order in which they run, or in any other.
pub fn reduction_of_sources()
    ensures { ReductionsCombineInSources }
{}

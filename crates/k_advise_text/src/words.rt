//! Verdicts in a word, and in a sentence.
ghost use Rattle.std.specs.Prelude.{◌≡◌, ◌++◌, OnOk};
ghost use Rattle.k_advise_text.specs.Words as spec;

use k_advise_verdicts::{Condition, Verdict};

/// A verdict in a word.
pub(crate) fn word(verdict: Verdict) -> &'static str
    ensures { result.now ≡ spec.word verdict }
{
    match verdict {
        Verdict::Parallel { .. } => "parallel",
        Verdict::Inside { .. } => "inside",
        Verdict::Chain(_pairs) => "chain",
        Verdict::Shared(_common) => "shared",
        Verdict::Uncounted(_failing) => "uncounted",
        Verdict::Leaves(_place) => "leaves",
        Verdict::Small { .. } => "small",
        Verdict::Serial(_sp) => "serial",
    }
}

/// What a loop of a verdict does.
pub(crate) fn phrase(verdict: Verdict) -> &'static str
    ensures { result.now ≡ spec.phrase verdict }
{
    match verdict {
        Verdict::Parallel { .. } => "can run in parallel",
        Verdict::Inside { .. } => "stands inside a loop that is made parallel",
        Verdict::Chain(_pairs) => "needs in an iteration what an earlier one computed",
        Verdict::Shared(_common) => "has iterations that share memory or a variable",
        Verdict::Uncounted(_failing) => "has iterations that are not counted beforehand",
        Verdict::Leaves(_place) => "may be left before its last iteration",
        Verdict::Small { .. } => "takes less than it costs to begin it in parallel",
        Verdict::Serial(_sp) => "has next to nothing that can be done at once",
    }
}

/// What fails where a loop is not counted.
pub(crate) fn failing(condition: Condition) -> &'static str
    ensures { result.now ≡ spec.failing condition }
{
    match condition {
        Condition::TestedFirst => "it is no for or while",
        Condition::Steps => "it steps no variable",
        Condition::Steered => "its test is not of what stays and what it steps alone",
        Condition::Unbroken => "a break leaves it",
        Condition::Unleft => "a return or exit leaves it",
    }
}

/// Whether a loop is to be made parallel.
pub(crate) fn is_parallel(verdict: Verdict) -> bool
    ensures { result ≡ spec.is_parallel verdict }
{
    match verdict {
        Verdict::Parallel { .. } => true,
        _ => false,
    }
}

/// Whether something stands in the way of a loop.
pub(crate) fn is_held_up(verdict: Verdict) -> bool
    ensures { result ≡ spec.is_held_up verdict }
{
    match verdict {
        Verdict::Parallel { .. } | Verdict::Inside { .. } => false,
        _ => true,
    }
}

//! The verdict on one loop: the first that fits.
ghost use Rattle.std.specs.Prelude.{◌≡◌};
ghost use Rattle.k_advise_verdicts.specs.Verdicts.{first_pairs, first_shared, in_common, may_run, verdict_alone, verdict_of};

use crate::facts::LoopFacts;
use crate::figures::{is_uneven, tenths};
use crate::standing::Standing;
use crate::word::{FirstPairs, FirstShared, InCommon, Verdict};
use k_carry_pairs::Pair;
use k_carry_storage_pairs::Shared;
use k_selfpar::Row;

/// The first three of the pairs that a loop carries.
fn first_pairs(carried: &[Pair]) -> Option<FirstPairs>
    ensures { result ≡ first_pairs carried.now }
{
    match carried.split_first() {
        None => None,
        Some((first, later)) => Some(FirstPairs {
            first: *first,
            second: later.first().copied(),
            third: later.get(1).copied(),
        }),
    }
}

/// The first three of its storage pairs.
fn first_shared(shared: &[Shared]) -> Option<FirstShared>
    ensures { result ≡ first_shared shared.now }
{
    match shared.split_first() {
        None => None,
        Some((first, later)) => Some(FirstShared {
            first: *first,
            second: later.first().copied(),
            third: later.get(1).copied(),
        }),
    }
}

/// Whether a loop may run in parallel: its text may be marked, each instance was looked at, and it has neither carried
/// pairs nor storage pairs.
fn may_run(facts: &LoopFacts, carried: &[Pair], shared: &[Shared]) -> bool
    ensures { result ≡ may_run facts.now carried.now shared.now }
{
    facts.markable && !facts.deep && carried.is_empty() && shared.is_empty()
}

/// What the turns of a loop would share, if they would share something.
fn in_common(facts: &LoopFacts, shared: &[Shared]) -> Option<InCommon>
    ensures { result ≡ in_common facts.now shared.now }
{
    if shared.is_empty() && facts.kept_in_common.is_none() {
        return None;
    }
    Some(InCommon {
        pairs: first_shared(shared),
        own: facts.own,
        variable: facts.kept_in_common,
    })
}

/// The verdict on a loop that is neither parallel nor inside one that is, and shares nothing.
fn verdict_alone(start: u64, row: &Row, facts: &LoopFacts, standing: &Standing) -> Verdict
    ensures { result ≡ verdict_alone start row.now facts.now standing.now }
{
    if let Some(failing) = facts.uncounted {
        return Verdict::Uncounted(failing);
    }
    if let Some(place) = facts.leaves {
        return Verdict::Leaves(place);
    }
    if !standing.saves {
        return Verdict::Small {
            turn: tenths(facts.turns.work, facts.turns.count),
            start,
        };
    }
    Verdict::Serial(row.sp)
}

/// The verdict on a loop, where a start of the team has this price: the first that fits.
pub fn verdict_of(
    start: u64,
    row: &Row,
    facts: &LoopFacts,
    standing: &Standing,
    carried: &[Pair],
    shared: &[Shared],
) -> Verdict
    ensures { result ≡ verdict_of start row.now facts.now standing.now carried.now shared.now }
{
    if standing.picked && may_run(facts, carried, shared) {
        return Verdict::Parallel {
            uneven: is_uneven(&facts.turns),
        };
    }
    if let Some(pick) = standing.inside {
        return Verdict::Inside { pick };
    }
    if let Some(pairs) = first_pairs(carried) {
        return Verdict::Chain(pairs);
    }
    if let Some(common) = in_common(facts, shared) {
        return Verdict::Shared(common);
    }
    verdict_alone(start, row, facts, standing)
}

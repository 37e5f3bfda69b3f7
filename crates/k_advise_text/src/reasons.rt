//! What stands in the way of a loop, with the lines of the source.
ghost use Rattle.std.specs.Prelude.{◌≡◌, ◌++◌, OnOk};
ghost use Rattle.k_advise_text.specs.Reasons as spec;

use crate::numbers::{push_between, push_ratio_between, push_tenths};
use crate::sources::{push_name_at, push_shown_place, push_shown_places};
use crate::words::failing;
use k_advise_verdicts::{Failing, FirstPairs, FirstShared, InCommon, Named, Verdict};
use k_carry_pairs::Pair;
use k_carry_storage_pairs::{Shared, Sharing};
use k_num::{NoMemory, Place};
use k_selfpar::Frac;
use k_text::{push, push_named, push_place};
use std::alloc::Global;

/// Two places, in words.
#[tactic(auto, unfolding(crate::specs::Reasons::from_to))]
fn push_from_to(text: &mut Vec<u8>, from: Place, between: &str, to: Place) -> Result<(), NoMemory>
    ensures { OnOk result (text.new.items ≡ text.old.items ++ spec.from_to from between.now to) }
{
    push_place(text, from)?;
    push(text, between)?;
    push_place(text, to)?;
    push(text, "\n")
}

/// Two places of one name, in words, and their lines.
#[tactic(auto, unfolding(crate::specs::Reasons::told))]
fn push_told(
    alloc: Global,
    text: &mut Vec<u8>,
    source: &[u8],
    before: &str,
    from: Place,
    what: &str,
    between: &str,
    to: Place,
) -> Result<(), NoMemory>
    ensures { OnOk result (text.new.items ≡ text.old.items ++ spec.told source.now before.now from what.now between.now to) }
{
    push_name_at(text, before, source, from)?;
    push(text, what)?;
    push_from_to(text, from, between, to)?;
    push_shown_places(alloc, text, source, from, to)
}

/// A pair that a loop carries.
fn push_pair(alloc: Global, text: &mut Vec<u8>, source: &[u8], pair: Pair) -> Result<(), NoMemory>
    ensures { OnOk result (text.new.items ≡ text.old.items ++ spec.pair_text source.now pair) }
{
    let between = ", needed later at ";
    push_told(
        alloc,
        text,
        source,
        "  ",
        pair.from,
        "computed at ",
        between,
        pair.to,
    )
}

/// A pair that is there.
fn push_further(
    alloc: Global,
    text: &mut Vec<u8>,
    source: &[u8],
    pair: Option<Pair>,
) -> Result<(), NoMemory>
    ensures { OnOk result (text.new.items ≡ text.old.items ++ spec.further_pair source.now pair) }
{
    match pair {
        None => Ok(()),
        Some(pair) => push_pair(alloc, text, source, pair),
    }
}

/// The first pairs that a loop carries.
#[tactic(auto, unfolding(crate::specs::Reasons::pairs_text))]
fn push_pairs(
    alloc: Global,
    text: &mut Vec<u8>,
    source: &[u8],
    pairs: FirstPairs,
) -> Result<(), NoMemory>
    ensures { OnOk result (text.new.items ≡ text.old.items ++ spec.pairs_text source.now pairs) }
{
    push_pair(alloc, text, source, pairs.first)?;
    push_further(alloc, text, source, pairs.second)?;
    push_further(alloc, text, source, pairs.third)
}

/// How iterations share.
fn sharing(kind: Sharing) -> &'static str
    ensures { result.now ≡ spec.sharing kind }
{
    match kind {
        Sharing::Anti => "read at ",
        Sharing::Output => "written at ",
    }
}

/// A storage pair.
fn push_shared(
    alloc: Global,
    text: &mut Vec<u8>,
    source: &[u8],
    shared: Shared,
) -> Result<(), NoMemory>
    ensures { OnOk result (text.new.items ≡ text.old.items ++ spec.shared_text source.now shared) }
{
    let what = sharing(shared.kind);
    let between = ", written later at ";
    push_told(
        alloc,
        text,
        source,
        "  ",
        shared.from,
        what,
        between,
        shared.to,
    )
}

/// A storage pair that is there.
fn push_further_shared(
    alloc: Global,
    text: &mut Vec<u8>,
    source: &[u8],
    shared: Option<Shared>,
) -> Result<(), NoMemory>
    ensures { OnOk result (text.new.items ≡ text.old.items ++ spec.further_shared source.now shared) }
{
    match shared {
        None => Ok(()),
        Some(shared) => push_shared(alloc, text, source, shared),
    }
}

/// The first storage pairs, if there are any.
fn push_storage(
    alloc: Global,
    text: &mut Vec<u8>,
    source: &[u8],
    pairs: Option<FirstShared>,
) -> Result<(), NoMemory>
    ensures { OnOk result (text.new.items ≡ text.old.items ++ spec.storage_text source.now pairs) }
{
    let Some(pairs) = pairs else {
        return Ok(());
    };
    push_shared(alloc, text, source, pairs.first)?;
    push_further_shared(alloc, text, source, pairs.second)?;
    push_further_shared(alloc, text, source, pairs.third)
}

/// That a variable keeps its value, if it is one.
fn push_kept(text: &mut Vec<u8>, variable: Option<u32>, name: &str) -> Result<(), NoMemory>
    ensures { OnOk result (text.new.items ≡ text.old.items ++ spec.kept variable name.now) }
{
    match variable {
        None => Ok(()),
        Some(_variable) => {
            push_between(
                text,
                "  ",
                name,
                " keeps its value from one iteration to the next\n",
            )
        }
    }
}

/// What to do about an array of which each thread could have its own, or that a variable keeps its value.
fn push_cure(
    text: &mut Vec<u8>,
    own: Option<Named>,
    variable: Option<u32>,
    name: &str,
) -> Result<(), NoMemory>
    ensures { OnOk result (text.new.items ≡ text.old.items ++ spec.cure own variable name.now) }
{
    match own {
        None => push_kept(text, variable, name),
        Some(_array) => { push_between(text, "  give each thread its own ", name, "\n") }
    }
}

/// What iterations share.
fn push_common(
    alloc: Global,
    text: &mut Vec<u8>,
    source: &[u8],
    common: InCommon,
    name: &str,
) -> Result<(), NoMemory>
    ensures { OnOk result (text.new.items ≡ text.old.items ++ spec.common_text source.now common name.now) }
{
    push_storage(alloc, text, source, common.pairs)?;
    push_cure(text, common.own, common.variable, name)
}

/// A sentence about a place, and its line.
#[tactic(auto, unfolding(crate::specs::Reasons::about))]
fn push_about(
    alloc: Global,
    text: &mut Vec<u8>,
    source: &[u8],
    what: &str,
    place: Place,
) -> Result<(), NoMemory>
    ensures { OnOk result (text.new.items ≡ text.old.items ++ spec.about source.now what.now place) }
{
    push(text, "  ")?;
    push(text, what)?;
    push(text, ", at ")?;
    push_place(text, place)?;
    push(text, "\n")?;
    push_shown_place(alloc, text, source, place)
}

/// Why a loop is not counted.
fn push_uncounted(
    alloc: Global,
    text: &mut Vec<u8>,
    source: &[u8],
    why: Failing,
) -> Result<(), NoMemory>
    ensures { OnOk result (text.new.items ≡ text.old.items ++ spec.uncounted source.now why) }
{
    push_about(alloc, text, source, failing(why.condition), why.place)
}

/// What an iteration takes, in tenths, and what a start takes.
#[tactic(auto, unfolding(crate::specs::Reasons::small))]
fn push_small(text: &mut Vec<u8>, turn: u128, start: u64) -> Result<(), NoMemory>
    ensures { OnOk result (text.new.items ≡ text.old.items ++ spec.small turn start) }
{
    push(text, "  an iteration takes ")?;
    push_tenths(text, turn)?;
    push_named(text, ", to begin in parallel takes ", start)?;
    push(text, "\n")
}

/// How little of a loop can be done at once.
#[tactic(auto, unfolding(crate::specs::Reasons::serial))]
fn push_serial(text: &mut Vec<u8>, sp: Frac) -> Result<(), NoMemory>
    ensures { OnOk result (text.new.items ≡ text.old.items ++ spec.serial sp) }
{
    push_ratio_between(text, "  its self-parallelism is ", sp, "\n")
}

/// What stands in the way of a loop, if something does.
pub(crate) fn push_reason(
    alloc: Global,
    text: &mut Vec<u8>,
    source: &[u8],
    verdict: Verdict,
    name: &str,
) -> Result<(), NoMemory>
    ensures { OnOk result (text.new.items ≡ text.old.items ++ spec.reason source.now verdict name.now) }
{
    match verdict {
        Verdict::Parallel { .. } | Verdict::Inside { .. } => Ok(()),
        Verdict::Chain(pairs) => push_pairs(alloc, text, source, pairs),
        Verdict::Shared(common) => push_common(alloc, text, source, common, name),
        Verdict::Uncounted(why) => push_uncounted(alloc, text, source, why),
        Verdict::Leaves(place) => push_about(alloc, text, source, "it is left", place),
        Verdict::Small { turn, start } => push_small(text, turn, start),
        Verdict::Serial(sp) => push_serial(text, sp),
    }
}

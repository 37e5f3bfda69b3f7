//! Verdicts on loops, and numbers that a table tells of them.

use k_advise_verdicts::{
    Condition, Failing, FirstPairs, FirstShared, InCommon, LoopFacts, Named, Standing, Turns,
    Verdict, is_uneven, share, tenths, verdict_of, verdicts,
};
use k_carry_pairs::Pair;
use k_carry_storage_pairs::{Shared, Sharing};
use k_num::Place;
use k_selfpar::{Frac, Row};
use std::process::Abort;
use std::test::Fail;

const HERE: Place = Place { line: 3, column: 5 };

const THERE: Place = Place { line: 4, column: 9 };

const PAIR: Pair = Pair {
    from: HERE,
    to: THERE,
};

const OTHER: Pair = Pair {
    from: THERE,
    to: HERE,
};

const SHARED: Shared = Shared {
    kind: Sharing::Output,
    from: HERE,
    to: HERE,
};

/// A loop of which nothing stands in the way.
const FREE: LoopFacts = LoopFacts {
    region: 1,
    markable: true,
    deep: false,
    uncounted: None,
    leaves: None,
    kept_in_common: None,
    own: None,
    turns: Turns {
        count: 4,
        work: 11,
        greatest: 6,
    },
};

const PICKED: Standing = Standing {
    picked: true,
    inside: None,
    saves: true,
};

const NOT_PICKED: Standing = Standing {
    picked: false,
    inside: None,
    saves: true,
};

/// The row of a loop with a self-parallelism of 3/2.
fn row() -> Row {
    Row {
        region: 1,
        instances: 1,
        work: 12,
        path: 8,
        sp: Frac::ratio(3, 2),
    }
}

/// The verdict on such a loop, where a start costs 5.
fn verdict(facts: &LoopFacts, standing: &Standing, carried: &[Pair], shared: &[Shared]) -> Verdict {
    verdict_of(5, &row(), facts, standing, carried, shared)
}

#[test]
fn numbers_of_a_table(rt: HostRuntime) -> Result<(), Fail> {
    assert_eq!(rt; share(1, 3), 333);
    assert_eq!(rt; share(2, 3), 667);
    assert_eq!(rt; share(1, 2_000), 1);
    assert_eq!(rt; share(0, 0), 0);
    assert_eq!(rt; tenths(7, 2), 35);
    assert_eq!(rt; tenths(1, 20), 1);
    assert_eq!(rt; tenths(1, 21), 0);
    assert!(rt; is_uneven(&FREE.turns));
    let even = Turns {
        count: 4,
        work: 12,
        greatest: 6,
    };
    assert!(rt; !is_uneven(&even));
    Ok(())
}

#[test]
fn words_of_the_plan(rt: HostRuntime) -> Result<(), Fail> {
    let parallel = verdict(&FREE, &PICKED, &[], &[]);
    assert!(rt; parallel == Verdict::Parallel { uneven: true });
    let within = Standing {
        inside: Some(7),
        ..NOT_PICKED
    };
    let inside = verdict(&FREE, &within, &[PAIR], &[]);
    assert!(rt; inside == Verdict::Inside { pick: 7 });
    let none_saved = Standing {
        saves: false,
        ..NOT_PICKED
    };
    let small = verdict(&FREE, &none_saved, &[], &[]);
    assert!(rt; small == Verdict::Small { turn: 28, start: 5 });
    let serial = verdict(&FREE, &NOT_PICKED, &[], &[]);
    assert!(rt; serial == Verdict::Serial(Frac::ratio(6, 4)));
    Ok(())
}

#[test]
fn words_of_what_stands_in_the_way(rt: HostRuntime) -> Result<(), Fail> {
    let chain = verdict(&FREE, &PICKED, &[PAIR, OTHER], &[SHARED]);
    let pairs = FirstPairs {
        first: PAIR,
        second: Some(OTHER),
        third: None,
    };
    assert!(rt; chain == Verdict::Chain(pairs));
    let own = LoopFacts {
        own: Some(Named::Global(2)),
        ..FREE
    };
    let shared = verdict(&own, &PICKED, &[], &[SHARED]);
    let common = InCommon {
        pairs: Some(FirstShared {
            first: SHARED,
            second: None,
            third: None,
        }),
        own: Some(Named::Global(2)),
        variable: None,
    };
    assert!(rt; shared == Verdict::Shared(common));
    let failing = Failing {
        condition: Condition::Steps,
        place: HERE,
    };
    let not_counted = LoopFacts {
        uncounted: Some(failing),
        leaves: Some(THERE),
        ..FREE
    };
    let uncounted = verdict(&not_counted, &NOT_PICKED, &[], &[]);
    assert!(rt; uncounted == Verdict::Uncounted(failing));
    Ok(())
}

#[test]
fn verdicts_where_memory_is_there(rt: HostRuntime) -> Result<(), Fail> {
    let standings = [NOT_PICKED, PICKED];
    let found = verdicts(rt.alloc(), 5, &[row()], &[FREE], &standings, &[], &[])?;
    assert_eq!(rt; found.len(), 1);
    for told in found.as_slice().iter() {
        assert!(rt; told.verdict == Verdict::Parallel { uneven: true });
    }
    Ok(())
}

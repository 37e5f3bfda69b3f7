//! Savings, plans and gains of two programs.
ghost use Rattle.k_plan.specs.Plan.{CanPlan};

use super::nest::{Nest, Told, contexts_of};
use k_advise_plan::{Team, ThreadedPick, threaded_plan, threaded_saving};
use k_num::NoMemory;
use k_selfpar::{ContextList, root_work};
use std::alloc::Global;
use std::process::Abort;
use std::test::Fail;

/// The product of two matrices of 32 by 32: the loop that fills them, and the three loops of the product.
const PRODUCT: Nest = Nest {
    run: Told(1, 16, (32, 27)),
    first: Told(1, 11_426, (97, 2)),
    outer: Told(1, 98, (241, 6)),
    middle: Told(32, 6_208, (241, 6)),
    inner: Told(1024, 624_640, (38, 1)),
};

/// Shortest ways between 24 nodes (Floyd and Warshall), where a turn of the innermost loop takes 20 units and each turn around it 2
/// more: the loop that fills the table, the one over nodes on the way, which carries, the one over rows, and the one over columns.
const WAYS: Nest = Nest {
    run: Told(1, 40, (24, 23)),
    first: Told(1, 2_880, (24, 1)),
    outer: Told(1, 48, (1, 1)),
    middle: Told(24, 1_152, (24, 1)),
    inner: Told(576, 276_480, (24, 1)),
};

/// A number of threads, a start price, and what the four loops save.
type Savings = (u64, u64, [u64; 4]);

static OF_PRODUCT: [Savings; 6] = [
    (1, 5_000, [0, 0, 0, 0]),
    (2, 5_000, [713, 310_473, 155_424, 0]),
    (4, 5_000, [3_569, 468_209, 313_136, 0]),
    (8, 5_000, [4_997, 547_077, 391_992, 0]),
    (16, 5_000, [5_711, 586_511, 431_420, 0]),
    // more threads than self-parallelism, and free starts
    (1_024, 0, [11_190, 615_237, 615_142, 608_202]),
];

static OF_WAYS: [Savings; 4] = [
    (8, 0, [2_520, 0, 242_928, 241_920]),
    (8, 1, [2_519, 0, 242_904, 241_344]),
    (8, 400, [2_120, 0, 233_328, 11_520]),
    (8, 500, [2_020, 0, 230_928, 0]),
];

/// A number of threads, a start price, what the two picks save, and the gain.
type Plan = (u64, u64, [u64; 2], (u64, u64));

static PRODUCT_PLANS: [Plan; 4] = [
    (2, 5_000, [713, 310_473], (321_194, 165_601)),
    (4, 5_000, [3_569, 468_209], (321_194, 85_305)),
    (8, 5_000, [4_997, 547_077], (321_194, 45_157)),
    (16, 5_000, [5_711, 586_511], (321_194, 25_083)),
];

static WAYS_PLANS: [Plan; 7] = [
    (8, 0, [2_520, 242_928], (35_075, 4_394)),
    (8, 1, [2_519, 242_904], (280_600, 35_177)),
    (8, 400, [2_120, 233_328], (35_075, 5_644)),
    (2, 500, [940, 126_816], (70_150, 38_211)),
    (4, 500, [1_660, 196_224], (1_150, 339)),
    (8, 500, [2_020, 230_928], (70_150, 11_913)),
    (16, 500, [2_200, 248_280], (7_015, 753)),
];

/// The four loops behind the run save so much.
fn expect_savings(rt: &impl Abort, contexts: &ContextList, wanted: &Savings) {
    let (threads, start, saves) = *wanted;
    let team = Team { threads, start };
    let mut rest = contexts.as_slice();
    for want in [0, saves[0], saves[1], saves[2], saves[3]] {
        let Some((context, later)) = rest.split_first() else {
            return;
        };
        if context.parent != context.region {
            assert!(rt; context.work < (1 << 50));
            assert_eq!(rt; threaded_saving(context, &team), want);
        }
        rest = later;
    }
    assert!(rt; rest.is_empty());
}

/// The plan's picks are the first loop and that of this context, and with them a run is so many times faster.
fn expect_plan(
    rt: &impl Abort,
    alloc: Global,
    contexts: &ContextList,
    carries: &[bool],
    second: u32,
    wanted: &Plan,
) -> Result<(), NoMemory>
    requires { CanPlan contexts.now }
{
    let (threads, start, saves, (num, den)) = *wanted;
    let plan = threaded_plan(alloc, contexts, &Team { threads, start }, carries)?;
    let picks = [
        ThreadedPick {
            context: 1,
            saves: saves[0],
        },
        ThreadedPick {
            context: second,
            saves: saves[1],
        },
    ];
    assert!(rt; plan.picks.as_slice() == picks.as_slice());
    let run_work = root_work(contexts.as_slice());
    assert!(rt; run_work < (1 << 50) && plan.total <= run_work);
    let gain = plan.gain(run_work);
    assert_eq!(rt; gain.num(), num);
    assert_eq!(rt; gain.den(), den);
    Ok(())
}

#[test]
fn product_of_matrices(rt: HostRuntime) -> Result<(), Fail> {
    let contexts = contexts_of(rt.alloc(), &PRODUCT)?;
    for wanted in OF_PRODUCT.iter() {
        expect_savings(&rt, &contexts, wanted);
    }
    for wanted in PRODUCT_PLANS.iter() {
        expect_plan(&rt, rt.alloc(), &contexts, &[], 2, wanted)?;
    }
    Ok(())
}

#[test]
fn shortest_ways(rt: HostRuntime) -> Result<(), Fail> {
    let contexts = contexts_of(rt.alloc(), &WAYS)?;
    for wanted in OF_WAYS.iter() {
        expect_savings(&rt, &contexts, wanted);
    }
    let carries = [false, false, true];
    for wanted in WAYS_PLANS.iter() {
        expect_plan(&rt, rt.alloc(), &contexts, &carries, 3, wanted)?;
    }
    Ok(())
}

//! The profile and the report of a run.
ghost use Rattle.std.specs.Prelude.{◌≡◌, ◌≤◌, ◌<◌, ◌^◌, IfOk, length, map, None, Some};
ghost use Rattle.std.specs.Option.{ForSome};
ghost use Rattle.k_optab.specs.Events.{SourcesAreEarlier, operations, total_latency};
ghost use Rattle.k_optab.specs.Tree.{IsTree};
ghost use Rattle.k_graph.specs.Listings.{node_of};
ghost use Rattle.k_report.specs.Report.{large_text};
ghost use Rattle.k_dict_saved.specs.Profile.{IsSaved};
ghost use Rattle.k_report_profile.specs.Report.{IsReport};
ghost use Rattle.k_report_profile.specs.RunReport.{IsRunReport, IsWhole, Ran};
ghost use Rattle.k_report_profile.specs.Summed.{IsSummed};

use crate::report::report_of;
use k_dict_entries::{Dict, DictFault, gather};
use k_dict_saved::Saved;
use k_graph::{Instance, instances};
use k_num::{NoMemory, Seq};
use k_optab::{Event, Node, Region, count_operations};
use k_report::report_large;
use std::alloc::Global;

/// The greatest number of instances in a profile, 2^59. No memory holds a list of more.
const MOST_INSTANCES: usize = 576_460_752_303_423_488;

/// What a run leaves from which main returned.
#[derive(Drop)]
pub struct Profiled {
    /// The profile of the run, which can be saved. There is none where its dictionary is over its limits.
    pub saved: Option<Saved>,
    /// The report, which goes behind the program's output.
    pub report: Vec<u8>,
}

/// What the tree says of instances.
fn nodes_of(alloc: Global, instances: &[Instance]) -> Result<Seq<Node>, NoMemory>
    ensures { IfOk result (λ nodes. nodes ≡ map node_of instances.now) }
{
    let mut nodes = Seq::new(alloc);
    for instance in instances {
        nodes.push(Node {
            region: instance.region,
            work: instance.work,
            path: instance.path,
            depth: instance.depth,
        })?;
    }
    Ok(nodes)
}

/// The tree of a run.
fn tree_of(alloc: Global, events: &Seq<Event>, depth: u32) -> Result<Seq<Node>, NoMemory>
    requires sources { SourcesAreEarlier (operations events.now) }
    requires latencies { total_latency (operations events.now) < 2 ^ 62 }
    ensures { IfOk result (λ nodes. IsTree depth events.now nodes) }
{
    let tree = instances(alloc, events, depth)?;
    nodes_of(alloc, tree.as_slice())
}

/// A profile, and its report.
fn with_profile(alloc: Global, saved: Saved, with_dict: bool) -> Result<Profiled, NoMemory>
    requires { IsSaved saved }
    ensures saved { IfOk result (λ profiled. profiled.saved ≡ Some saved) }
    ensures report { IfOk result (λ profiled. IsReport saved with_dict profiled.report.items) }
{
    let report = report_of(alloc, &saved, with_dict)?;
    Ok(Profiled {
        saved: Some(saved),
        report,
    })
}

/// The report of a run whose dictionary is over its limits.
fn without_profile(alloc: Global, exit: i32, ops: u64) -> Result<Profiled, NoMemory>
    ensures saved { IfOk result (λ profiled. profiled.saved ≡ None) }
    ensures report { IfOk result (λ profiled. profiled.report.items ≡ large_text exit ops) }
{
    let report = report_large(alloc, exit, ops)?;
    Ok(Profiled {
        saved: None,
        report,
    })
}

/// The profile and the report of a run from which main returned, with instances below this depth. The report has the lines of the
/// dictionary where they are asked for. Where the dictionary is over its limits, there is no profile, and the report says so.
pub fn run_report(
    alloc: Global,
    exit: i32,
    events: &Seq<Event>,
    regions: Seq<Region>,
    depth: u32,
    with_dict: bool,
) -> Result<Profiled, NoMemory>
    requires { IsWhole (record { exit = exit; events = events.now; regions = regions; depth = depth }) }
    ensures report { IfOk result (λ profiled.
        IsRunReport (record { exit = exit; events = events.now; regions = regions; depth = depth }) with_dict profiled.saved profiled.report.items) }
    ensures saved { IfOk result (λ profiled. ForSome profiled.saved IsSaved) }
{
    let nodes = tree_of(alloc, events, depth)?;
    if nodes.len() > MOST_INSTANCES {
        return Err(NoMemory);
    }
    let ops = count_operations(events.as_slice());
    match gather(alloc, &nodes) {
        Ok(dict) => {
            let saved = Saved {
                exit,
                ops,
                regions,
                dict,
            };
            with_profile(alloc, saved, with_dict)
        }
        Err(DictFault::Full(_)) => without_profile(alloc, exit, ops),
        Err(DictFault::Memory) => Err(NoMemory),
    }
}

/// The profile and the report of a run from which main returned, by what main returned, how many operations were made, the regions, and the
/// dictionary of the tree, if it is within its limits. The report has the lines of the dictionary where they are asked for.
pub fn summary_report(
    alloc: Global,
    exit: i32,
    ops: u64,
    regions: Seq<Region>,
    dict: Option<Dict>,
    with_dict: bool,
) -> Result<Profiled, NoMemory>
    requires { (ran : Ran) × IsSummed exit ops regions dict ran }
    ensures report { IfOk result (λ profiled. (ran : Ran) → IsSummed exit ops regions dict ran → IsRunReport ran with_dict profiled.saved profiled.report.items) }
    ensures saved { IfOk result (λ profiled. ForSome profiled.saved IsSaved) }
{
    match dict {
        Some(dict) => {
            let saved = Saved {
                exit,
                ops,
                regions,
                dict,
            };
            with_profile(alloc, saved, with_dict)
        }
        None => without_profile(alloc, exit, ops),
    }
}

//! One heaviest path of an interval.
ghost use Rattle.std.specs.Prelude.{◌≡◌, ◌+◌, ◌-◌, ◌^◌, ◌<◌, ◌≤◌, ◌∷◌, ◌++◌, [], length, OnOk, IfOk};
ghost use Rattle.k_optab.specs.Events.{SourcesAreEarlier, made_before, operations, total_latency};
ghost use Rattle.k_optab.specs.Graph.{Heaviest};
ghost use Rattle.k_graph.specs.Chains.{AreEarlier, Traces, before_of};
ghost use Rattle.k_graph.specs.Chosen.{AreChained, IsChosen, IsPathOf};

use crate::choice::{chosen_source, first_greatest};
use crate::times::greatest_time;
use k_num::{NoMemory, Seq};
use k_optab::{Event, Src};
use std::alloc::Global;

/// What is known of the operations of an interval so far, from its start on: the weight of the heaviest path
/// to each, and the operation that stands before it on the chosen one.
#[derive(Debug, Drop)]
pub(crate) struct Chains {
    start: u64,
    times: Seq<u64>,
    befores: Seq<Option<u64>>,
}

impl Chains {
    ghost use Rattle.k_graph.specs.Chains.{CanChain, chained};

    /// One operation more.
    fn add(&mut self, latency: u64, sources: &[Src]) -> Result<(), NoMemory>
        requires { CanChain latency sources.now self.old }
        ensures { OnOk result (self.new ≡ chained latency sources.now self.old) }
    {
        let greatest = greatest_time(self.start, self.times.as_slice(), sources);
        let before = if greatest > 0 {
            chosen_source(self.start, self.times.as_slice(), sources, greatest)
        } else {
            None
        };
        self.times.push(latency + greatest)?;
        self.befores.push(before)
    }
}

/// The operations of an interval. Of the events those from `at` on are read, where the interval's first operation comes next.
fn chains_of(
    alloc: Global,
    events: &[Event],
    at: usize,
    start: u64,
    end: u64,
) -> Result<Chains, NoMemory>
    requires sources { SourcesAreEarlier (operations events.now) }
    requires latencies { total_latency (operations events.now) < 2 ^ 62 }
    requires place { at ≤ length events.now }
    requires begins { made_before at events.now ≡ start }
    requires interval { start ≤ end }
    requires within { end ≤ length (operations events.now) }
    ensures start { IfOk result (λ c. c.start ≡ start) }
    ensures chains { IfOk result (λ c. AreChained (operations events.now) start end c.times c.befores) }
{
    let mut chains = Chains {
        start,
        times: Seq::new(alloc),
        befores: Seq::new(alloc),
    };
    let mut made = start;
    let rest = &events[at..];
    for event in rest {
        if made >= end {
            break;
        }
        if let Event::Op {
            latency,
            sources,
            ..
        } = event
        {
            chains.add(*latency, sources.as_slice())?;
            made += 1;
        }
    }
    Ok(chains)
}

/// The path that ends at `last`, by what stands before each operation.
fn path_to(
    alloc: Global,
    start: u64,
    befores: &[Option<u64>],
    last: u64,
) -> Result<Seq<u64>, NoMemory>
    requires from_start { start ≤ last }
    requires within { last < start + length befores.now }
    requires earlier { AreEarlier start befores.now }
    ensures { IfOk result (Traces start befores.now last) }
{
    let mut nodes = Vec::new(alloc);
    let mut node = last;
    while let Some(before) = befores[(node - start) as usize] {
        nodes.push(node)?;
        node = before;
    }
    nodes.push(node)?;
    nodes.as_mut_slice().reverse();
    Ok(Seq::from_vec(nodes))
}

/// The place among the events where `start` operations stand before, looked for from `at` on, where `made` stand before. The
/// places of intervals, each of which begins where the one before it does or behind, are thus found in one pass.
pub fn place_of(events: &Seq<Event>, at: usize, made: u64, start: u64) -> usize
    requires place { at ≤ length events.now }
    requires so_far { made_before at events.now ≡ made }
    requires behind { made ≤ start }
    requires within { start ≤ length (operations events.now) }
    ensures from { at ≤ result }
    ensures place { result ≤ length events.now }
    ensures begins { made_before result events.now ≡ start }
{
    let list = events.as_slice();
    let mut place = at;
    let mut so_far = made;
    while so_far < start {
        if let Event::Op { .. } = &list[place] {
            so_far += 1;
        }
        place += 1;
    }
    place
}

/// The greatest weight of a path of an interval, and one path that has it. The interval's first operation is the next one behind
/// the first `at` events, and only the events of the interval are read.
pub fn heaviest_from(
    alloc: Global,
    events: &Seq<Event>,
    at: usize,
    start: u64,
    end: u64,
) -> Result<(u64, Seq<u64>), NoMemory>
    requires sources { SourcesAreEarlier (operations events.now) }
    requires latencies { total_latency (operations events.now) < 2 ^ 62 }
    requires place { at ≤ length events.now }
    requires begins { made_before at events.now ≡ start }
    requires interval { start ≤ end }
    requires within { end ≤ length (operations events.now) }
    ensures weight { IfOk result (λ r. Heaviest (operations events.now) start end r.0) }
    ensures path { IfOk result (λ r. IsPathOf (operations events.now) start end r.0 r.1) }
    ensures chosen { IfOk result (λ r. start < end → IsChosen (operations events.now) start end r.0 r.1) }
{
    if start == end {
        return Ok((0, Seq::new(alloc)));
    }
    let chains = chains_of(alloc, events.as_slice(), at, start, end)?;
    let times = chains.times.as_slice();
    let last = first_greatest(times);
    let nodes = path_to(alloc, start, chains.befores.as_slice(), start + last as u64)?;
    Ok((times[last], nodes))
}

/// The greatest weight of a path of an interval, and one path that has it. The events before the interval are counted, unless it
/// is empty.
pub fn heaviest(
    alloc: Global,
    events: &Seq<Event>,
    start: u64,
    end: u64,
) -> Result<(u64, Seq<u64>), NoMemory>
    requires sources { SourcesAreEarlier (operations events.now) }
    requires latencies { total_latency (operations events.now) < 2 ^ 62 }
    requires interval { start ≤ end }
    requires within { end ≤ length (operations events.now) }
    ensures weight { IfOk result (λ r. Heaviest (operations events.now) start end r.0) }
    ensures path { IfOk result (λ r. IsPathOf (operations events.now) start end r.0 r.1) }
    ensures chosen { IfOk result (λ r. start < end → IsChosen (operations events.now) start end r.0 r.1) }
{
    if start == end {
        return Ok((0, Seq::new(alloc)));
    }
    let at = place_of(events, 0, 0, start);
    heaviest_from(alloc, events, at, start, end)
}

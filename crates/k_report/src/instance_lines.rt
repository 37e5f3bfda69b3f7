//! The lines of instances, each with the heaviest path of its operations.
ghost use Rattle.std.specs.Prelude.{◌≡◌, ◌<◌, ◌≤◌, ◌^◌, ◌++◌, All, IfOk, OnOk, length};
ghost use Rattle.std.specs.List.{flat_map};
ghost use Rattle.k_optab.specs.Events.{SourcesAreEarlier, made_before, operations, total_latency};
ghost use Rattle.k_report.specs.Graph.{IsHeaviestPath, IsWithin, instance_line, node_text, nodes_text};
ghost use Rattle.k_report.specs.Writing.{AddsInstanceLines};

use k_graph::{Instance, heaviest_from, place_of};
use k_num::{NoMemory, Seq};
use k_optab::Event;
use k_text::{push, push_named};
use std::alloc::Global;

/// A place among events, and how many operations stand before it.
#[derive(Clone, Copy)]
struct Position {
    place: usize,
    made: u64,
}

/// The place where so many operations stand before. It is looked for from a place on, unless it lies before that.
fn position_of(events: &Seq<Event>, from: Position, made: u64) -> Position
    requires place { from.place ≤ length events.now }
    requires so_far { made_before from.place events.now ≡ from.made }
    requires within { made ≤ length (operations events.now) }
    ensures place { result.place ≤ length events.now }
    ensures so_far { made_before result.place events.now ≡ result.made }
    ensures made { result.made ≡ made }
{
    let place = if from.made <= made {
        place_of(events, from.place, from.made, made)
    } else {
        place_of(events, 0, 0, made)
    };
    Position { place, made }
}

/// The heaviest path that is chosen of an instance's operations, which begin at this position.
fn path_of(
    alloc: Global,
    events: &Seq<Event>,
    at: Position,
    instance: &Instance,
) -> Result<Seq<u64>, NoMemory>
    requires sources { SourcesAreEarlier (operations events.now) }
    requires latencies { total_latency (operations events.now) < 2 ^ 62 }
    requires within { IsWithin (length (operations events.now)) instance.now }
    requires place { at.place ≤ length events.now }
    requires so_far { made_before at.place events.now ≡ at.made }
    requires start { at.made ≡ instance.now.start }
    ensures { IfOk result (λ nodes. IsHeaviestPath (operations events.now) instance.now nodes) }
{
    let (_, nodes) = heaviest_from(alloc, events, at.place, instance.start, instance.end)?;
    Ok(nodes)
}

/// Numbers of operations, each behind a space.
fn push_some_nodes(text: &mut Vec<u8>, nodes: &[u64]) -> Result<(), NoMemory>
    ensures { OnOk result (text.new.items ≡ text.old.items ++ flat_map node_text nodes.now) }
{
    for node in nodes {
        push_named(text, " ", *node)?;
    }
    Ok(())
}

/// The operations of a path.
fn push_nodes(text: &mut Vec<u8>, nodes: &[u64]) -> Result<(), NoMemory>
    ensures { OnOk result (text.new.items ≡ text.old.items ++ nodes_text nodes.now) }
{
    match nodes {
        [] => push(text, " -"),
        _ => push_some_nodes(text, nodes),
    }
}

/// The line of an instance.
fn push_instance(
    text: &mut Vec<u8>,
    number: usize,
    instance: &Instance,
    nodes: &[u64],
) -> Result<(), NoMemory>
    ensures { OnOk result (text.new.items ≡ text.old.items ++ instance_line number instance.now nodes.now) }
{
    push_named(text, "instance ", number)?;
    push_named(text, " region ", instance.region)?;
    push_named(text, " from ", instance.start)?;
    push_named(text, " to ", instance.end)?;
    push_named(text, " work ", instance.work)?;
    push_named(text, " path ", instance.path)?;
    push(text, " :")?;
    push_nodes(text, nodes)?;
    push(text, "\n")
}

/// The lines of instances. Those in order of entry begin one behind the other, so that the events before them are read once.
pub(crate) fn push_instances(
    alloc: Global,
    text: &mut Vec<u8>,
    events: &Seq<Event>,
    tree: &[Instance],
) -> Result<(), NoMemory>
    requires sources { SourcesAreEarlier (operations events.now) }
    requires latencies { total_latency (operations events.now) < 2 ^ 62 }
    requires intervals { All (IsWithin (length (operations events.now))) tree.now }
    ensures { OnOk result (AddsInstanceLines (operations events.now) tree.now text.old.items text.new.items) }
{
    let mut at = Position { place: 0, made: 0 };
    for (number, instance) in tree.iter().enumerate() {
        at = position_of(events, at, instance.start);
        let nodes = path_of(alloc, events, at, instance)?;
        push_instance(text, number, instance, nodes.as_slice())?;
    }
    Ok(())
}

//! The listing of the dependence graph.
ghost use Rattle.std.specs.Prelude.{◌≡◌, ◌<◌, ◌^◌, ◌++◌, All, IfOk, OnOk, length};
ghost use Rattle.k_optab.specs.Events.{SourcesAreEarlier, operations, total_latency};
ghost use Rattle.k_report.specs.Graph.{IsGraphText, IsWithin, end_line, returned_line, trapped_line};

use crate::event_lines::push_events;
use crate::instance_lines::push_instances;
use k_ending::{End, Listing, Trap, name as trap_name};
use k_graph::Tree;
use k_num::{NoMemory, Place};
use k_text::{push, push_line, push_place};
use std::alloc::Global;

/// The last line of a run that returned.
fn push_returned(text: &mut Vec<u8>, exit: i32) -> Result<(), NoMemory>
    ensures { OnOk result (text.new.items ≡ text.old.items ++ returned_line exit) }
{
    push_line(text, "end returned ", exit)
}

/// The last line of a run that trapped.
fn push_trapped(text: &mut Vec<u8>, trap: Trap, place: Place) -> Result<(), NoMemory>
    ensures { OnOk result (text.new.items ≡ text.old.items ++ trapped_line trap place) }
{
    push(text, "end trapped ")?;
    push(text, trap_name(trap))?;
    push(text, " ")?;
    push_place(text, place)?;
    push(text, "\n")
}

/// The last line.
fn push_end(text: &mut Vec<u8>, end: End) -> Result<(), NoMemory>
    ensures { OnOk result (text.new.items ≡ text.old.items ++ end_line end) }
{
    match end {
        End::Returned(exit) => push_returned(text, exit),
        End::Trapped(trap, place) => push_trapped(text, trap, place),
        End::OutOfSteps => push(text, "end out of steps\n"),
    }
}

/// The listing of a run: a line for each event, a line for each instance of the tree with one heaviest path of its operations, and the
/// end.
pub fn graph_text(alloc: Global, listing: &Listing, tree: &Tree) -> Result<Vec<u8>, NoMemory>
    requires sources { SourcesAreEarlier (operations listing.now.events) }
    requires latencies { total_latency (operations listing.now.events) < 2 ^ 62 }
    requires intervals { All (IsWithin (length (operations listing.now.events))) tree.now }
    ensures { IfOk result (λ text. IsGraphText listing.now tree.now text.items) }
{
    let mut text = Vec::new(alloc);
    push_events(&mut text, listing.events.as_slice())?;
    push_instances(alloc, &mut text, &listing.events, tree.as_slice())?;
    push_end(&mut text, listing.end)?;
    Ok(text)
}

//! The events of a run.
ghost use Rattle.std.specs.Prelude.{◌≡◌, length};
ghost use Rattle.k_optab.specs.Events.{operations};

use crate::{Class, Sources};
use k_num::Place;

/// Where an operand's value came from.
#[derive(Clone, Copy, Debug, Default, PartialEq, Eq, Hash)]
pub struct Src {
    /// The number of the operation that gave the value. Operations are numbered from 0 in a run.
    pub number: u64,
    /// The dependence is that of an induction or a reduction, which is no edge of the graph.
    pub broken: bool,
}

/// One event of a run.
#[derive(Debug, Drop)]
pub enum Event {
    /// An operation was made. Its sources stand in operand order, the control source last; an operand
    /// whose value came from no operation has none. The latency is in units of the table of latencies, and the place is where in
    /// the source the construct stands that makes the operation.
    Op {
        class: Class,
        latency: u64,
        sources: Sources,
        place: Place,
    },
    /// An instance of the region of this number was entered.
    Enter(u32),
    /// The newest open instance was left.
    Exit,
}

/// How many operations there are among events.
pub fn count_operations(events: &[Event]) -> u64
    ensures { result ≡ length (operations events.now) }
{
    let mut count = 0u64;
    for event in events {
        if matches!(event, Event::Op { .. }) {
            count += 1;
        }
    }
    count
}

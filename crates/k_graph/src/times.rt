//! The times of the operations of an interval, and what they give for one more operation.
ghost use Rattle.std.specs.Prelude.{◌≡◌, ◌+◌, length};
ghost use Rattle.k_optab.specs.Events.{AreBefore};
ghost use Rattle.k_optab.specs.GraphLaws.{greatest_of};
ghost use Rattle.k_graph.specs.Times.{time_at};

use k_optab::Src;

/// The greatest time of the unbroken sources of an operation in an interval that begins at `start`: 0 for
/// a source from before it.
pub(crate) fn greatest_time(start: u64, times: &[u64], sources: &[Src]) -> u64
    requires { AreBefore (start + length times.now) sources.now }
    ensures { result ≡ greatest_of (time_at start times.now) sources.now }
{
    let mut greatest = 0;
    for src in sources {
        if !src.broken && src.number >= start {
            greatest = greatest.max(times[(src.number - start) as usize]);
        }
    }
    greatest
}

//! What does not change while a program is lowered.

use k_lower_extents::Extent;
use k_marks_meaning::Marks;
use k_optab::Latencies;
use k_types_meaning::TUnit;
use std::alloc::Global;

/// What does not change while a program is lowered: its source with its marks, the latency of each class, the extents of its statements by
/// their numbers, and where memory comes from.
#[derive(Clone, Copy)]
pub struct Source<'a> {
    pub unit: &'a TUnit,
    pub marks: &'a Marks,
    pub latencies: &'a Latencies,
    pub table: &'a [Option<Extent>],
    pub alloc: Global,
}

//! What does not change while the code of a function is emitted.

use k_marks_meaning::Marks;
use k_optab::Latencies;
use k_types_meaning::{TUnit, TVariable};
use std::alloc::Global;

/// What does not change while the code of a function is emitted: the source with its marks, the latency of each class, the number of the
/// function, its variables, and where memory comes from.
#[derive(Clone, Copy)]
pub struct Around<'a> {
    pub unit: &'a TUnit,
    pub marks: &'a Marks,
    pub latencies: &'a Latencies,
    pub function: u32,
    pub variables: &'a [TVariable],
    pub alloc: Global,
}

//! A program that is accepted.
use k_marks_meaning::Marks;
use k_num::Seq;
use k_optab::Latencies;
use k_types_meaning::TUnit;

/// A program that is accepted: its source, its typed tree with its marks, and the latencies of its operations.
#[derive(Drop)]
pub struct Program {
    pub source: Seq<u8>,
    pub typed: TUnit,
    pub marks: Marks,
    pub latencies: Latencies,
}

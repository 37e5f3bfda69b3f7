//! A program that is ready to run.
use crate::program::Program;
use k_num::Seq;

/// A program with its input, of whose operations at most so many are made.
#[derive(Drop)]
pub struct Ready {
    pub program: Program,
    pub input: Seq<u8>,
    pub steps: u64,
}

//! A program that is run.

use k_code::Code;
use std::alloc::Global;

/// Flat code with its input, and the most operations that it may make.
#[derive(Clone, Copy)]
pub struct Setting<'a> {
    pub alloc: Global,
    pub code: &'a Code,
    pub input: &'a [u8],
    pub budget: u64,
}

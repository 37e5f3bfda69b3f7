//! What instructions that are sure came to.

/// So many instructions were done. Where `spent`, times were read for one more, for which no memory was found then.
#[derive(Clone, Copy, Debug, PartialEq, Eq)]
pub struct Ran {
    pub done: u64,
    pub spent: bool,
}

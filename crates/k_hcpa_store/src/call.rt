//! Live calls, which share one list of registers and one of saved control sources.

/// A live call.
#[derive(Clone, Copy, Debug)]
pub struct Call {
    /// The number of its function.
    pub func: u32,
    /// The place of its first register.
    pub first: usize,
    /// The place of the first control source that it saves.
    pub saved: usize,
    /// How many regions it has open beside its function's.
    pub regions: u64,
    /// How many objects were live before it.
    pub base: u64,
}

/// A call that waits for another.
#[derive(Clone, Copy, Debug)]
pub struct Caller {
    pub call: Call,
    /// The instruction behind the call.
    pub back: usize,
    /// Its register to which what is returned goes.
    pub to: Option<u32>,
}

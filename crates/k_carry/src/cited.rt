//! The operations whose values an operation uses.

/// Where a value stands.
#[derive(Clone, Copy, Debug)]
pub enum Spot {
    /// In a register, by its number among those of all live calls.
    Register(usize),
    /// In an element of memory.
    Element(usize),
    /// In the cell of the input.
    Input,
    /// In the cell of the output.
    Output,
    /// It is the control source.
    Control,
}

/// An operation that gave a value, and where the value stands.
#[derive(Clone, Copy, Debug)]
pub struct Cited {
    pub number: u64,
    pub spot: Spot,
}

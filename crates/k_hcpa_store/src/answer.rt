//! What the steps of a store answer.

use k_ending::End;

/// An instruction without an operation had its effect.
#[derive(Clone, Copy, Debug, PartialEq, Eq)]
pub enum Alone {
    /// It set no element.
    Went,
    /// It set so many elements, from the first on.
    Filled { first: u32, count: u32 },
}

/// The operation of a call was made.
#[derive(Clone, Copy, Debug)]
pub enum Calling {
    /// The function was entered.
    Entered,
    /// A call more would pass the limits on live calls, so the run is over.
    Overflowed(End),
}

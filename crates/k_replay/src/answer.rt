//! What the calls of workers answer.

/// What a worker is dealt.
#[derive(Clone, Copy, Debug, PartialEq, Eq)]
pub enum Deal {
    /// The worker holds this operation from now on.
    Given(u64),
    /// The worker still holds this operation.
    Held(u64),
    /// There is none to give.
    Idle,
}

/// Why nothing is fired.
#[derive(Clone, Copy, Debug, PartialEq, Eq)]
pub enum FireFault {
    /// The worker holds no operation.
    NoneHeld,
    /// No memory was found.
    Memory,
}

//! What an object holds when it is made.
ghost use Rattle.std.specs.Prelude.{◌≡◌};

/// What an object holds when it is made.
#[derive(Clone, Copy, Debug, PartialEq, Eq)]
pub enum Start<'a> {
    /// No element has a value yet.
    Unset,
    /// Each element is 0.
    Zero,
    /// The elements are these bytes as signed 8-bit numbers, and can't be written.
    Literal(&'a [u8]),
}

impl Start<'_> {
    ghost use Rattle.k_mem.specs.Calls.{is_writable};

    /// Whether the object may be written.
    pub(crate) fn is_writable(self) -> bool
        ensures { result ≡ is_writable self.entry }
    {
        match self {
            Start::Unset | Start::Zero => true,
            Start::Literal(_) => false,
        }
    }
}

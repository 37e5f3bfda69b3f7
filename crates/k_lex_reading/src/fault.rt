//! Why the reading of a source stops.

use k_lex_lines::Fault;
use k_num::NoMemory;

/// Why the reading stops.
#[derive(Clone, Copy, Debug, PartialEq, Eq)]
pub enum ReadFault {
    /// The source is refused.
    Refused(Fault),
    /// No memory was found, or a token has 2^31 bytes or more.
    Memory,
}

impl From<NoMemory> for ReadFault {
    ghost use Rattle.std.specs.Prelude.{◌≡◌};
    ghost use Rattle.k_lex_reading.specs.declared.fault.ReadFault.TheVariants.{Memory};

    ghost from_gives = { λ _ e. e ≡ Memory };

    fn from(_error: NoMemory) -> ReadFault {
        ReadFault::Memory
    }
}

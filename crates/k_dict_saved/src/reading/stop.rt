//! Why a reading stops.
ghost use Rattle.std.specs.Prelude.{◌≡◌};
ghost use Rattle.k_dict_saved.specs.declared.reading.stop.Stop.TheVariants.{Memory};

use k_num::NoMemory;

/// Why a line is not read.
#[derive(Clone, Copy, Debug, PartialEq, Eq)]
pub enum Stop {
    /// No right line stands there.
    Wrong,
    /// No memory was found.
    Memory,
}

impl From<NoMemory> for Stop {
    ghost from_gives = { λ _ e. e ≡ Memory };

    fn from(_fault: NoMemory) -> Stop {
        Stop::Memory
    }
}

/// Why the lines of a part of the file are not read.
#[derive(Clone, Copy, Debug, PartialEq, Eq)]
pub enum Halt {
    /// A wrong line begins where so many bytes are left.
    Wrong(usize),
    /// No memory was found.
    Memory,
}

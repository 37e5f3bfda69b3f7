//! Why a command line is refused.

use k_num::NoMemory;

/// Why a command line is refused. An index counts the words from 0.
#[derive(Clone, Copy, Debug, PartialEq, Eq)]
pub enum Usage {
    /// There is no word.
    NoCommand,
    /// The word of this index is none that may stand there.
    UnknownWord(u32),
    /// The word of this index should be a number, or have one, and has none or one out of range.
    BadNumber(u32),
    /// The word of this index is an option that was given before.
    Twice(u32),
    /// The file, or a number of `demo`, is missing; or the file is empty or begins with `--`.
    NoFile,
    /// No memory was found.
    Memory,
}

impl From<NoMemory> for Usage {
    ghost use Rattle.std.specs.Prelude.{◌≡◌};
    ghost use Rattle.k_words.specs.declared.usage.Usage.TheVariants.{Memory};

    ghost from_gives = { λ _ fault. fault ≡ Memory };

    fn from(_error: NoMemory) -> Usage {
        Usage::Memory
    }
}

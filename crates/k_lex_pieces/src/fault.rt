//! Why the reading of a source stops.

use k_num::{NoMemory, Place};

/// Which refusal it is.
#[derive(Clone, Copy, Debug, PartialEq, Eq)]
pub enum Refusal {
    BadByte,
    OpenComment,
    OpenLiteral,
    BadEscape,
    BadNumber,
    BadDirective,
    UnknownHeader,
    MacroOrder,
    MacroAgain,
    SourceLong,
    TokensMany,
}

/// A refusal and its place.
#[derive(Clone, Copy, Debug, PartialEq, Eq)]
pub struct Fault {
    pub what: Refusal,
    pub place: Place,
}

/// Why a part of the lexer stops.
#[derive(Clone, Copy, Debug, PartialEq, Eq)]
pub enum Stop {
    Memory,
    Refused(Fault),
}

impl From<NoMemory> for Stop {
    ghost use Rattle.std.specs.Prelude.{◌≡◌};
    ghost use Rattle.k_lex_pieces.specs.declared.fault.Stop.TheVariants.{Memory};

    ghost from_gives = { λ _ e. e ≡ Memory };

    fn from(_error: NoMemory) -> Stop {
        Stop::Memory
    }
}

impl From<Fault> for Stop {
    ghost use Rattle.std.specs.Prelude.{◌≡◌};
    ghost use Rattle.k_lex_pieces.specs.declared.fault.Stop.TheVariants.{Refused};

    ghost from_gives = { λ f e. e ≡ Refused f };

    fn from(fault: Fault) -> Stop {
        Stop::Refused(fault)
    }
}

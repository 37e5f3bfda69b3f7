//! The faults of the parts of the call as failures.
ghost use Rattle.std.specs.Prelude.{◌≡◌};
ghost use Rattle.k_top_answers.specs.Failures.{failure_of_lex, failure_of_parse, failure_of_put, failure_of_reading, failure_of_save, failure_of_saved, failure_of_table, failure_of_types, failure_of_usage};
ghost use Rattle.k_top_answers.specs.declared.failure.Failure.TheVariants as why;

use crate::failure::Failure;
use k_dict_saved::SavedFault;
use k_edge::{PutFault, ReadAllFault, SaveFault};
use k_lex::LexFault;
use k_num::NoMemory;
use k_optab::TableFault;
use k_parse::ParseFault;
use k_types_meaning::TypeFault;
use k_words::Usage;

impl From<NoMemory> for Failure {
    ghost from_gives = { λ _ failure. failure ≡ why.NoMemory };

    fn from(_error: NoMemory) -> Failure {
        Failure::NoMemory
    }
}

impl From<LexFault> for Failure {
    ghost from_gives = { λ fault failure. failure ≡ failure_of_lex fault };

    fn from(fault: LexFault) -> Failure {
        match fault {
            LexFault::Memory => Failure::NoMemory,
            fault => Failure::Lex(fault),
        }
    }
}

impl From<ParseFault> for Failure {
    ghost from_gives = { λ fault failure. failure ≡ failure_of_parse fault };

    fn from(fault: ParseFault) -> Failure {
        match fault {
            ParseFault::Memory => Failure::NoMemory,
            fault => Failure::Parse(fault),
        }
    }
}

impl From<TypeFault> for Failure {
    ghost from_gives = { λ fault failure. failure ≡ failure_of_types fault };

    fn from(fault: TypeFault) -> Failure {
        match fault {
            TypeFault::Memory => {
                drop(fault);
                Failure::NoMemory
            }
            fault => Failure::Types(fault),
        }
    }
}

impl From<TableFault> for Failure {
    ghost from_gives = { λ fault failure. failure ≡ failure_of_table fault };

    fn from(fault: TableFault) -> Failure {
        match fault {
            TableFault::Memory => {
                drop(fault);
                Failure::NoMemory
            }
            fault => Failure::Table(fault),
        }
    }
}

impl From<Usage> for Failure {
    ghost from_gives = { λ fault failure. failure ≡ failure_of_usage fault };

    fn from(fault: Usage) -> Failure {
        match fault {
            Usage::Memory => Failure::NoMemory,
            fault => Failure::Usage(fault),
        }
    }
}

impl From<SavedFault> for Failure {
    ghost from_gives = { λ fault failure. failure ≡ failure_of_saved fault };

    fn from(fault: SavedFault) -> Failure {
        match fault {
            SavedFault::NotSaved(place) => Failure::Saved(place),
            SavedFault::Memory => Failure::NoMemory,
        }
    }
}

impl From<ReadAllFault> for Failure {
    ghost from_gives = { λ fault failure. failure ≡ failure_of_reading fault };

    fn from(fault: ReadAllFault) -> Failure {
        match fault {
            ReadAllFault::ReadFault => Failure::ReadFault,
            ReadAllFault::TooLong => Failure::InputLong,
            ReadAllFault::Memory => Failure::NoMemory,
        }
    }
}

impl From<PutFault> for Failure {
    ghost from_gives = { λ fault failure. failure ≡ failure_of_put fault };

    fn from(fault: PutFault) -> Failure {
        match fault {
            PutFault::Failed => Failure::WriteFault,
            PutFault::Memory => Failure::NoMemory,
        }
    }
}

impl From<SaveFault> for Failure {
    ghost from_gives = { λ fault failure. failure ≡ failure_of_save fault };

    fn from(fault: SaveFault) -> Failure {
        match fault {
            SaveFault::Failed => Failure::WriteFault,
            SaveFault::Memory => Failure::NoMemory,
        }
    }
}

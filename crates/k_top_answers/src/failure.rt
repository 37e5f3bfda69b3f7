//! Why the call does not end with status 0, and with which status it ends then.
ghost use Rattle.std.specs.Prelude.{◌≡◌};
ghost use Rattle.k_top_answers.specs.Failures.{failure_of_dict, failure_of_end, failure_of_finish, failure_of_load, failure_of_saved_in, failure_of_sum, failure_status};

use k_dict_entries::DictFault;
use k_dict_saved::SavedFault;
use k_edge::LoadFault;
use k_ending::{End, Trap};
use k_lex::LexFault;
use k_num::{Place, Text};
use k_optab::TableFault;
use k_parse::ParseFault;
use k_sum::SumFault;
use k_types_meaning::TypeFault;
use k_words::Usage;

/// Why the call does not end with status 0, in the order of the statuses from 1 to 12; behind them three more of status 11.
#[derive(Drop)]
pub enum Failure {
    /// The operation at this place could not be made.
    Trapped(Trap, Place),
    /// The run would make more operations than these.
    OutOfSteps(u64),
    /// The source has no tokens.
    Lex(LexFault),
    /// Its tokens spell no tree within the limits.
    Parse(ParseFault),
    /// Its tree has no typed tree.
    Types(TypeFault),
    /// The words are no command.
    Usage(Usage),
    /// There is no file of this name.
    Absent(Text),
    /// A file or the input could not be read.
    ReadFault,
    /// The output or a file could not be written.
    WriteFault,
    /// No memory was found.
    NoMemory,
    /// The input has too many bytes.
    InputLong,
    /// The table of latencies is none.
    Table(TableFault),
    /// The saved profile is none: its first wrong line starts at this byte.
    Saved(u64),
    /// The file of this name has too many bytes.
    FileLong(Text),
    /// The file of this name is no saved profile and no sum: its first wrong line starts at this byte.
    SavedIn(Text, u64),
    /// The runs of the file of this name are of another program than those before them.
    OtherProgram(Text),
    /// With the runs of the file of this name a limit of sums is passed.
    SumLarge(Text),
}

impl Failure {
    /// The exit status.
    pub fn status(&self) -> u8
        ensures { result ≡ failure_status self.now }
    {
        match self {
            Failure::Trapped(..) => 1,
            Failure::OutOfSteps(_) => 2,
            Failure::Lex(_) | Failure::Parse(_) | Failure::Types(_) => 3,
            Failure::Usage(_) => 4,
            Failure::Absent(_) => 5,
            Failure::ReadFault => 6,
            Failure::WriteFault => 7,
            Failure::NoMemory => 8,
            Failure::InputLong => 9,
            Failure::Table(_) => 10,
            Failure::Saved(_)
            | Failure::SavedIn(..)
            | Failure::OtherProgram(_)
            | Failure::SumLarge(_) => 11,
            Failure::FileLong(_) => 12,
        }
    }

    /// Why a file of this name is not loaded.
    pub fn of_load(name: Text, fault: LoadFault) -> Failure
        ensures { result ≡ failure_of_load name fault }
    {
        match fault {
            LoadFault::Absent => Failure::Absent(name),
            LoadFault::TooLong => Failure::FileLong(name),
            LoadFault::Failed => Failure::ReadFault,
            LoadFault::Memory => Failure::NoMemory,
        }
    }

    /// Why a saved profile or a sum in a file of this name is not read.
    pub fn of_saved(name: Text, fault: SavedFault) -> Failure
        ensures { result ≡ failure_of_saved_in name fault }
    {
        match fault {
            SavedFault::NotSaved(place) => Failure::SavedIn(name, place),
            SavedFault::Memory => Failure::NoMemory,
        }
    }

    /// Why the entries of a file of this name are not put to others.
    fn of_dict(name: Text, fault: DictFault) -> Failure
        ensures { result ≡ failure_of_dict name fault }
    {
        match fault {
            DictFault::Full(_) => Failure::SumLarge(name),
            DictFault::Memory => Failure::NoMemory,
        }
    }

    /// Why the runs of a file of this name are not put to others.
    pub fn of_sum(name: Text, fault: SumFault) -> Failure
        ensures { result ≡ failure_of_sum name fault }
    {
        match fault {
            SumFault::Other => Failure::OtherProgram(name),
            SumFault::Large => Failure::SumLarge(name),
            SumFault::Dict(fault) => Failure::of_dict(name, fault),
        }
    }

    /// Why a sum, whose last file has this name, is not brought in the order of its own file.
    pub fn of_finish(name: Text, fault: SumFault) -> Failure
        ensures { result ≡ failure_of_finish name fault }
    {
        match fault {
            SumFault::Other => Failure::OtherProgram(name),
            SumFault::Large => Failure::SumLarge(name),
            SumFault::Dict(_) => Failure::NoMemory,
        }
    }

    /// Why a run failed that might make so many operations, if it did.
    pub fn of_end(steps: u64, end: End) -> Option<Failure>
        ensures { result ≡ failure_of_end steps end }
    {
        match end {
            End::Returned(_) => None,
            End::Trapped(trap, place) => Some(Failure::Trapped(trap, place)),
            End::OutOfSteps => Some(Failure::OutOfSteps(steps)),
        }
    }
}

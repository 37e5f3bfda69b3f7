//! Files by their names.
ghost use Rattle.k_edge.specs.FilesWords.{FilesState, Loads, Saves};

use std::alloc::Global;
use std::error::Error;
use std::fmt;

/// Why a load was refused.
#[derive(Clone, Copy, Debug, PartialEq, Eq, Hash)]
pub enum LoadFault {
    /// No file has the name.
    Absent,
    /// The file has more bytes than the limit.
    TooLong,
    /// The outside failed.
    Failed,
    /// No memory was found.
    Memory,
}

impl fmt::Display for LoadFault {
    ghost use Rattle.std.specs.Prelude.{Some};
    ghost use Rattle.k_edge.specs.Texts.{load_fault_text};

    ghost output = { λ fault. Some (load_fault_text fault) };

    fn fmt<W: fmt::Write>(&self, f: &mut fmt::Formatter<W>) -> fmt::Result {
        f.write_str(match self {
            LoadFault::Absent => "no such file",
            LoadFault::TooLong => "the file is too long",
            LoadFault::Failed => "the load failed",
            LoadFault::Memory => "no memory",
        })
    }
}

impl Error for LoadFault {}

/// Why a save was refused.
#[derive(Clone, Copy, Debug, PartialEq, Eq, Hash)]
pub enum SaveFault {
    /// The outside failed, and no content changed.
    Failed,
    /// No memory was found, and nothing changed.
    Memory,
}

impl fmt::Display for SaveFault {
    ghost use Rattle.std.specs.Prelude.{Some};
    ghost use Rattle.k_edge.specs.Texts.{save_fault_text};

    ghost output = { λ fault. Some (save_fault_text fault) };

    fn fmt<W: fmt::Write>(&self, f: &mut fmt::Formatter<W>) -> fmt::Result {
        f.write_str(match self {
            SaveFault::Failed => "the save failed",
            SaveFault::Memory => "no memory",
        })
    }
}

impl Error for SaveFault {}

/// A store of named files.
pub trait Files {
    ghost seen: { Self → FilesState };

    /// The whole content of a name, which has at most `limit` bytes.
    fn load(&mut self, alloc: Global, name: &str, limit: u64) -> Result<Vec<u8>, LoadFault>
        ensures { Loads result name.now limit (seen self.old) (seen self.new) };

    /// Makes the bytes the content of a name. Where that fails, the name keeps the content that it had.
    fn save(&mut self, alloc: Global, name: &str, bytes: &[u8]) -> Result<(), SaveFault>
        ensures { Saves result name.now bytes.now (seen self.old) (seen self.new) };
}

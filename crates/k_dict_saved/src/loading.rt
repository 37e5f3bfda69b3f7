//! Profiles from the bytes of a file.
ghost use Rattle.std.specs.Prelude.{◌≡◌, IfOk};
ghost use Rattle.k_dict_entries.specs.Entries.{NameEarlier};
ghost use Rattle.k_dict_saved.specs.Files.{IsFile};
ghost use Rattle.k_dict_saved.specs.Profile.{IsSaved, Reads, ReadsOld, Spells};
ghost use Rattle.k_dict_saved.specs.SavedText.{file_of_old, file_of_saved};
ghost use Rattle.k_dict_saved.specs.FileText.{file_text};
ghost use Rattle.k_dict_saved.specs.declared.format.Format.TheVariants.{One, Two};

use crate::migration::migrate;
use crate::saved::{Old, Saved};
use crate::{Accepts, File, Format, SavedFault, read_file};
use k_dict_entries::Dict;
use k_num::NoMemory;
use std::alloc::Global;

/// The profile of a file in format 1.
fn into_old(alloc: Global, file: File) -> Result<Old, NoMemory>
    ensures { IfOk result (λ old. file_of_old old ≡ record file { format = One }) }
{
    let File {
        format: _,
        exit,
        ops,
        regions,
        entries,
    } = file;
    match entries.into_entries(alloc) {
        Ok(entries) => Ok(Old {
            exit,
            ops,
            regions,
            entries,
        }),
        Err(NoMemory) => {
            drop(regions);
            Err(NoMemory)
        }
    }
}

/// The profile of a file in format 2.
fn into_saved(file: File) -> Saved
    requires { NameEarlier file.entries }
    ensures { file_of_saved result ≡ record file { format = Two } }
{
    let File {
        format: _,
        exit,
        ops,
        regions,
        entries,
    } = file;
    Saved {
        exit,
        ops,
        regions,
        dict: Dict::from_table(entries),
    }
}

/// The profile of a file in either format.
fn profile_of(alloc: Global, file: File) -> Result<Saved, NoMemory>
    requires { IsFile file }
    ensures saved { IfOk result IsSaved }
    ensures spelled { IfOk result (Spells (file_text file)) }
{
    match file.format {
        Format::Two => Ok(into_saved(file)),
        Format::One => {
            let old = into_old(alloc, file)?;
            let migrated = migrate(alloc, &old);
            drop(old);
            migrated
        }
    }
}

/// The profile that the bytes of a file spell, in format 2 or in format 1, which is migrated. `NotSaved` has the byte at which
/// the first wrong line starts, by the rules of the file's own format.
pub fn read(alloc: Global, bytes: &[u8]) -> Result<Saved, SavedFault>
    ensures { Reads bytes.now result }
{
    match read_file(alloc, Accepts::Both, bytes) {
        Ok(file) => match profile_of(alloc, file) {
            Ok(saved) => Ok(saved),
            Err(NoMemory) => Err(SavedFault::Memory),
        },
        Err(SavedFault::NotSaved(place)) => Err(SavedFault::NotSaved(place)),
        Err(SavedFault::Memory) => Err(SavedFault::Memory),
    }
}

/// The profile that the bytes of a file spell in format 1. `NotSaved` has the byte at which the first wrong line starts, which
/// is 0 for a file of another format.
pub fn read_old(alloc: Global, bytes: &[u8]) -> Result<Old, SavedFault>
    ensures { ReadsOld bytes.now result }
{
    match read_file(alloc, Accepts::OneAlone, bytes) {
        Ok(file) => match into_old(alloc, file) {
            Ok(old) => Ok(old),
            Err(NoMemory) => Err(SavedFault::Memory),
        },
        Err(SavedFault::NotSaved(place)) => Err(SavedFault::NotSaved(place)),
        Err(SavedFault::Memory) => Err(SavedFault::Memory),
    }
}

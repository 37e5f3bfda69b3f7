//! Files in memory.
ghost use Rattle.std.specs.Prelude.{◌≡◌, [], ◌∷◌, IfOk, OnOk, OnErr, Option, option_map};
ghost use Rattle.std.specs.Option.{option_copied};
ghost use Rattle.k_edge.specs.FilesWords.{Loads, Saves};
ghost use Rattle.k_edge.specs.Calls.{next_fails, after_call};
ghost use Rattle.k_edge.specs.MemoryWords.{content_of, LoadFailsAsListed, SaveFailsAsListed};

use crate::count::{Calls, risen};
use crate::request::{note_load, note_save};
use crate::{Files, LoadFault, Request, SaveFault};
use k_num::{NoMemory, Seq, Text};
use std::alloc::Global;
use std::marker::Model;

/// A file in memory.
#[derive(Debug, Drop)]
pub struct File {
    pub name: Text,
    pub bytes: Seq<u8>,
}

/// Files in memory, which never fail. Misses and files over the limit are counted.
#[derive(Debug, Drop)]
pub struct SureFiles {
    files: Vec<File>,
    misses: u64,
    longs: u64,
    requests: Vec<Request>,
}

impl Model for SureFiles {
    ghost use Rattle.k_edge.specs.MemoryWords.{SureHeld};

    ghost Value = { SureHeld };

    ghost view = { λ f. record { files = f.files.items; misses = f.misses; longs = f.longs; requests = f.requests.items } };
}

impl SureFiles {
    pub fn new(alloc: Global) -> Result<SureFiles, NoMemory>
        ensures { IfOk result (λ files. files ≡ record { files = []; misses = 0; longs = 0; requests = [] }) }
    {
        Ok(SureFiles {
            files: Vec::new(alloc),
            misses: 0,
            longs: 0,
            requests: Vec::new(alloc),
        })
    }

    /// Adds a file, or replaces that of the name.
    pub fn add(&mut self, name: &str, bytes: &[u8]) -> Result<(), NoMemory>
        ensures ok { OnOk result (self.new ≡ record self.old {
          files = record { name = name.now; bytes = bytes.now } ∷ self.old.files;
        }) }
        ensures err { OnErr result (self.new ≡ self.old) }
    {
        let alloc = *self.files.allocator();
        let file = File {
            name: Text::copy_of(alloc, name)?,
            bytes: Seq::copy_of(alloc, bytes)?,
        };
        self.files.insert(0, file)?;
        Ok(())
    }
}

/// The first file of a name.
fn find<'a>(files: &'a [File], name: &str) -> Option<&'a File>
    ensures { option_map (λ file. file.bytes) (option_copied result) ≡ content_of files.now name.now }
{
    for file in files {
        if file.name.as_str() == name {
            return Some(file);
        }
    }
    None
}

impl Files for SureFiles {
    ghost use Rattle.k_edge.specs.MemoryWords.{sure_files};

    ghost seen = { sure_files };

    fn load(&mut self, alloc: Global, name: &str, limit: u64) -> Result<Vec<u8>, LoadFault> {
        if note_load(&mut self.requests, name).is_err() {
            return Err(LoadFault::Memory);
        }
        let Some(file) = find(self.files.as_slice(), name) else {
            self.misses = risen(self.misses);
            return Err(LoadFault::Absent);
        };
        if file.bytes.len() as u64 > limit {
            self.longs = risen(self.longs);
            return Err(LoadFault::TooLong);
        }
        match Vec::from_slice(alloc, file.bytes.as_slice()) {
            Ok(bytes) => Ok(bytes),
            Err(_) => Err(LoadFault::Memory),
        }
    }

    fn save(&mut self, _alloc: Global, name: &str, bytes: &[u8]) -> Result<(), SaveFault> {
        if note_save(&mut self.requests, name).is_err() {
            return Err(SaveFault::Memory);
        }
        match self.add(name, bytes) {
            Ok(()) => Ok(()),
            Err(NoMemory) => Err(SaveFault::Memory),
        }
    }
}

/// Files in memory, which fail at the calls that a list names.
#[derive(Debug, Drop)]
pub struct MemFiles {
    files: SureFiles,
    load_faults: u64,
    save_faults: u64,
    calls: Calls,
}

impl Model for MemFiles {
    ghost use Rattle.k_edge.specs.MemoryWords.{MemHeld};

    ghost Value = { MemHeld };

    ghost view = { λ f. record { held = f.files; load_faults = f.load_faults; save_faults = f.save_faults; calls = f.calls } };
}

impl MemFiles {
    /// `failing` has the numbers of the calls that fail: loads and saves are counted together, from 0.
    pub fn new(alloc: Global, failing: &[u64]) -> Result<MemFiles, NoMemory>
        ensures { IfOk result (λ files. files ≡ record {
          held = record { files = []; misses = 0; longs = 0; requests = [] };
          load_faults = 0;
          save_faults = 0;
          calls = record { next = 0; failing = failing.now };
        }) }
    {
        Ok(MemFiles {
            files: SureFiles::new(alloc)?,
            load_faults: 0,
            save_faults: 0,
            calls: Calls::new(alloc, failing)?,
        })
    }

    /// Adds a file, or replaces that of the name.
    pub fn add(&mut self, name: &str, bytes: &[u8]) -> Result<(), NoMemory>
        ensures ok { OnOk result (self.new ≡ record self.old {
          held = record self.old.held {
            files = record { name = name.now; bytes = bytes.now } ∷ self.old.held.files;
          };
        }) }
        ensures err { OnErr result (self.new ≡ self.old) }
    {
        self.files.add(name, bytes)
    }
}

impl Files for MemFiles {
    ghost use Rattle.k_edge.specs.MemoryWords.{mem_files};

    ghost seen = { mem_files };

    fn load(&mut self, alloc: Global, name: &str, limit: u64) -> Result<Vec<u8>, LoadFault>
        ensures loads { Loads result name.now limit (mem_files self.old) (mem_files self.new) }
        ensures as_listed { LoadFailsAsListed result (next_fails self.old.calls) }
        ensures counted { self.new.calls ≡ after_call self.old.calls }
    {
        if self.calls.fails() {
            if note_load(&mut self.files.requests, name).is_err() {
                return Err(LoadFault::Memory);
            }
            self.load_faults = risen(self.load_faults);
            return Err(LoadFault::Failed);
        }
        self.files.load(alloc, name, limit)
    }

    fn save(&mut self, alloc: Global, name: &str, bytes: &[u8]) -> Result<(), SaveFault>
        ensures saves { Saves result name.now bytes.now (mem_files self.old) (mem_files self.new) }
        ensures as_listed { SaveFailsAsListed result (next_fails self.old.calls) self.old.held.files self.new.held.files }
        ensures counted { self.new.calls ≡ after_call self.old.calls }
    {
        if self.calls.fails() {
            if note_save(&mut self.files.requests, name).is_err() {
                return Err(SaveFault::Memory);
            }
            self.save_faults = risen(self.save_faults);
            return Err(SaveFault::Failed);
        }
        self.files.save(alloc, name, bytes)
    }
}

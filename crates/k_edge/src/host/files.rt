//! An adapter over the files of the host.
ghost use Rattle.std.specs.Prelude.{◌≡◌, ◌≤◌, [], None, IfOk, vec_len};
ghost use Rattle.k_edge.specs.HostWords.{host_files};

use crate::count::risen;
use crate::host::saving::save_file;
use crate::request::{note_load, note_save};
use crate::{Files, LoadFault, Request, SaveFault};
use std::alloc::Global;
use std::io::{self, ErrorKind, Read};
use std::{fs, rt};

/// The files of the host, opened by the runtime. Where no memory is found to note what is asked, nothing is opened.
#[derive(Debug, Drop)]
pub struct HostFiles<R> {
    runtime: R,
    load_faults: u64,
    save_faults: u64,
    misses: u64,
    longs: u64,
    requests: Vec<Request>,
}

impl<R: rt::Files + AllocGlobal> HostFiles<R> {
    /// No request was made, and nothing has gone wrong.
    pub fn new(runtime: R) -> HostFiles<R>
        ensures { host_files result ≡ record {
          held = None;
          counts = record { load_faults = 0; save_faults = 0; misses = 0; longs = 0 };
          requests = [];
        } }
    {
        let requests = Vec::new(runtime.alloc());
        HostFiles {
            runtime,
            load_faults: 0,
            save_faults: 0,
            misses: 0,
            longs: 0,
            requests,
        }
    }
}

/// Reads a file of the host, and at most one byte more than the limit of it. A name can be missing only where the
/// file is opened.
fn read_file<R: rt::Files>(
    runtime: &R,
    alloc: Global,
    name: &str,
    limit: u64,
) -> Result<Vec<u8>, LoadFault>
    ensures { IfOk result (λ bytes. vec_len bytes ≤ limit) }
{
    let file = match fs::open(runtime, name) {
        Ok(file) => file,
        Err(error) if error.kind() == ErrorKind::NotFound => return Err(LoadFault::Absent),
        Err(error) => return Err(load_fault(&error)),
    };
    let mut bytes = Vec::new(alloc);
    match file.take(limit.saturating_add(1)).read_to_end(&mut bytes) {
        Ok(count) if count as u64 <= limit => Ok(bytes),
        Ok(_) => Err(LoadFault::TooLong),
        Err(error) => Err(load_fault(&error)),
    }
}

/// Why a load was refused, where the name was found.
fn load_fault(error: &io::Error) -> LoadFault {
    match error.kind() {
        ErrorKind::OutOfMemory => LoadFault::Memory,
        _ => LoadFault::Failed,
    }
}

impl<R: rt::Files> Files for HostFiles<R> {
    ghost seen = { host_files };

    fn load(&mut self, alloc: Global, name: &str, limit: u64) -> Result<Vec<u8>, LoadFault> {
        if note_load(&mut self.requests, name).is_err() {
            return Err(LoadFault::Memory);
        }
        let loaded = read_file(&self.runtime, alloc, name, limit);
        match loaded {
            Err(LoadFault::Absent) => self.misses = risen(self.misses),
            Err(LoadFault::TooLong) => self.longs = risen(self.longs),
            Err(LoadFault::Failed) => self.load_faults = risen(self.load_faults),
            Ok(_) | Err(LoadFault::Memory) => {}
        }
        loaded
    }

    fn save(&mut self, alloc: Global, name: &str, bytes: &[u8]) -> Result<(), SaveFault> {
        if note_save(&mut self.requests, name).is_err() {
            return Err(SaveFault::Memory);
        }
        match save_file(&self.runtime, alloc, name, bytes) {
            Ok(()) => Ok(()),
            Err(error) if error.kind() == ErrorKind::OutOfMemory => Err(SaveFault::Memory),
            Err(_) => {
                self.save_faults = risen(self.save_faults);
                Err(SaveFault::Failed)
            }
        }
    }
}

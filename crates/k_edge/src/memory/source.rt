//! Sources over bytes in memory.
ghost use Rattle.std.specs.Prelude.{◌≡◌, ◌++◌, IfOk, is_err, take, drop, min, length};
ghost use Rattle.k_edge.specs.SourceWords.{Reads};
ghost use Rattle.k_edge.specs.Calls.{next_fails, after_call};

use crate::count::{Calls, ended_after, risen};
use crate::{Failed, Source};
use k_num::NoMemory;
use std::alloc::Global;
use std::marker::Model;

/// A source over bytes in memory, which never fails.
#[derive(Debug, Drop)]
pub struct SureSource {
    bytes: Vec<u8>,
    taken: usize,
    ended: u64,
}

impl Model for SureSource {
    ghost use Rattle.std.specs.Prelude.{◌≤◌, drop, vec_len};
    ghost use Rattle.k_edge.specs.MemoryWords.{SureBytes};

    ghost Value = { SureBytes };

    ghost view = { λ s. record { left = drop s.taken s.bytes.items; taken = s.taken; ended = s.ended } };

    ghost invariant = { λ s. s.taken ≤ vec_len s.bytes };
}

impl SureSource {
    pub fn new(alloc: Global, bytes: &[u8]) -> Result<SureSource, NoMemory>
        ensures { IfOk result (λ source. source ≡ record { left = bytes.now; taken = 0; ended = 0 }) }
    {
        Ok(SureSource {
            bytes: Vec::from_slice(alloc, bytes)?,
            taken: 0,
            ended: 0,
        })
    }
}

impl Source for SureSource {
    ghost use Rattle.k_edge.specs.MemoryWords.{sure_source};

    ghost seen = { sure_source };

    fn read(&mut self, buf: &mut [u8]) -> Result<usize, Failed> {
        let count = copy_front(&self.bytes.as_slice()[self.taken..], buf);
        self.taken += count;
        self.ended = ended_after(self.ended, count, buf.len());
        Ok(count)
    }
}

/// Copies as many bytes as fit to the front of the buffer, and answers how many.
fn copy_front(bytes: &[u8], buf: &mut [u8]) -> usize
    ensures count { result ≡ min (length bytes.now) (length buf.old) }
    ensures copied { buf.new ≡ take result bytes.now ++ drop result buf.old }
{
    let count = bytes.len().min(buf.len());
    buf[..count].copy_from_slice(&bytes[..count]);
    count
}

/// A source over bytes in memory, which fails at the calls that a list names.
#[derive(Debug, Drop)]
pub struct MemSource {
    source: SureSource,
    faults: u64,
    calls: Calls,
}

impl Model for MemSource {
    ghost use Rattle.k_edge.specs.MemoryWords.{MemBytes};

    ghost Value = { MemBytes };

    ghost view = { λ s. record { left = s.source.left; taken = s.source.taken; ended = s.source.ended; faults = s.faults; calls = s.calls } };
}

impl MemSource {
    /// `failing` has the numbers of the reads that fail, counted from 0.
    pub fn new(alloc: Global, bytes: &[u8], failing: &[u64]) -> Result<MemSource, NoMemory>
        ensures { IfOk result (λ source. source ≡ record {
          left = bytes.now;
          taken = 0;
          ended = 0;
          faults = 0;
          calls = record { next = 0; failing = failing.now };
        }) }
    {
        Ok(MemSource {
            source: SureSource::new(alloc, bytes)?,
            faults: 0,
            calls: Calls::new(alloc, failing)?,
        })
    }
}

impl Source for MemSource {
    ghost use Rattle.k_edge.specs.MemoryWords.{mem_source};

    ghost seen = { mem_source };

    fn read(&mut self, buf: &mut [u8]) -> Result<usize, Failed>
        ensures reads { Reads result buf.old buf.new (mem_source self.old) (mem_source self.new) }
        ensures as_listed { is_err result ≡ next_fails self.old.calls }
        ensures counted { self.new.calls ≡ after_call self.old.calls }
    {
        if self.calls.fails() {
            self.faults = risen(self.faults);
            return Err(Failed);
        }
        self.source.read(buf)
    }
}

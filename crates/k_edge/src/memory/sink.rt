//! Sinks that keep what is written in memory.
ghost use Rattle.std.specs.Prelude.{◌≡◌, [], IfOk};
ghost use Rattle.k_edge.specs.SinkWords.{Puts};
ghost use Rattle.k_edge.specs.Calls.{next_fails, after_call};
ghost use Rattle.k_edge.specs.MemoryWords.{PutFailsAsListed};

use crate::count::{Calls, risen};
use crate::{PutFault, Sink};
use k_num::NoMemory;
use std::alloc::Global;
use std::marker::Model;

/// A sink in memory, whose puts fail for want of memory alone.
#[derive(Debug, Drop)]
pub struct SureSink {
    bytes: Vec<u8>,
}

impl Model for SureSink {
    ghost use Rattle.std.specs.Prelude.{ℕ, List};

    ghost Value = { List ℕ };

    ghost view = { λ s. s.bytes.items };
}

impl SureSink {
    pub fn new(alloc: Global) -> Result<SureSink, NoMemory>
        ensures { IfOk result (λ sink. sink ≡ []) }
    {
        Ok(SureSink {
            bytes: Vec::new(alloc),
        })
    }

    /// What was written.
    pub fn bytes(&self) -> &[u8]
        ensures { result.now ≡ self.now }
    {
        self.bytes.as_slice()
    }
}

impl Sink for SureSink {
    ghost use Rattle.std.specs.Prelude.{Some};

    ghost seen = { λ s. record { written = Some s; faults = 0 } };

    fn put(&mut self, piece: &[u8]) -> Result<(), PutFault> {
        match self.bytes.extend_from_slice(piece) {
            Ok(()) => Ok(()),
            Err(_) => Err(PutFault::Memory),
        }
    }
}

/// A sink in memory, which fails at the puts that a list names.
#[derive(Debug, Drop)]
pub struct MemSink {
    sink: SureSink,
    faults: u64,
    calls: Calls,
}

impl Model for MemSink {
    ghost use Rattle.k_edge.specs.MemoryWords.{MemWritten};

    ghost Value = { MemWritten };

    ghost view = { λ s. record { written = s.sink; faults = s.faults; calls = s.calls } };
}

impl MemSink {
    /// `failing` has the numbers of the puts that fail, counted from 0. A put that fails appends nothing.
    pub fn new(alloc: Global, failing: &[u64]) -> Result<MemSink, NoMemory>
        ensures { IfOk result (λ sink. sink ≡ record {
          written = [];
          faults = 0;
          calls = record { next = 0; failing = failing.now };
        }) }
    {
        Ok(MemSink {
            sink: SureSink::new(alloc)?,
            faults: 0,
            calls: Calls::new(alloc, failing)?,
        })
    }

    /// What was written.
    pub fn bytes(&self) -> &[u8]
        ensures { result.now ≡ self.now.written }
    {
        self.sink.bytes()
    }
}

impl Sink for MemSink {
    ghost use Rattle.k_edge.specs.MemoryWords.{mem_sink};

    ghost seen = { mem_sink };

    fn put(&mut self, piece: &[u8]) -> Result<(), PutFault>
        ensures puts { Puts result piece.now (mem_sink self.old) (mem_sink self.new) }
        ensures as_listed { PutFailsAsListed result (next_fails self.old.calls) self.old.written self.new.written }
        ensures counted { self.new.calls ≡ after_call self.old.calls }
    {
        if self.calls.fails() {
            self.faults = risen(self.faults);
            return Err(PutFault::Failed);
        }
        self.sink.put(piece)
    }
}

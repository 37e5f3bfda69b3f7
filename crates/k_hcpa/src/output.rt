//! The output of a run on its way to a sink, in pieces.
ghost use Rattle.std.specs.Prelude.{◌≡◌, ◌+◌, ◌<◌, ◌≤◌, [], ◌++◌, length, vec_len, OnOk};
ghost use Rattle.k_hcpa.specs.Outflows.{Fills, HandsOn, PutsFull, PutsPiece};

use crate::profile::{Profile, RunFault};
use k_edge::{PutFault, Sink};
use k_num::NoMemory;
use std::alloc::Global;

/// How many bytes are put at a time.
pub(crate) const PIECE: usize = 65_536;

/// Output that waits until it fills a piece, and how many bytes were put before it.
#[derive(Drop)]
pub(crate) struct Outflow {
    pub(crate) put: u64,
    pub(crate) held: Vec<u8>,
}

/// Puts a piece, which is not empty.
fn put_piece<K: Sink>(out: &mut K, piece: &[u8]) -> Result<(), RunFault>
    requires { 0 < length piece.now }
    ensures { PutsPiece result piece.now (K.seen out.old) (K.seen out.new) }
{
    match out.put(piece) {
        Ok(()) => Ok(()),
        Err(PutFault::Failed) => Err(RunFault::Write),
        Err(PutFault::Memory) => Err(RunFault::Memory),
    }
}

impl Outflow {
    /// Nothing was put, and nothing is held. It takes no memory until something is.
    pub(crate) fn new(alloc: Global) -> Outflow
        ensures put { result.put ≡ 0 }
        ensures held { result.held.items ≡ [] }
    {
        Outflow {
            put: 0,
            held: Vec::new(alloc),
        }
    }

    /// Holds these bytes too.
    fn hold(&mut self, bytes: &[u8]) -> Result<(), NoMemory>
        ensures put { self.new.put ≡ self.old.put }
        ensures ok { OnOk result (self.new.held.items ≡ self.old.held.items ++ bytes.now) }
    {
        self.held.extend_from_slice(bytes)?;
        Ok(())
    }

    /// Puts what is held, with these bytes behind it. More bytes than 64 bits can count, which no run comes to write, are refused as where no memory is found.
    fn fill<K: Sink>(&mut self, bytes: &[u8], out: &mut K) -> Result<(), RunFault>
        requires { 0 < vec_len self.old.held + length bytes.now }
        ensures { Fills self.old bytes.now result self.new (K.seen out.old) (K.seen out.new) }
    {
        let Ok(()) = self.hold(bytes) else {
            return Err(RunFault::Memory);
        };
        let Some(put) = self.put.checked_add(self.held.len() as u64) else {
            return Err(RunFault::Memory);
        };
        put_piece(out, self.held.as_slice())?;
        self.put = put;
        self.held.truncate(0);
        Ok(())
    }

    /// Hands these bytes on: they are put in pieces of 65,536 bytes, each once a byte comes behind it, and the rest is held.
    pub(crate) fn hand_on<K: Sink>(&mut self, bytes: &[u8], out: &mut K) -> Result<(), RunFault>
        requires { vec_len self.old.held ≤ 65536 }
        ensures { HandsOn self.old bytes.now result self.new (K.seen out.old) (K.seen out.new) }
    {
        let mut rest = bytes;
        while rest.len() > PIECE - self.held.len() {
            let (front, later) = rest.split_at(PIECE - self.held.len());
            match self.fill(front, out) {
                Ok(()) => rest = later,
                Err(fault) => return Err(fault),
            }
        }
        match self.hold(rest) {
            Ok(()) => Ok(()),
            Err(NoMemory) => Err(RunFault::Memory),
        }
    }
}

/// Puts the rest of a run's output where it fills a piece.
pub(crate) fn put_full<K: Sink>(mut profile: Profile, out: &mut K) -> Result<Profile, RunFault>
    ensures { PutsFull profile result (K.seen out.old) (K.seen out.new) }
{
    if profile.rest.len() < PIECE {
        return Ok(profile);
    }
    match put_piece(out, profile.rest.as_slice()) {
        Ok(()) => {
            profile.rest.truncate(0);
            Ok(profile)
        }
        Err(fault) => {
            drop(profile);
            Err(fault)
        }
    }
}

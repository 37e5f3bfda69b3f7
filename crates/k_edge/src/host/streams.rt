//! Adapters over readers and writers.
ghost use Rattle.std.specs.Prelude.{◌≡◌, ◌≢◌, None, Err};
ghost use Rattle.std.specs.Io.KnownBytes.{ReadConsumes};
ghost use Rattle.k_edge.specs.SourceWords.{Reads};
ghost use Rattle.k_edge.specs.SinkWords.{Puts};
ghost use Rattle.k_edge.specs.HostWords.{std_source, std_sink, reader_of, writer_of, Hands, Writes};

use crate::count::{ended_after, risen};
use crate::{Failed, PutFault, Sink, Source};
use std::io::{ErrorKind, Read, Write};

/// A source over a reader.
#[derive(Debug, Drop)]
pub struct StdSource<R> {
    inner: R,
    faults: u64,
    taken: u64,
    ended: u64,
}

impl<R: Read> StdSource<R> {
    pub fn new(inner: R) -> StdSource<R>
        ensures over { reader_of result ≡ inner }
        ensures counts { std_source result ≡ record { left = None; faults = 0; taken = 0; ended = 0 } }
    {
        StdSource {
            inner,
            faults: 0,
            taken: 0,
            ended: 0,
        }
    }
}

impl<R: Read> Source for StdSource<R> {
    ghost seen = { std_source };

    /// No read is made that could bring the count of bytes taken above the greatest number: that is a fault.
    fn read(&mut self, buf: &mut [u8]) -> Result<usize, Failed>
        ensures reads { Reads result buf.old buf.new (std_source self.old) (std_source self.new) }
        ensures reads_inner { ReadConsumes (R.remaining (reader_of self.old)) (R.remaining (reader_of self.new)) result buf.new }
    {
        if u64::MAX - self.taken < buf.len() as u64 {
            self.faults = risen(self.faults);
            return Err(Failed);
        }
        match self.inner.read(buf) {
            Ok(count) => {
                self.taken += count as u64;
                self.ended = ended_after(self.ended, count, buf.len());
                Ok(count)
            }
            Err(_) => {
                self.faults = risen(self.faults);
                Err(Failed)
            }
        }
    }
}

/// A sink over a writer, which is flushed after each piece.
#[derive(Debug, Drop)]
pub struct StdSink<W> {
    inner: W,
    faults: u64,
}

impl<W: Write> StdSink<W> {
    pub fn new(inner: W) -> StdSink<W>
        ensures over { writer_of result ≡ inner }
        ensures counts { std_sink result ≡ record { written = None; faults = 0 } }
    {
        StdSink { inner, faults: 0 }
    }
}

impl<W: Write> Sink for StdSink<W> {
    ghost seen = { std_sink };

    fn put(&mut self, piece: &[u8]) -> Result<(), PutFault>
        ensures puts { Puts result piece.now (std_sink self.old) (std_sink self.new) }
        ensures hands_inner { Hands result piece.now (W.contents (writer_of self.old)) (W.contents (writer_of self.new)) }
        ensures never_memory { result ≢ Err PutFault.Memory }
    {
        if write_whole(&mut self.inner, piece) && self.inner.flush().is_ok() {
            return Ok(());
        }
        self.faults = risen(self.faults);
        Err(PutFault::Failed)
    }
}

/// Writes a piece until it is whole, and answers whether it is. A write that was interrupted is tried again.
fn write_whole<W: Write>(writer: &mut W, piece: &[u8]) -> bool
    ensures { Writes result piece.now (W.contents writer.old) (W.contents writer.new) }
{
    let mut rest = piece;
    'tries: for _ in 0..u64::MAX {
        if rest.is_empty() {
            return true;
        }
        match writer.write(rest) {
            Ok(0) => return false,
            Ok(count) => rest = &rest[count..],
            Err(error) if error.kind() == ErrorKind::Interrupted => {}
            Err(_) => return false,
        }
    }
    false
}

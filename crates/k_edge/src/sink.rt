//! Where bytes go to.
ghost use Rattle.k_edge.specs.SinkWords.{SinkState, Puts};

use std::error::Error;
use std::fmt;

/// Why a put was refused.
#[derive(Clone, Copy, Debug, PartialEq, Eq, Hash)]
pub enum PutFault {
    /// The outside failed. A prefix of the piece may have been written.
    Failed,
    /// No memory was found, and nothing was written.
    Memory,
}

impl fmt::Display for PutFault {
    ghost use Rattle.std.specs.Prelude.{Some};
    ghost use Rattle.k_edge.specs.Texts.{put_fault_text};

    ghost output = { λ fault. Some (put_fault_text fault) };

    fn fmt<W: fmt::Write>(&self, f: &mut fmt::Formatter<W>) -> fmt::Result {
        f.write_str(match self {
            PutFault::Failed => "the write failed",
            PutFault::Memory => "no memory",
        })
    }
}

impl Error for PutFault {}

/// A sink of bytes, which grows at its end.
pub trait Sink {
    ghost seen: { Self → SinkState };

    /// Appends the whole piece.
    fn put(&mut self, piece: &[u8]) -> Result<(), PutFault>
        ensures { Puts result piece.now (seen self.old) (seen self.new) };
}

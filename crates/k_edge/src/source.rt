//! Where bytes come from.
ghost use Rattle.k_edge.specs.SourceWords.{SourceState, Reads};

use std::error::Error;
use std::fmt;

/// A read failed.
#[derive(Clone, Copy, Debug, PartialEq, Eq, Hash)]
pub struct Failed;

impl fmt::Display for Failed {
    ghost use Rattle.std.specs.Prelude.{Some, codes};

    ghost output = { λ _. Some (codes "the read failed") };

    fn fmt<W: fmt::Write>(&self, f: &mut fmt::Formatter<W>) -> fmt::Result {
        f.write_str("the read failed")
    }
}

impl Error for Failed {}

/// A source of bytes, read from its front.
pub trait Source {
    ghost seen: { Self → SourceState };

    /// Reads bytes into the front of the buffer, and answers how many: 0 for a buffer that isn't empty is
    /// the end.
    fn read(&mut self, buf: &mut [u8]) -> Result<usize, Failed>
        ensures { Reads result buf.old buf.new (seen self.old) (seen self.new) };
}

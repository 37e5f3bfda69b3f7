//! Reading a source to its end.
ghost use Rattle.std.specs.Prelude.{◌≡◌, ◌+◌, ◌↔◌, Err};
ghost use Rattle.k_edge.specs.ReadAll.{ReadsAll};

use crate::{Failed, Source};
use std::alloc::Global;
use std::error::Error;
use std::fmt;

/// How many bytes are read at a time.
const PIECE: usize = 4096;

/// Why a source was not read to its end.
#[derive(Clone, Copy, Debug, PartialEq, Eq, Hash)]
pub enum ReadAllFault {
    /// A read failed. What was read before is gone.
    ReadFault,
    /// The source had more bytes than the limit, and one more than the limit was taken.
    TooLong,
    /// No memory was found for what was read.
    Memory,
}

impl fmt::Display for ReadAllFault {
    ghost use Rattle.std.specs.Prelude.{Some};
    ghost use Rattle.k_edge.specs.Texts.{read_all_fault_text};

    ghost output = { λ fault. Some (read_all_fault_text fault) };

    fn fmt<W: fmt::Write>(&self, f: &mut fmt::Formatter<W>) -> fmt::Result {
        f.write_str(match self {
            ReadAllFault::ReadFault => "the read failed",
            ReadAllFault::TooLong => "the input is too long",
            ReadAllFault::Memory => "no memory",
        })
    }
}

impl Error for ReadAllFault {}

/// Reads a source to its end. Never are more than `limit + 1` bytes taken, and whether there are too many is
/// tested before memory is asked for.
pub fn read_all<S: Source>(alloc: Global, src: &mut S, limit: u64) -> Result<Vec<u8>, ReadAllFault>
    ensures reads { ReadsAll result limit (S.seen src.old) (S.seen src.new) }
    ensures too_long { (result ≡ Err ReadAllFault.TooLong) ↔ ((S.seen src.new).taken ≡ (S.seen src.old).taken + (limit + 1)) }
{
    let mut bytes = Vec::new(alloc);
    let mut buf = [0; PIECE];
    'pieces: loop {
        let room = limit - bytes.len() as u64;
        let most = room.min(PIECE as u64 - 1) as usize + 1;
        let piece = &mut buf[..most];
        let count = match src.read(piece) {
            Ok(count) => count,
            Err(Failed) => return Err(ReadAllFault::ReadFault),
        };
        if count == 0 {
            return Ok(bytes);
        }
        if count as u64 > room {
            return Err(ReadAllFault::TooLong);
        }
        if bytes.extend_from_slice(&piece[..count]).is_err() {
            return Err(ReadAllFault::Memory);
        }
    }
}

//! An answer is delivered: its bytes are put on out in pieces, and then its file is saved.
ghost use Rattle.std.specs.Prelude.{◌≡◌};
ghost use Rattle.k_edge.specs.SinkWords.{Puts};
ghost use Rattle.k_top_lemmas.specs.Parts.{Delivers, PutsAll, SavesFile};

use k_edge::{Files, PutFault, Sink};
use k_top_answers::{Answer, Failure, SavedFile};
use std::alloc::Global;

/// How many bytes are put at a time.
const PIECE: usize = 65_536;

/// Puts all the bytes, in pieces of 65,536 bytes; the last one may be shorter and is not empty.
fn put_all<K: Sink>(out: &mut K, bytes: &[u8]) -> Result<(), PutFault>
    ensures { PutsAll result bytes.now (K.seen out.old) (K.seen out.new) }
{
    let mut rest = bytes;
    while !rest.is_empty() {
        let (piece, others) = rest.split_at(PIECE.min(rest.len()));
        match out.put(piece) {
            Ok(()) => rest = others,
            Err(fault) => return Err(fault),
        }
    }
    Ok(())
}

/// Saves the file of an answer, if it has one.
fn save_file<F: Files>(
    alloc: Global,
    saved: &Option<SavedFile>,
    files: &mut F,
) -> Result<(), Failure>
    ensures { SavesFile result saved.now (F.seen files.old) (F.seen files.new) }
{
    match saved {
        None => Ok(()),
        Some(file) => Ok(files.save(alloc, file.name.as_str(), file.bytes.as_slice())?),
    }
}

/// Puts the bytes of an answer on out, and then saves its file.
pub(crate) fn deliver<F: Files, K: Sink>(
    alloc: Global,
    answer: &Answer,
    files: &mut F,
    out: &mut K,
) -> Result<(), Failure>
    ensures { Delivers result answer.now (F.seen files.old) (F.seen files.new) (K.seen out.old) (K.seen out.new) }
{
    put_all(out, answer.out.as_slice())?;
    save_file(alloc, &answer.saved, files)
}

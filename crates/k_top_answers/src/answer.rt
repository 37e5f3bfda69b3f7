//! What the call answers.
ghost use Rattle.std.specs.Prelude.{◌≡◌};
ghost use Rattle.k_top_answers.specs.Answers.{checked, done, ended};
ghost use Rattle.k_top_answers.specs.Merges.{saving};

use crate::failure::Failure;
use k_ending::End;
use k_num::{Seq, Text};
use std::alloc::Global;

/// A file that is saved.
#[derive(Drop)]
pub struct SavedFile {
    pub name: Text,
    pub bytes: Seq<u8>,
}

/// What the call answers: what is put on out, why it does not end with status 0, if it doesn't, what more is told of that on err,
/// behind the line that tells why, if more is, and the file that is saved, if one is.
#[derive(Drop)]
pub struct Answer {
    pub out: Seq<u8>,
    pub failure: Option<Failure>,
    pub more: Option<Seq<u8>>,
    pub saved: Option<SavedFile>,
}

impl Answer {
    /// A text, and nothing more.
    pub fn done(text: Vec<u8>) -> Answer
        ensures { result ≡ done text.items }
    {
        Answer {
            out: Seq::from_vec(text),
            failure: None,
            more: None,
            saved: None,
        }
    }

    /// Nothing is put on out, and these bytes are saved.
    pub fn saving(alloc: Global, name: Text, bytes: Vec<u8>) -> Answer
        ensures { result ≡ saving name bytes.items }
    {
        Answer {
            out: Seq::new(alloc),
            failure: None,
            more: None,
            saved: Some(SavedFile {
                name,
                bytes: Seq::from_vec(bytes),
            }),
        }
    }

    /// Nothing is put on out, and this is told on err behind the line of a failure.
    pub fn checked(alloc: Global, text: Vec<u8>, failure: Failure) -> Answer
        ensures { result ≡ checked text.items failure }
    {
        Answer {
            out: Seq::new(alloc),
            failure: Some(failure),
            more: Some(Seq::from_vec(text)),
            saved: None,
        }
    }

    /// What a run puts on out that might make so many operations and ended so, where nothing is saved.
    pub fn ended(out: Seq<u8>, steps: u64, end: End) -> Answer
        ensures { result ≡ ended out steps end }
    {
        Answer {
            out,
            failure: Failure::of_end(steps, end),
            more: None,
            saved: None,
        }
    }
}

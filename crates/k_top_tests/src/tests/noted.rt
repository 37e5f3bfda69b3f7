//! Files, inputs and sinks that note in one list what is asked of them.
use k_edge::{Failed, Files, LoadFault, PutFault, SaveFault, Sink, Source};
use std::alloc::{AllocError, Global};
use std::cell::RefCell;

/// What was asked, a line for each call.
pub type Notes = RefCell<String>;

/// One of these, with the list in which it notes each call.
#[derive(Drop)]
pub struct Noted<'a, T> {
    inner: T,
    what: &'static str,
    notes: &'a Notes,
}

impl<'a, T> Noted<'a, T> {
    /// `what` is what a call is noted as, where it has no name of its own.
    pub fn new(inner: T, what: &'static str, notes: &'a Notes) -> Noted<'a, T> {
        Noted { inner, what, notes }
    }

    /// What it notes of.
    pub fn inner(&self) -> &T {
        &self.inner
    }
}

/// Adds a line on a call that names a file.
fn push_name(lines: &mut String, what: &str, name: &str) -> Result<(), AllocError> {
    lines.push_str(what)?;
    lines.push_str(" ")?;
    lines.push_str(name)?;
    lines.push_str("\n")
}

/// Notes a call that names a file. Where no memory is found the line is wanting, and the list is not the wanted one.
fn note_name(notes: &Notes, what: &str, name: &str) {
    if let Ok(mut lines) = notes.try_borrow_mut() {
        let _ = push_name(&mut lines, what, name);
    }
}

/// Notes a call of so many bytes.
fn note_count(notes: &Notes, what: &str, count: usize) {
    if let Ok(mut lines) = notes.try_borrow_mut() {
        let _ = write!(lines, "{what} {count}\n");
    }
}

impl<F: Files> Files for Noted<'_, F> {
    ghost seen = { λ noted. F.seen noted.inner };

    fn load(&mut self, alloc: Global, name: &str, limit: u64) -> Result<Vec<u8>, LoadFault> {
        note_name(self.notes, "load", name);
        self.inner.load(alloc, name, limit)
    }

    fn save(&mut self, alloc: Global, name: &str, bytes: &[u8]) -> Result<(), SaveFault> {
        note_name(self.notes, "save", name);
        self.inner.save(alloc, name, bytes)
    }
}

impl<S: Source> Source for Noted<'_, S> {
    ghost seen = { λ noted. S.seen noted.inner };

    fn read(&mut self, buf: &mut [u8]) -> Result<usize, Failed> {
        note_name(self.notes, "read", self.what);
        self.inner.read(buf)
    }
}

impl<K: Sink> Sink for Noted<'_, K> {
    ghost seen = { λ noted. K.seen noted.inner };

    fn put(&mut self, piece: &[u8]) -> Result<(), PutFault> {
        note_count(self.notes, self.what, piece.len());
        self.inner.put(piece)
    }
}

//! Statements of a source, and what is noted of each.
use k_code::Code;
use k_marks_meaning::Marks;
use k_num::NoMemory;
use k_sources::{Reader, read_source};
use k_types_meaning::{TStmt, TUnit};
use k_wide::{note_action, note_kept, option_step, step_in_test};
use k_wide_meaning::Occurrence;
use std::alloc::Global;
use std::test::Fail;

/// What is noted of a statement.
#[derive(Clone, Copy, Debug, PartialEq, Eq)]
enum Noted {
    /// An expression statement, with so many reads of a reduction.
    Reads(usize),
    /// An `if`, which keeps the least or the greatest, or not.
    Keeps(bool),
    /// A loop, in whose test or step is a step, or not.
    Steps(bool),
    /// Another statement.
    Nothing,
    /// There was no memory.
    Memory,
}

/// How many of these reduce a scalar.
fn reads_in(found: &[Occurrence]) -> usize {
    found
        .iter()
        .filter(|what| matches!(what, Occurrence::Reduces(_)))
        .count()
}

/// What is noted of a statement.
fn watched(alloc: Global, stmt: &TStmt) -> Result<Noted, NoMemory> {
    let mut found = Vec::new(alloc);
    match stmt {
        TStmt::Expr { value, .. } => {
            note_action(alloc, value.get(), &mut found)?;
            Ok(Noted::Reads(reads_in(found.as_slice())))
        }
        TStmt::If { test, then, .. } => match then.get() {
            TStmt::Expr { value, .. } => Ok(Noted::Keeps(note_kept(
                alloc,
                test.get(),
                value.get(),
                &mut found,
            )?)),
            _ => Ok(Noted::Nothing),
        },
        TStmt::While { test, .. } => Ok(Noted::Steps(step_in_test(test.get()).is_some())),
        TStmt::For { step, .. } => Ok(Noted::Steps(option_step(step).is_some())),
        _ => Ok(Noted::Nothing),
    }
}

/// The statement that is watched, by its number, and what is noted of it.
#[derive(Drop)]
struct Watching {
    alloc: Global,
    number: usize,
    noted: Noted,
}

impl Reader for Watching {
    fn take(&mut self, unit: &TUnit, _marks: &Marks, _code: &Code) {
        if let Some(function) = unit.functions.as_slice().first() {
            if let Some(stmt) = function.body.as_slice().get(self.number) {
                self.noted = match watched(self.alloc, stmt) {
                    Ok(noted) => noted,
                    Err(NoMemory) => Noted::Memory,
                };
            }
        }
    }
}

/// A source, of whose function each statement is watched.
const SOURCE: &str =
    "int a[4]; int main(void) { int s = 0; int i = 1; s += i; s = i + s; s = i - s; s = i < s ? i : s; \
s = s < i ? s : i; s = i < s ? 2 : s; s++; if (a[i] < s) s = a[i]; if (a[i] < s) s = a[i + 1]; while (i--) s = 1; \
for (i = 0; i < 4; i = 2 + i) s = 1; for (i = 0; i < 4; i = 2 - i) s = 1; return s; }";

/// What is to be noted of each statement.
static WANTED: [Noted; 15] = [
    Noted::Nothing,
    Noted::Nothing,
    Noted::Reads(1),
    Noted::Reads(1),
    Noted::Reads(0),
    Noted::Reads(2),
    Noted::Reads(2),
    Noted::Reads(0),
    Noted::Reads(1),
    Noted::Keeps(true),
    Noted::Keeps(false),
    Noted::Steps(true),
    Noted::Steps(true),
    Noted::Steps(false),
    Noted::Nothing,
];

#[test]
fn statements(rt: HostRuntime) -> Result<(), Fail> {
    for (number, want) in WANTED.iter().enumerate() {
        let mut watching = Watching {
            alloc: rt.alloc(),
            number,
            noted: Noted::Memory,
        };
        let read = read_source(rt.alloc(), SOURCE.as_bytes(), &mut watching);
        assert!(rt; read);
        assert_eq!(rt; watching.noted, *want);
    }
    Ok(())
}

//! What statements declare, and their loops, noted in text order.
ghost use Rattle.std.specs.Prelude.{◌≡◌, ◌++◌, map, option_map, OnOk};
ghost use Rattle.k_pragma_written.specs.Names as names;
ghost use Rattle.k_pragma_written.specs.Loops as loops;

use crate::heads::is_bare;
use crate::names::{push_declared, push_first};
use k_num::{Box, NoMemory, Seq, Text};
use k_tree::{Part, Stmt};
use std::alloc::Global;

/// What is noted of statements: the names that they declare, and of each of their loops whether its head is of one variable, written bare.
#[derive(Drop)]
pub(crate) struct Noted {
    pub names: Seq<Text>,
    pub bare: Seq<bool>,
}

/// Notes a statement.
#[cycle(statements)]
pub(crate) fn note(alloc: Global, stmt: &Stmt, noted: &mut Noted) -> Result<(), NoMemory>
    ensures names { OnOk result (noted.new.names ≡ noted.old.names ++ names.names_in stmt.now) }
    ensures bare { OnOk result (noted.new.bare ≡ noted.old.bare ++ loops.loops_in stmt.now) }
{
    match stmt {
        Stmt::Expr { .. }
        | Stmt::Empty { .. }
        | Stmt::Break { .. }
        | Stmt::Continue { .. }
        | Stmt::Return { .. } => Ok(()),
        Stmt::Block { parts, .. } => note_all(alloc, parts, noted),
        Stmt::If { then, other, .. } => {
            note(alloc, then.get(), noted)?;
            note_other(alloc, other, noted)
        }
        Stmt::While { body, .. } | Stmt::DoWhile { body, .. } => {
            noted.bare.push(false)?;
            note(alloc, body.get(), noted)
        }
        Stmt::For {
            first,
            test,
            step,
            body,
            ..
        } => {
            noted.bare.push(is_bare(first, test, step))?;
            push_first(alloc, first, &mut noted.names)?;
            note(alloc, body.get(), noted)
        }
        Stmt::Switch { parts, .. } => note_parts(alloc, parts, noted),
        Stmt::Declare { list, .. } => push_declared(alloc, list, &mut noted.names),
    }
}

/// Notes the `else` of an `if`, if there is one.
#[cycle(statements)]
fn note_other(alloc: Global, other: &Option<Box<Stmt>>, noted: &mut Noted) -> Result<(), NoMemory>
    ensures names { OnOk result (noted.new.names ≡ noted.old.names ++ names.if_there (option_map names.names_in other.now)) }
    ensures bare { OnOk result (noted.new.bare ≡ noted.old.bare ++ loops.if_there (option_map loops.loops_in other.now)) }
{
    match other {
        None => Ok(()),
        Some(other) => note(alloc, other.get(), noted),
    }
}

/// Notes statements in a row.
#[cycle(statements)]
pub(crate) fn note_all(alloc: Global, parts: &Seq<Stmt>, noted: &mut Noted) -> Result<(), NoMemory>
    ensures names { OnOk result (noted.new.names ≡ noted.old.names ++ names.in_rows (map names.names_in parts.now)) }
    ensures bare { OnOk result (noted.new.bare ≡ noted.old.bare ++ loops.in_rows (map loops.loops_in parts.now)) }
{
    for part in parts.as_slice() {
        note(alloc, part, noted)?;
    }
    Ok(())
}

/// Notes the parts of a `switch`.
#[cycle(statements)]
fn note_parts(alloc: Global, parts: &Seq<Part>, noted: &mut Noted) -> Result<(), NoMemory>
    ensures names { OnOk result (noted.new.names ≡ noted.old.names ++ names.in_rows (map names.part_names_in parts.now)) }
    ensures bare { OnOk result (noted.new.bare ≡ noted.old.bare ++ loops.in_rows (map loops.part_loops_in parts.now)) }
{
    for part in parts.as_slice() {
        note_part(alloc, part, noted)?;
    }
    Ok(())
}

/// Notes a part of a `switch`.
#[cycle(statements)]
fn note_part(alloc: Global, part: &Part, noted: &mut Noted) -> Result<(), NoMemory>
    ensures names { OnOk result (noted.new.names ≡ noted.old.names ++ names.part_names_in part.now) }
    ensures bare { OnOk result (noted.new.bare ≡ noted.old.bare ++ loops.part_loops_in part.now) }
{
    match part {
        Part::Case { .. } | Part::Default { .. } => Ok(()),
        Part::Does { stmt, .. } => note(alloc, stmt.get(), noted),
    }
}

//! What is known of each variable in a loop. One table serves for all loops of a function: an entry that was
//! written in another loop says nothing.
ghost use Rattle.std.specs.Prelude.{◌≡◌, ◌<◌, ◌==◌, length};
ghost use Rattle.k_marks_meaning.specs.Loops.{same_group};
ghost use Rattle.k_marks.specs.Known.{how_behind, behind, variable_in, allows, look, table_with, table_with_all};

use k_marks_meaning::{Group, Use};

/// How a variable occurs, beside that it may be assigned.
#[derive(Clone, Copy, Debug, PartialEq, Eq)]
pub(crate) enum How {
    /// Not at all.
    Nowhere,
    /// Only in statements that reduce it by operators of a group.
    By(Group),
    /// Elsewhere too.
    Elsewhere,
}

/// What is known of a variable.
#[derive(Clone, Copy, Debug, PartialEq, Eq)]
pub(crate) struct Occurrence {
    pub(crate) assigned: bool,
    pub(crate) how: How,
}

/// What is known of a variable in the loop with the number `turn`.
#[derive(Clone, Copy, Debug, PartialEq, Eq)]
pub(crate) struct Entry {
    pub(crate) turn: u64,
    pub(crate) known: Occurrence,
}

/// Whether two groups are one.
pub(crate) fn same_group(first: Group, second: Group) -> bool
    ensures { result ≡ same_group first second }
{
    match first {
        Group::Sums => matches!(second, Group::Sums),
        Group::Products => matches!(second, Group::Products),
        Group::Ands => matches!(second, Group::Ands),
        Group::Ors => matches!(second, Group::Ors),
        Group::Xors => matches!(second, Group::Xors),
    }
}

/// How a variable occurs behind a statement that reduces it.
fn how_behind(how: How, group: Group) -> How
    ensures { result ≡ how_behind how group }
{
    match how {
        How::Nowhere => How::By(group),
        How::By(known) => {
            if same_group(known, group) {
                How::By(known)
            } else {
                How::Elsewhere
            }
        }
        How::Elsewhere => How::Elsewhere,
    }
}

/// Whether a variable may be one that operators of a group reduce.
pub(crate) fn allows(how: How, group: Group) -> bool
    ensures { result ≡ allows how group }
{
    match how {
        How::Nowhere => true,
        How::By(known) => same_group(known, group),
        How::Elsewhere => false,
    }
}

/// The variable to which something happens.
fn variable_in(what: Use) -> u32
    ensures { result ≡ variable_in what }
{
    match what {
        Use::Names(variable) | Use::Assigns(variable) | Use::Declares(variable) => variable,
        Use::Reduces(by) => by.variable,
    }
}

/// What is known of a variable behind what happens to it.
fn behind(what: Use, known: Occurrence) -> Occurrence
    ensures { result ≡ behind what known }
{
    match what {
        Use::Names(_) | Use::Declares(_) => Occurrence {
            assigned: known.assigned,
            how: How::Elsewhere,
        },
        Use::Assigns(_) => Occurrence {
            assigned: true,
            how: How::Elsewhere,
        },
        Use::Reduces(by) => Occurrence {
            assigned: true,
            how: how_behind(known.how, by.group),
        },
    }
}

/// What is known of a variable in this loop.
pub(crate) fn look(table: &[Entry], turn: u64, variable: u32) -> Occurrence
    ensures { result ≡ look turn table.now variable }
{
    match table.get(variable as usize) {
        Some(entry) if entry.turn == turn => entry.known,
        _ => Occurrence {
            assigned: false,
            how: How::Nowhere,
        },
    }
}

/// Notes what happens to a variable.
#[tactic(auto, using(std::proofs::lemmas::List::set_past))]
fn note_use(table: &mut [Entry], turn: u64, what: Use)
    ensures { table.new ≡ table_with turn what table.old }
{
    let variable = variable_in(what);
    let known = behind(what, look(table, turn, variable));
    let at = variable as usize;
    if at < table.len() {
        table[at] = Entry { turn, known };
    }
}

/// Notes all that happens in a loop.
pub(crate) fn note_uses(table: &mut [Entry], turn: u64, uses: &[Use])
    ensures { table.new ≡ table_with_all turn uses.now table.old }
{
    for what in uses {
        note_use(table, turn, *what);
    }
}

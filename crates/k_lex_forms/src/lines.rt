//! The lines of a source, by what they are.
ghost use Rattle.std.specs.Prelude.{◌≡◌, ◌^◌, ◌<◌, ◌∷◌, ◌++◌, length, IfOk, OnOk};
ghost use Rattle.k_lex_forms.specs.Sources as spec;
ghost use Rattle.k_lex_forms.specs.Tokens as found;

use crate::directives::{behind_hash, lexical};
use crate::tokens::{first_fault, right_tokens};
use k_lex_bodies::is_spelled;
use k_lex_lines::Line;
use k_lex_pieces::fault::Fault;
use k_lex_sources::{Cut, Row, cut_rows};
use k_num::{NoMemory, Place, Seq};
use std::alloc::Global;

/// A line that is broken by a fault, if there is one.
fn push_broken(lines: &mut Seq<Line>, always: bool, fault: Option<Fault>) -> Result<(), NoMemory>
    ensures { OnOk result (lines.new ≡ lines.old ++ spec.broken_by always fault) }
{
    match fault {
        None => Ok(()),
        Some(fault) => lines.push(Line::Broken(always, lexical(fault))),
    }
}

/// The tokens of a line of text, if there are any that are right.
#[tactic(auto, using(crate::proofs::TextLaws::some_text))]
fn push_tokens(alloc: Global, lines: &mut Seq<Line>, cuts: &[Cut]) -> Result<(), NoMemory>
    ensures { OnOk result (lines.new ≡ lines.old ++ spec.text_of (found.right_tokens cuts.now)) }
{
    let tokens = right_tokens(alloc, cuts)?;
    if tokens.is_empty() {
        return Ok(());
    }
    lines.push(Line::Text(tokens))
}

/// A line of text.
fn push_text(
    alloc: Global,
    lines: &mut Seq<Line>,
    cuts: &[Cut],
    end: Option<Fault>,
) -> Result<(), NoMemory>
    ensures { OnOk result (lines.new ≡ lines.old ++ spec.text_lines cuts.now end) }
{
    push_tokens(alloc, lines, cuts)?;
    push_broken(lines, false, first_fault(cuts))?;
    push_broken(lines, true, end)
}

/// A line that begins with this token.
fn push_begun(
    alloc: Global,
    lines: &mut Seq<Line>,
    first: &Cut,
    rest: &[Cut],
    cuts: &[Cut],
    end: Option<Fault>,
) -> Result<(), NoMemory>
    requires { cuts.now ≡ first.now ∷ rest.now }
    ensures { OnOk result (lines.new ≡ lines.old ++ spec.lines_of_row cuts.now end) }
{
    if is_spelled(b"#", first) {
        lines.push(behind_hash(alloc, first.place, end, rest)?)?;
        push_broken(lines, true, end)
    } else {
        push_text(alloc, lines, cuts, end)
    }
}

/// What a line is.
fn push_row(alloc: Global, lines: &mut Seq<Line>, row: &Row) -> Result<(), NoMemory>
    ensures { OnOk result (lines.new ≡ lines.old ++ spec.lines_of_row row.now.cuts row.now.fault) }
{
    let cuts = row.cuts.as_slice();
    match cuts.split_first() {
        None => push_broken(lines, true, row.fault),
        Some((first, rest)) => push_begun(alloc, lines, first, rest, cuts, row.fault),
    }
}

/// What some lines are.
fn lines_of_rows(alloc: Global, rows: &[Row]) -> Result<Seq<Line>, NoMemory>
    ensures { IfOk result (λ lines. lines ≡ spec.lines_of rows.now) }
{
    let mut lines = Seq::new(alloc);
    for row in rows {
        push_row(alloc, &mut lines, row)?;
    }
    Ok(lines)
}

/// The lines of a source, where the `#pragma`s with these `#` stand in groups that aren't read. The caller has tested
/// the length.
pub fn lines_of(alloc: Global, unread: &[Place], source: &[u8]) -> Result<Seq<Line>, NoMemory>
    requires { length source.now < 2 ^ 31 }
    ensures { IfOk result (λ lines. lines ≡ spec.lines unread.now source.now) }
{
    let rows = cut_rows(alloc, unread, source)?;
    lines_of_rows(alloc, rows.as_slice())
}

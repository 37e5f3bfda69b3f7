//! What stands before the statements of a `switch`: its value, its cases, and the jump to its default (C17 6.8.4.2).
ghost use Rattle.std.specs.Prelude.{◌≡◌, ◌+◌, length, map, IfOk};
ghost use Rattle.k_marks_meaning.specs.Jumps.{is_left, out_of_switch};
ghost use Rattle.k_lower_code.specs.Switches.{skips_size as skips_size_meant};
ghost use Rattle.k_lower_cases.specs.Cases.{front_in, is_any as is_any_meant, skip as skip_meant, with_breaks};
ghost use Rattle.k_lower_expressions.specs.Arounds.{inside_of, program_of};
ghost use Rattle.k_lower_expressions.specs.Emits.{Emits};
ghost use Rattle.k_lower_extents.specs.Extents.{ArePartsExtents, lowered_part};
ghost use Rattle.k_lower_statements.specs.Sites.{site_of};

use crate::counts::{before_default, cases_size};
use crate::selects::cases;
use k_code::{Do, Instr};
use k_lower_expressions::{Around, above, does, next_number, value};
use k_lower_extents::Extent;
use k_lower_statements::{Site, temporary};
use k_marks_jumps::any;
use k_marks_meaning::Jumps;
use k_num::{Box, Kind, NoMemory, Place, Seq};
use k_types_meaning::{TExpr, TPart};

/// Whether there are any instructions.
fn is_any(count: u32) -> bool
    ensures { result ≡ is_any_meant count }
{
    count != 0
}

/// How many instructions the jump over so many has: it is left out where there are none.
fn skip_size(count: u32) -> u32
    ensures { result ≡ skips_size_meant count }
{
    if count == 0 { 0 } else { 1 }
}

/// Emits the jump over so many instructions, where there are any.
fn skip(around: &Around<'_>, place: Place, count: u32, out: &mut Vec<Instr>) -> Result<(), NoMemory>
    ensures { Emits result (skip_meant (program_of around.now) place count) out.old.items out.new.items }
{
    if count == 0 {
        return Ok(());
    }
    let number = next_number(out)?;
    let behind = above(number, 1)?;
    let to = above(behind, count)?;
    does(around, place, Do::Jump { to }, out)
}

/// Emits what stands before the statements of a switch: its value, used where there is a case, its cases, and the jump to its default or past
/// all statements. The table has the extents of the statements.
pub fn begin_switch(
    table: &[Option<Extent>],
    on: &Box<TExpr>,
    parts: &Seq<TPart>,
    kind: Kind,
    place: Place,
    around: &Around<'_>,
    out: &mut Vec<Instr>,
) -> Result<(), NoMemory>
    ensures { ArePartsExtents table.now (inside_of around.now) parts.now → Emits result (front_in (inside_of around.now) place kind on.now (map (lowered_part (inside_of around.now)) parts.now)) out.old.items out.new.items }
{
    let r = temporary(around)?;
    let size = cases_size(parts)?;
    let before = before_default(table, parts)?;
    let a = value(on.get(), is_any(size), r, around, out)?;
    let number = next_number(out)?;
    let behind = above(number, size)?;
    let statements = above(behind, skip_size(before))?;
    cases(table, parts, kind, r, a, statements, around, out)?;
    skip(around, place, before, out)
}

/// The site of the statements of a switch, which are so many instructions and are emitted next: a `break` goes to their end.
pub fn site_within(site: Site, size: u32, out: &Vec<Instr>) -> Result<Site, NoMemory>
    ensures { IfOk result (λ inner. site_of inner ≡ with_breaks (site_of site) (length out.now.items + size)) }
{
    let number = next_number(out)?;
    let breaks = above(number, size)?;
    Ok(Site {
        objects: site.objects,
        breaks,
        continues: site.continues,
    })
}

/// Whether the control source behind a switch stays as its statements leave it, of which this is the extent.
pub fn stays_behind(statements: Extent) -> bool
    ensures { result ≡ is_left (out_of_switch statements.jumps) }
{
    any(Jumps {
        breaks: false,
        continues: statements.jumps.continues,
        returns: statements.jumps.returns,
    })
}

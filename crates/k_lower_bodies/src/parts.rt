//! What statements with parts need that is no walk over their parts.
ghost use Rattle.std.specs.Prelude.{ℕ, ◌≡◌, ◌+◌, true, map, IfOk};
ghost use Rattle.std.specs.Option.{option_copied};
ghost use Rattle.k_num.specs.declared.place.Place.{Place};
ghost use Rattle.k_evaluation.specs.Loops.{stays_behind_loop as stays_meant};
ghost use Rattle.k_lower_code.specs.Declarations.{means, temporary as temporary_meant};
ghost use Rattle.k_lower_code.specs.Statements.{lowered};
ghost use Rattle.k_lower_code.specs.Stretches.{Inside, in_order};
ghost use Rattle.k_lower_code.specs.Switches.{statements_of};
ghost use Rattle.k_lower_bodies.specs.Bodies.{begun, closes};
ghost use Rattle.k_lower_expressions.specs.Arounds.{inside_of, program_of};
ghost use Rattle.k_lower_expressions.specs.Emits.{Emits};
ghost use Rattle.k_lower_extents.specs.Extents.{AreExtents, ArePartsExtents, extent_of as extent_meant, lowered_part};

use k_code::{Arg, Do, Instr};
use k_lower_blocks::BlockRest;
use k_lower_expressions::{Around, does, value};
use k_lower_extents::{Extent, extent_at, part_rests_at};
use k_lower_statements::{Site, temporary};
use k_lower_turns::Turns;
use k_num::{Box, NoMemory, Place, Seq, Stack};
use k_types_meaning::{TExpr, TPart, TStmt};
use std::alloc::Global;

/// An expression that may be left out, as it is lent.
pub(crate) fn lent<'a>(e: &'a Option<Box<TExpr>>) -> Option<&'a Box<TExpr>>
    ensures { option_copied result ≡ e.now }
{
    e.as_ref()
}

/// Emits the test of an `if`, and answers its value.
pub(crate) fn test_value(
    test: &Box<TExpr>,
    around: &Around<'_>,
    out: &mut Vec<Instr>,
) -> Result<Arg, NoMemory>
    ensures { Emits result ((means (inside_of around.now) test.now).value true (temporary_meant (inside_of around.now))) out.old.items out.new.items }
{
    let r = temporary(around)?;
    value(test.get(), true, r, around, out)
}

/// The extent of a statement in a box, which a table has.
pub(crate) fn boxed_extent(table: &[Option<Extent>], stmt: &Box<TStmt>) -> Result<Extent, NoMemory>
    ensures { IfOk result (λ x. (w : Inside) → AreExtents table.now w stmt.now → x ≡ extent_meant (lowered w stmt.now)) }
{
    extent_at(table, stmt.get())
}

/// The extent of all statements of a switch, which a table has.
pub(crate) fn parts_extent(
    alloc: Global,
    table: &[Option<Extent>],
    parts: &Seq<TPart>,
) -> Result<Extent, NoMemory>
    ensures { IfOk result (λ x. (w : Inside) (place : Place) → ArePartsExtents table.now w parts.now → x ≡ extent_meant (in_order w.program place (statements_of (map (lowered_part w) parts.now)))) }
{
    let mut rests = part_rests_at(alloc, table, parts)?;
    let Some(all) = rests.pop() else {
        return Err(NoMemory);
    };
    Ok(all)
}

/// Whether the control source behind a loop stays as the loop leaves it.
pub(crate) fn stays_behind_loop(turns: Turns) -> bool
    ensures { result ≡ stays_meant turns.counted turns.body.jumps }
{
    !turns.counted && turns.body.jumps.returns
}

/// A block of which nothing was emitted yet.
pub(crate) fn begin(alloc: Global, site: Site, rests: Stack<Extent>) -> BlockRest
    ensures { result ≡ begun site rests }
{
    BlockRest {
        site,
        opens: 0,
        rests,
        endings: Stack::new(alloc),
    }
}

/// How many objects of the call were made since it had those of the site.
pub(crate) fn made(site: Site, objects: u32) -> u32
    ensures { (n : ℕ) → objects ≡ site.objects + n → result ≡ n }
{
    objects.saturating_sub(site.objects)
}

/// So many objects of the call die, where there are any.
pub(crate) fn close_made(
    around: &Around<'_>,
    place: Place,
    count: u32,
    out: &mut Vec<Instr>,
) -> Result<(), NoMemory>
    ensures { Emits result (closes (program_of around.now) place count) out.old.items out.new.items }
{
    if count == 0 {
        return Ok(());
    }
    does(around, place, Do::ObjectsClose { count }, out)
}

//! The walk over statements that emits them.
ghost use Rattle.std.specs.Prelude.{◌≡◌, None, Some, true, false, map, OnOk};
ghost use Rattle.std.specs.Option.{option_copied};
ghost use Rattle.k_lower_bodies.specs.Bodies.{NextEmitted, PartEmitted, iterates};
ghost use Rattle.k_lower_cases.specs.Cases.{switches_in};
ghost use Rattle.k_lower_code.specs.Declarations.{means, temporary as temporary_meant};
ghost use Rattle.k_lower_code.specs.Loops.{inside_loop, source_loop};
ghost use Rattle.k_lower_code.specs.Statements.{for_loop, if_else, lowered, one_arm as one_arm_meant, two_arms as two_arms_meant};
ghost use Rattle.k_lower_code.specs.Stretches.{in_order};
ghost use Rattle.k_lower_code.specs.Switches.{statements_of, switch as switch_meant};
ghost use Rattle.k_lower_expressions.specs.Arounds.{inside_of, program_of};
ghost use Rattle.k_lower_expressions.specs.Emits.{Emits};
ghost use Rattle.k_lower_extents.specs.Extents.{AreAllExtents, AreEntries, AreExtents, ArePartsExtents, extent_of as extent_meant, listed_part, lowered_part};
ghost use Rattle.k_lower_statements.specs.Sites.{at_site, site_of};
ghost use Rattle.k_lower_turns.specs.Turns.{loop_of};

use crate::parts::{
    begin, boxed_extent, close_made, lent, made, parts_extent, stays_behind_loop, test_value,
};
use k_code::Instr;
use k_lower_blocks::{
    BlockRest, arms_left, back_unless, end_all, enter_block, pass_arm, pass_statement, place_of,
    save_unless, test_one, test_two,
};
use k_lower_cases::{begin_switch, site_within, stays_behind};
use k_lower_expressions::Around;
use k_lower_extents::{Extent, extent_at, part_rests_at, rests_at};
use k_lower_statements::{Site, break_out, declare, evaluate, go_on, leave as return_out, start};
use k_lower_turns::{Turns, enter, leave, turns_of};
use k_num::{Box, Kind, NoMemory, Place, Seq};
use k_types_meaning::{Spot, TExpr, TFirst, TPart, TStmt};

/// Emits a statement at this site. The table has its extent and those of the statements in it.
#[cycle(statements)]
fn statement(
    stmt: &TStmt,
    table: &[Option<Extent>],
    site: Site,
    around: &Around<'_>,
    out: &mut Vec<Instr>,
) -> Result<(), NoMemory>
    ensures { AreExtents table.now (inside_of around.now) stmt.now → Emits result (at_site (site_of site) (lowered (inside_of around.now) stmt.now)) out.old.items out.new.items }
{
    match stmt {
        TStmt::Expr { spot, value } => evaluate(value, spot, site, around, out),
        TStmt::Empty { .. } => Ok(()),
        TStmt::Block { spot, parts } => statements(parts, spot.place, table, site, around, out),
        TStmt::If {
            spot,
            test,
            then,
            other,
        } => match other {
            None => if_one(then, test, spot, table, site, around, out),
            Some(other) => if_two(then, other, test, spot, table, site, around, out),
        },
        TStmt::Switch {
            spot,
            kind,
            on,
            parts,
        } => choose(parts, spot, *kind, on, table, site, around, out),
        TStmt::Break { spot } => break_out(spot, site, around, out),
        TStmt::Continue { spot } => go_on(spot, site, around, out),
        TStmt::Return { spot, value } => return_out(value, spot, site, around, out),
        TStmt::Declare { spot, list } => {
            declare(list, spot, site, around, out)?;
            Ok(())
        }
        _ => loop_statement(stmt, table, site, around, out),
    }
}

/// Emits a statement that is a loop.
#[cycle(statements)]
fn loop_statement(
    stmt: &TStmt,
    table: &[Option<Extent>],
    site: Site,
    around: &Around<'_>,
    out: &mut Vec<Instr>,
) -> Result<(), NoMemory>
    requires { iterates stmt.now ≡ true }
    ensures { AreExtents table.now (inside_of around.now) stmt.now → Emits result (at_site (site_of site) (lowered (inside_of around.now) stmt.now)) out.old.items out.new.items }
{
    match stmt {
        TStmt::While {
            spot,
            turns,
            test,
            body,
        } => repeat_while(body, spot, *turns, true, test, table, site, around, out),
        TStmt::DoWhile {
            spot,
            turns,
            body,
            test,
        } => repeat_while(body, spot, *turns, false, test, table, site, around, out),
        TStmt::For {
            spot,
            turns,
            first,
            test,
            step,
            body,
        } => repeat_from(
            body, spot, *turns, first, test, step, table, site, around, out,
        ),
        _ => unreachable!(),
    }
}

/// The same of a statement in a box.
#[cycle(statements)]
fn boxed(
    stmt: &Box<TStmt>,
    table: &[Option<Extent>],
    site: Site,
    around: &Around<'_>,
    out: &mut Vec<Instr>,
) -> Result<(), NoMemory>
    ensures { AreExtents table.now (inside_of around.now) stmt.now → Emits result (at_site (site_of site) (lowered (inside_of around.now) stmt.now)) out.old.items out.new.items }
{
    statement(stmt.get(), table, site, around, out)
}

/// Emits statements one behind another at this site: the objects that they make die at the end, which stands at this place where the last of
/// them makes any. The table has the extents of the statements.
#[cycle(statements)]
pub fn statements(
    list: &Seq<TStmt>,
    place: Place,
    table: &[Option<Extent>],
    site: Site,
    around: &Around<'_>,
    out: &mut Vec<Instr>,
) -> Result<(), NoMemory>
    ensures { AreAllExtents table.now (inside_of around.now) list.now → Emits result (at_site (site_of site) (in_order (program_of around.now) place (map (lowered (inside_of around.now)) list.now))) out.old.items out.new.items }
{
    let rests = rests_at(around.alloc, table, list)?;
    let mut block = begin(around.alloc, site, rests);
    for stmt in list.as_slice() {
        next_statement(stmt, &mut block, table, around, out)?;
    }
    enter_block(&mut block, place, out)?;
    end_all(&mut block.endings, around, out)
}

/// Emits the next statement of a block.
#[cycle(statements)]
fn next_statement(
    stmt: &TStmt,
    block: &mut BlockRest,
    table: &[Option<Extent>],
    around: &Around<'_>,
    out: &mut Vec<Instr>,
) -> Result<(), NoMemory>
    ensures { AreExtents table.now (inside_of around.now) stmt.now → OnOk result (NextEmitted (lowered (inside_of around.now) stmt.now) block.old block.new out.old.items out.new.items) }
{
    enter_block(block, place_of(stmt), out)?;
    statement(stmt, table, block.site, around, out)?;
    let extent = extent_at(table, stmt)?;
    pass_statement(block, extent.opens)?;
    Ok(())
}

/// Emits an `if` with one arm.
#[cycle(statements)]
fn if_one(
    then: &Box<TStmt>,
    test: &Box<TExpr>,
    spot: &Spot,
    table: &[Option<Extent>],
    site: Site,
    around: &Around<'_>,
    out: &mut Vec<Instr>,
) -> Result<(), NoMemory>
    ensures { AreExtents table.now (inside_of around.now) then.now → Emits result (at_site (site_of site) (if_else (inside_of around.now) spot.now test.now (lowered (inside_of around.now) then.now) None)) out.old.items out.new.items }
{
    let one = boxed_extent(table, then)?;
    let stays = arms_left(one, None);
    save_unless(stays, around, spot.place, out)?;
    one_arm(then, test, spot.place, one, table, site, around, out)?;
    back_unless(stays, around, spot.place, out)
}

/// Emits a test and its arm, which has this extent.
#[cycle(statements)]
fn one_arm(
    then: &Box<TStmt>,
    test: &Box<TExpr>,
    place: Place,
    one: Extent,
    table: &[Option<Extent>],
    site: Site,
    around: &Around<'_>,
    out: &mut Vec<Instr>,
) -> Result<(), NoMemory>
    ensures { AreExtents table.now (inside_of around.now) then.now → one ≡ extent_meant (lowered (inside_of around.now) then.now) → Emits result (at_site (site_of site) (one_arm_meant (program_of around.now) place ((means (inside_of around.now) test.now).value true (temporary_meant (inside_of around.now))) (lowered (inside_of around.now) then.now))) out.old.items out.new.items }
{
    let a = test_value(test, around, out)?;
    test_one(around, place, a, one, out)?;
    boxed(then, table, site, around, out)
}

/// Emits an `if` with two arms.
#[cycle(statements)]
fn if_two(
    then: &Box<TStmt>,
    other: &Box<TStmt>,
    test: &Box<TExpr>,
    spot: &Spot,
    table: &[Option<Extent>],
    site: Site,
    around: &Around<'_>,
    out: &mut Vec<Instr>,
) -> Result<(), NoMemory>
    ensures { AreExtents table.now (inside_of around.now) then.now → AreExtents table.now (inside_of around.now) other.now → Emits result (at_site (site_of site) (if_else (inside_of around.now) spot.now test.now (lowered (inside_of around.now) then.now) (Some (lowered (inside_of around.now) other.now)))) out.old.items out.new.items }
{
    let one = boxed_extent(table, then)?;
    let two = boxed_extent(table, other)?;
    let stays = arms_left(one, Some(two));
    save_unless(stays, around, spot.place, out)?;
    two_arms(
        then, other, test, spot.place, one, two, table, site, around, out,
    )?;
    back_unless(stays, around, spot.place, out)
}

/// Emits a test and its arms, which have these extents.
#[cycle(statements)]
fn two_arms(
    then: &Box<TStmt>,
    other: &Box<TStmt>,
    test: &Box<TExpr>,
    place: Place,
    one: Extent,
    two: Extent,
    table: &[Option<Extent>],
    site: Site,
    around: &Around<'_>,
    out: &mut Vec<Instr>,
) -> Result<(), NoMemory>
    ensures { AreExtents table.now (inside_of around.now) then.now → AreExtents table.now (inside_of around.now) other.now → one ≡ extent_meant (lowered (inside_of around.now) then.now) → two ≡ extent_meant (lowered (inside_of around.now) other.now) → Emits result (at_site (site_of site) (two_arms_meant (program_of around.now) place ((means (inside_of around.now) test.now).value true (temporary_meant (inside_of around.now))) (lowered (inside_of around.now) then.now) (lowered (inside_of around.now) other.now))) out.old.items out.new.items }
{
    let a = test_value(test, around, out)?;
    test_two(around, place, a, one, out)?;
    boxed(then, table, site, around, out)?;
    pass_arm(around, place, two, out)?;
    boxed(other, table, site, around, out)
}

/// Emits a loop, by its number among those of the source, and whether it begins with its test.
#[cycle(statements)]
fn repeat(
    body: &Box<TStmt>,
    spot: &Spot,
    number: u32,
    tested: bool,
    test: Option<&Box<TExpr>>,
    step: Option<&Box<TExpr>>,
    table: &[Option<Extent>],
    site: Site,
    around: &Around<'_>,
    out: &mut Vec<Instr>,
) -> Result<(), NoMemory>
    ensures { AreExtents table.now (inside_of around.now) body.now → Emits result (at_site (site_of site) (source_loop (inside_of around.now) spot.now number (option_copied test.entry) (option_copied step.entry) (lowered (inside_of around.now) body.now) tested)) out.old.items out.new.items }
{
    let extent = boxed_extent(table, body)?;
    let turns = turns_of(spot, number, tested, extent, around)?;
    let stays = stays_behind_loop(turns);
    save_unless(stays, around, spot.place, out)?;
    turn(body, turns, test, step, table, site, around, out)?;
    back_unless(stays, around, spot.place, out)
}

/// Emits a `while` or a `do`, which have a test and no step.
#[cycle(statements)]
fn repeat_while(
    body: &Box<TStmt>,
    spot: &Spot,
    number: u32,
    tested: bool,
    test: &Box<TExpr>,
    table: &[Option<Extent>],
    site: Site,
    around: &Around<'_>,
    out: &mut Vec<Instr>,
) -> Result<(), NoMemory>
    ensures { AreExtents table.now (inside_of around.now) body.now → Emits result (at_site (site_of site) (source_loop (inside_of around.now) spot.now number (Some test.now) None (lowered (inside_of around.now) body.now) tested)) out.old.items out.new.items }
{
    repeat(
        body,
        spot,
        number,
        tested,
        Some(test),
        None,
        table,
        site,
        around,
        out,
    )
}

/// Emits what a loop is in its region: its body, and what stands around it.
#[cycle(statements)]
fn turn(
    body: &Box<TStmt>,
    turns: Turns,
    test: Option<&Box<TExpr>>,
    step: Option<&Box<TExpr>>,
    table: &[Option<Extent>],
    site: Site,
    around: &Around<'_>,
    out: &mut Vec<Instr>,
) -> Result<(), NoMemory>
    ensures { AreExtents table.now (inside_of around.now) body.now → extent_meant (lowered (inside_of around.now) body.now) ≡ turns.body → Emits result (at_site (site_of site) (inside_loop (program_of around.now) (loop_of (inside_of around.now) turns (option_copied test.entry) (option_copied step.entry) (lowered (inside_of around.now) body.now)))) out.old.items out.new.items }
{
    let numbers = enter(turns, test, step, site, around, out)?;
    boxed(body, table, numbers.body, around, out)?;
    leave(turns, numbers, test, step, around, out)
}

/// Emits a `for`: what it declares dies where it is left.
#[cycle(statements)]
fn repeat_from(
    body: &Box<TStmt>,
    spot: &Spot,
    number: u32,
    first: &TFirst,
    test: &Option<Box<TExpr>>,
    step: &Option<Box<TExpr>>,
    table: &[Option<Extent>],
    site: Site,
    around: &Around<'_>,
    out: &mut Vec<Instr>,
) -> Result<(), NoMemory>
    ensures { AreExtents table.now (inside_of around.now) body.now → Emits result (at_site (site_of site) (for_loop (inside_of around.now) spot.now number first.now test.now step.now (lowered (inside_of around.now) body.now))) out.old.items out.new.items }
{
    let objects = start(first, site, around, out)?;
    let there = Site {
        objects,
        breaks: site.breaks,
        continues: site.continues,
    };
    let test = lent(test);
    let step = lent(step);
    repeat(
        body, spot, number, true, test, step, table, there, around, out,
    )?;
    close_made(around, spot.place, made(site, objects), out)
}

/// Emits a `switch`.
#[cycle(statements)]
fn choose(
    parts: &Seq<TPart>,
    spot: &Spot,
    kind: Kind,
    on: &Box<TExpr>,
    table: &[Option<Extent>],
    site: Site,
    around: &Around<'_>,
    out: &mut Vec<Instr>,
) -> Result<(), NoMemory>
    ensures { ArePartsExtents table.now (inside_of around.now) parts.now → Emits result (at_site (site_of site) (switch_meant (inside_of around.now) spot.now kind on.now (map (lowered_part (inside_of around.now)) parts.now))) out.old.items out.new.items }
{
    let all = parts_extent(around.alloc, table, parts)?;
    let stays = stays_behind(all);
    save_unless(stays, around, spot.place, out)?;
    select(
        parts, spot.place, kind, on, all.size, table, site, around, out,
    )?;
    back_unless(stays, around, spot.place, out)
}

/// Emits what a `switch` is but for its control source: what stands before its statements, and these, which are so many instructions.
#[cycle(statements)]
fn select(
    parts: &Seq<TPart>,
    place: Place,
    kind: Kind,
    on: &Box<TExpr>,
    size: u32,
    table: &[Option<Extent>],
    site: Site,
    around: &Around<'_>,
    out: &mut Vec<Instr>,
) -> Result<(), NoMemory>
    ensures { ArePartsExtents table.now (inside_of around.now) parts.now → size ≡ (in_order (program_of around.now) place (statements_of (map (lowered_part (inside_of around.now)) parts.now))).size → Emits result (at_site (site_of site) (switches_in (inside_of around.now) place kind on.now (map (lowered_part (inside_of around.now)) parts.now))) out.old.items out.new.items }
{
    begin_switch(table, on, parts, kind, place, around, out)?;
    let inner = site_within(site, size, out)?;
    part_statements(parts, place, table, inner, around, out)
}

/// Emits the statements among the parts of a switch, as a block.
#[cycle(statements)]
fn part_statements(
    parts: &Seq<TPart>,
    place: Place,
    table: &[Option<Extent>],
    site: Site,
    around: &Around<'_>,
    out: &mut Vec<Instr>,
) -> Result<(), NoMemory>
    ensures { ArePartsExtents table.now (inside_of around.now) parts.now → Emits result (at_site (site_of site) (in_order (program_of around.now) place (statements_of (map (lowered_part (inside_of around.now)) parts.now)))) out.old.items out.new.items }
{
    let rests = part_rests_at(around.alloc, table, parts)?;
    let mut block = begin(around.alloc, site, rests);
    for part in parts.as_slice() {
        next_part(part, &mut block, table, around, out)?;
    }
    enter_block(&mut block, place, out)?;
    end_all(&mut block.endings, around, out)
}

/// Emits the next part of a switch, where it is a statement.
#[cycle(statements)]
fn next_part(
    part: &TPart,
    block: &mut BlockRest,
    table: &[Option<Extent>],
    around: &Around<'_>,
    out: &mut Vec<Instr>,
) -> Result<(), NoMemory>
    ensures { AreEntries table.now (listed_part (inside_of around.now) part.now).extents → OnOk result (PartEmitted (lowered_part (inside_of around.now) part.now) block.old block.new out.old.items out.new.items) }
{
    match part {
        TPart::Case { .. } | TPart::Default { .. } => Ok(()),
        TPart::Does { stmt, .. } => next_statement(stmt.get(), block, table, around, out),
    }
}

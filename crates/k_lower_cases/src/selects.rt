//! The cases of a `switch`: a comparison and a select for each (C17 6.8.4.2).
ghost use Rattle.std.specs.Prelude.{◌≡◌, map};
ghost use Rattle.k_num.specs.declared.numbers.Bin.TheVariants.{Eq};
ghost use Rattle.k_code.specs.declared.instruction.Arg.TheVariants.{Number};
ghost use Rattle.k_code.specs.declared.instruction.Do.TheVariants.{Binary};
ghost use Rattle.k_lower_code.specs.Stretches.{Inside};
ghost use Rattle.k_lower_cases.specs.Cases.{case as case_meant, cases as cases_meant, part_case};
ghost use Rattle.k_lower_expressions.specs.Arounds.{program_of};
ghost use Rattle.k_lower_expressions.specs.Emits.{Emits};
ghost use Rattle.k_lower_extents.specs.Extents.{AreEntries, ArePartsExtents, listed_part, lowered_part};

use k_code::{Arg, Do, Instr};
use k_lower_expressions::{Around, above, does, next_number, sets};
use k_lower_extents::{Extent, extent_at};
use k_num::{Bin, Kind, NoMemory, Place, Seq};
use k_optab::Class;
use k_types_meaning::TPart;

/// A comparison of an operand with the value of a case.
fn equals(value: &i128, kind: Kind, on: Arg, to: u32) -> Do
    ensures { result ≡ Binary Eq kind on (Number value.now) to }
{
    Do::Binary {
        op: Bin::Eq,
        kind,
        a: on,
        b: Arg::Number(*value),
        to,
    }
}

/// A case: where the value is this one, the statements from this instruction on are next.
fn case(
    place: Place,
    value: &i128,
    kind: Kind,
    r: u32,
    on: Arg,
    at: u32,
    around: &Around<'_>,
    out: &mut Vec<Instr>,
) -> Result<(), NoMemory>
    ensures { Emits result (case_meant (program_of around.now) kind r on at place value.now) out.old.items out.new.items }
{
    let register = above(r, 1)?;
    let act = equals(value, kind, on, register);
    let equal = sets(around, place, act, register, out)?;
    let number = next_number(out)?;
    let other = above(number, 1)?;
    let act = Do::Test {
        a: equal,
        then: at,
        other,
        to: None,
        class: Class::Select,
    };
    does(around, place, act, out)
}

/// A part of a switch among its cases, where the statements behind it begin at this instruction. It is answered where those behind the part
/// begin.
fn one_part(
    table: &[Option<Extent>],
    part: &TPart,
    kind: Kind,
    r: u32,
    on: Arg,
    at: u32,
    around: &Around<'_>,
    out: &mut Vec<Instr>,
) -> Result<u32, NoMemory>
    ensures { (w : Inside) → AreEntries table.now (listed_part w part.now).extents → Emits result (part_case (program_of around.now) kind r on at (lowered_part w part.now)) out.old.items out.new.items }
{
    match part {
        TPart::Case { place, value } => {
            case(*place, value, kind, r, on, at, around, out)?;
            Ok(at)
        }
        TPart::Default { .. } => Ok(at),
        TPart::Does {
            place: _place,
            stmt,
        } => {
            let extent = extent_at(table, stmt.get())?;
            above(at, extent.size)
        }
    }
}

/// Emits the cases of a switch of this kind, whose value is this operand and whose statements begin at this instruction. The results of the
/// comparisons stand in the register behind r. The table has the extents of the statements.
pub(crate) fn cases(
    table: &[Option<Extent>],
    parts: &Seq<TPart>,
    kind: Kind,
    r: u32,
    on: Arg,
    statements: u32,
    around: &Around<'_>,
    out: &mut Vec<Instr>,
) -> Result<(), NoMemory>
    ensures { (w : Inside) → ArePartsExtents table.now w parts.now → Emits result (cases_meant (program_of around.now) kind r on (map (lowered_part w) parts.now) statements) out.old.items out.new.items }
{
    let mut at = statements;
    for each in parts.as_slice() {
        at = one_part(table, each, kind, r, on, at, around, out)?;
    }
    Ok(())
}

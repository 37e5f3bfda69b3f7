//! How many instructions the cases of a `switch` have, and the statements before its default.
ghost use Rattle.std.specs.Prelude.{◌≡◌, ◌∷◌, [], map, IfOk};
ghost use Rattle.k_lower_code.specs.Stretches.{Inside};
ghost use Rattle.k_lower_code.specs.Switches.{before_default as before_meant, cases_size as cases_size_meant};
ghost use Rattle.k_lower_cases.specs.Cases.{is_default as is_default_meant, statement_size as statement_size_meant};
ghost use Rattle.k_lower_extents.specs.Extents.{AreEntries, ArePartsExtents, listed_part, lowered_part};

use k_lower_expressions::above;
use k_lower_extents::{Extent, extent_at};
use k_num::{NoMemory, Seq};
use k_types_meaning::TPart;

/// How many instructions of the cases are of this part.
fn case_size(part: &TPart) -> u32
    ensures { (w : Inside) → result ≡ cases_size_meant (lowered_part w part.now ∷ []) }
{
    match part {
        TPart::Case { .. } => 2,
        TPart::Default { .. } | TPart::Does { .. } => 0,
    }
}

/// How many instructions the cases of a switch have.
pub(crate) fn cases_size(parts: &Seq<TPart>) -> Result<u32, NoMemory>
    ensures { IfOk result (λ n. (w : Inside) → n ≡ cases_size_meant (map (lowered_part w) parts.now)) }
{
    let mut size = 0;
    for each in parts.as_slice() {
        size = above(size, case_size(each))?;
    }
    Ok(size)
}

/// Whether a part is the default.
fn is_default(part: &TPart) -> bool
    ensures { (w : Inside) → result ≡ is_default_meant (lowered_part w part.now) }
{
    match part {
        TPart::Default { .. } => true,
        TPart::Case { .. } | TPart::Does { .. } => false,
    }
}

/// How many instructions of the statements are of this part.
fn statement_size(table: &[Option<Extent>], part: &TPart) -> Result<u32, NoMemory>
    ensures { IfOk result (λ n. (w : Inside) → AreEntries table.now (listed_part w part.now).extents → n ≡ statement_size_meant (lowered_part w part.now)) }
{
    match part {
        TPart::Case { .. } | TPart::Default { .. } => Ok(0),
        TPart::Does { stmt, .. } => {
            let extent = extent_at(table, stmt.get())?;
            Ok(extent.size)
        }
    }
}

/// How many instructions of the statements of a switch stand before its default, or all where there is none. The table has the extents of
/// the statements.
pub(crate) fn before_default(table: &[Option<Extent>], parts: &Seq<TPart>) -> Result<u32, NoMemory>
    ensures { IfOk result (λ n. (w : Inside) → ArePartsExtents table.now w parts.now → n ≡ before_meant (map (lowered_part w) parts.now)) }
{
    let mut size = 0;
    for each in parts.as_slice() {
        if is_default(each) {
            return Ok(size);
        }
        let statement = statement_size(table, each)?;
        size = above(size, statement)?;
    }
    Ok(size)
}

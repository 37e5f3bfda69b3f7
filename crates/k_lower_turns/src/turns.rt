//! A loop but for its step, its test and the code of its body.
ghost use Rattle.std.specs.Prelude.{◌≡◌, IfOk};
ghost use Rattle.k_lower_expressions.specs.Arounds.{inside_of};
ghost use Rattle.k_lower_turns.specs.Turns.{source_turns};

use k_lower_expressions::Around;
use k_lower_extents::Extent;
use k_num::{NoMemory, Place};
use k_typed_parts::{flag, loop_region};
use k_types_meaning::Spot;

/// A loop but for its step, its test and the code of its body: where it stands, its region, whether it is counted, whether it begins with
/// its test, and the extent of its body.
#[derive(Clone, Copy)]
pub struct Turns {
    pub place: Place,
    pub region: u32,
    pub counted: bool,
    pub tested: bool,
    pub body: Extent,
}

/// The loop of this number among those of the source, at this spot, with a body of this extent.
pub fn turns_of(
    spot: &Spot,
    number: u32,
    tested: bool,
    body: Extent,
    around: &Around<'_>,
) -> Result<Turns, NoMemory>
    ensures { IfOk result (λ t. t ≡ source_turns (inside_of around.now) spot.now number tested body) }
{
    let region = loop_region(around.function, number)?;
    Ok(Turns {
        place: spot.place,
        region,
        counted: flag(around.marks.counted.as_slice(), number),
        tested,
        body,
    })
}

//! Regions by their numbers.
ghost use Rattle.std.specs.Prelude.{◌≡◌, ◌<◌, Some, length, slice_get};

use k_optab::Region;

/// The region of a number.
pub(crate) fn region_at(regions: &[Region], number: u32) -> &Region
    requires { number < length regions.now }
    ensures { slice_get regions.now number ≡ Some result.now }
{
    &regions[number as usize]
}

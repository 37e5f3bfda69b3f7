//! Regions at the end of a text.
ghost use Rattle.std.specs.Prelude.{◌≡◌, ◌++◌, OnOk};
ghost use Rattle.k_text.specs.Texts.{kind_text, name_text, region_text};

use crate::numbers::{push, push_place};
use k_num::NoMemory;
use k_optab::{Region, RegionKind};

/// The word for a kind of region.
fn kind_name(kind: RegionKind) -> &'static str
    ensures { result.now ≡ kind_text kind }
{
    match kind {
        RegionKind::Func => "func",
        RegionKind::Loop => "loop",
        RegionKind::Body => "body",
    }
}

/// The function of a region, and its place.
pub fn push_name(text: &mut Vec<u8>, region: &Region) -> Result<(), NoMemory>
    ensures { OnOk result (text.new.items ≡ text.old.items ++ name_text region.now) }
{
    push(text, region.func.as_str())?;
    push(text, " ")?;
    push_place(text, region.place)
}

/// A region: its kind, its function and its place.
pub fn push_region(text: &mut Vec<u8>, region: &Region) -> Result<(), NoMemory>
    ensures { OnOk result (text.new.items ≡ text.old.items ++ region_text region.now) }
{
    push(text, kind_name(region.kind))?;
    push(text, " ")?;
    push_name(text, region)
}

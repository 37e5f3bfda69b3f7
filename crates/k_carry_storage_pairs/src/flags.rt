//! Flags of regions, by their numbers.
ghost use Rattle.std.specs.Prelude.{◌≡◌, ◌+◌, ◌++◌, ◌<◌, ◌^◌, if◌then◌else◌, false, replicate, vec_len, OnOk};
ghost use Rattle.k_carry_storage_pairs.specs.Kept.{flagged};

use k_num::NoMemory;

/// Adds flags that are not set.
fn append_unset(flags: &mut Vec<bool>, count: usize) -> Result<(), NoMemory>
    requires { vec_len flags.old + count < 2 ^ 64 }
    ensures { OnOk result (flags.new.items ≡ flags.old.items ++ replicate count false) }
{
    flags.resize(flags.len() + count, false)?;
    Ok(())
}

/// Sets the flag of a region.
fn set_flag(flags: &mut Vec<bool>, region: u32) -> Result<(), NoMemory>
    ensures { OnOk result (flags.new.items ≡ flagged region flags.old.items) }
{
    let more = (region as usize + 1).saturating_sub(flags.len());
    append_unset(flags, more)?;
    flags[region as usize] = true;
    Ok(())
}

/// Sets it, if it is to be set.
pub fn set_if(flags: &mut Vec<bool>, region: u32, is: bool) -> Result<(), NoMemory>
    ensures { OnOk result (flags.new.items ≡ (if is then flagged region flags.old.items else flags.old.items)) }
{
    if is { set_flag(flags, region) } else { Ok(()) }
}

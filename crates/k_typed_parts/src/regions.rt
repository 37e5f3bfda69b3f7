//! The regions of functions and of loops, by their numbers in the source.
ghost use Rattle.std.specs.Prelude.{◌≡◌, IfOk};
ghost use Rattle.k_evaluation.specs.Calls.{function_region as region_meant};
ghost use Rattle.k_evaluation.specs.Loops.{loop_region as loop_region_meant};

use k_num::NoMemory;
use k_types_meaning::TFunc;

/// The region of the function of this number.
pub fn function_region(number: u32, f: &TFunc) -> Result<u32, NoMemory>
    ensures { IfOk result (λ region. region ≡ region_meant number f.now) }
{
    region_at(u64::from(number) + 2 * u64::from(f.loops))
}

/// The region of the loop of this number among those of the source, in a function.
pub fn loop_region(function: u32, number: u32) -> Result<u32, NoMemory>
    ensures { IfOk result (λ region. region ≡ loop_region_meant function number) }
{
    region_at(u64::from(function) + 1 + 2 * u64::from(number))
}

/// The region of this number, where a region may have it.
fn region_at(number: u64) -> Result<u32, NoMemory>
    ensures { IfOk result (λ region. region ≡ number) }
{
    match u32::try_from(number) {
        Ok(region) => Ok(region),
        Err(_) => Err(NoMemory),
    }
}

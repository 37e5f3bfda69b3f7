//! Levels of nesting. A level that the machine can't count is want of memory: no memory holds a source that is nested so deep.
ghost use Rattle.std.specs.Prelude.{◌≡◌, IfOk};
ghost use Rattle.k_parse_steps.specs.Level as spec;

use k_num::NoMemory;

/// The level that lies so far below another.
pub fn plus(level: usize, below: usize) -> Result<usize, NoMemory>
    ensures { IfOk result (λ sum. sum ≡ spec.plus level below) }
{
    match level.checked_add(below) {
        Some(sum) => Ok(sum),
        None => Err(NoMemory),
    }
}

/// How many levels a node has above parts of so many levels.
pub fn above(height: usize, other: usize) -> Result<usize, NoMemory>
    ensures { IfOk result (λ levels. levels ≡ spec.above height other) }
{
    plus(height.max(other), 1)
}

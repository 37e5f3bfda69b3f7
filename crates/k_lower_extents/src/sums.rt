//! Sums of sizes. There is no memory for more instructions than a `u32` can count.
ghost use Rattle.std.specs.Prelude.{◌≡◌, ◌+◌, IfOk, if◌then◌else◌, nat_eq};

use k_num::NoMemory;

/// The sum of two sizes.
pub(crate) fn sum(a: u32, b: u32) -> Result<u32, NoMemory>
    ensures { IfOk result (λ n. n ≡ a + b) }
{
    match a.checked_add(b) {
        Some(n) => Ok(n),
        None => Err(NoMemory),
    }
}

/// The sum of three sizes.
pub(crate) fn sum_of_three(a: u32, b: u32, c: u32) -> Result<u32, NoMemory>
    ensures { IfOk result (λ n. n ≡ a + b + c) }
{
    let front = sum(a, b)?;
    sum(front, c)
}

/// One of two sizes, by whether a size is none.
pub(crate) fn size_by(size: u32, none: u32, some: u32) -> u32
    ensures { result ≡ (if nat_eq size 0 then none else some) }
{
    if size == 0 { none } else { some }
}

//! The codes by which reals are held: the bits of the double that is the same number.
ghost use Rattle.std.specs.Prelude.{◌≡◌};
ghost use Rattle.std.specs.Float.{round_to_format, binary32};
ghost use Rattle.k_real.specs.Codes.{real_of, code_of as code};

use std::num::{
    f32_to_f64_with_nan, f64_from_bits_with_nan, f64_to_bits_with_nan, nearest_f64_to_f32_with_nan,
};

/// The real of a code. Every code of a NaN is the one NaN.
pub fn real_of_code(code: u64) -> f64
    ensures { result ≡ real_of code }
{
    f64_from_bits_with_nan(code)
}

/// The code of a real. The NaN has the code 0x7ff8000000000000, whatever bits the processor gave it.
pub fn code_of(x: f64) -> u64
    ensures { result ≡ code x }
{
    f64_to_bits_with_nan(x)
}

/// The real of a code, rounded once to Single.
pub(crate) fn single_of_code(code: u64) -> f32
    ensures { result ≡ round_to_format binary32 (real_of code) }
{
    nearest_f64_to_f32_with_nan(real_of_code(code))
}

/// The code of a real of Single, which is that of the equal double.
pub(crate) fn code_of_single(x: f32) -> u64
    ensures { result ≡ code x }
{
    code_of(f32_to_f64_with_nan(x))
}

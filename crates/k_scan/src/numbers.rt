//! Numbers in decimal.
ghost use Rattle.std.specs.Prelude.{◌≡◌, ◌+◌, ◌-◌, ◌*◌, ◌≤◌, ◌<◌, ◌^◌, SomeIff};
ghost use Rattle.k_scan.specs.Numbers.{digits_at, is_digit, number_at};
ghost use Rattle.k_scan.specs.Pieces.{Finds};

/// Whether a byte is a digit.
fn is_digit(byte: u8) -> bool
    ensures { result ≡ is_digit byte }
{
    byte.is_ascii_digit()
}

/// A number with one digit more, where it is below 2^64.
fn with_digit(value: u64, digit: u8) -> Option<u64>
    requires { (48 ≤ digit) × (digit ≤ 57) }
    ensures { SomeIff result (value * 10 + (digit - 48) < 2 ^ 64) (value * 10 + (digit - 48)) }
{
    match value.checked_mul(10) {
        None => None,
        Some(product) => product.checked_add(u64::from(digit - b'0')),
    }
}

/// The number whose first digits have this value.
fn digits(first: u64, text: &[u8]) -> Option<(u64, &[u8])>
    ensures { Finds (λ found. (found.0, found.1.now)) result (digits_at first text.now) }
{
    let mut value = first;
    let mut rest = text;
    while let Some((byte, behind)) = rest.split_first() {
        if !is_digit(*byte) {
            return Some((value, rest));
        }
        match with_digit(value, *byte) {
            None => return None,
            Some(next) => value = next,
        }
        rest = behind;
    }
    Some((value, rest))
}

/// The number at the front of a text, and the text behind it. It is below 2^64, has no leading zeros, and takes all digits that
/// stand there, but for what stands behind a zero.
pub fn number(text: &[u8]) -> Option<(u64, &[u8])>
    ensures { Finds (λ found. (found.0, found.1.now)) result (number_at text.now) }
{
    let Some((first, rest)) = text.split_first() else {
        return None;
    };
    if *first == b'0' {
        return Some((0, rest));
    }
    if !is_digit(*first) {
        return None;
    }
    digits(u64::from(*first - b'0'), rest)
}

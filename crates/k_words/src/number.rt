//! Numbers as words.
ghost use Rattle.std.specs.Prelude.{◌≡◌, ◌≤◌, IfSome};
ghost use Rattle.k_words.specs.Number.{are_digits, is_numeral, number_within, within};

/// The number that a word is, where it is one in decimal from `low` to `high`.
#[tactic(auto, unfolding(crate::specs::Number::number_within))]
pub(crate) fn number_within(word: &str, low: u64, high: u64) -> Option<u64>
    ensures value { result ≡ number_within low high word.now }
    ensures most { IfSome result (λ number. number ≤ high) }
{
    if !is_numeral(word.as_bytes()) {
        return None;
    }
    match word.parse::<u64>() {
        Ok(number) => within(low, high, number),
        Err(_) => None,
    }
}

/// A number, where it lies in these limits.
fn within(low: u64, high: u64, number: u64) -> Option<u64>
    ensures value { result ≡ within low high number }
    ensures most { IfSome result (λ number. number ≤ high) }
{
    if low <= number && number <= high {
        Some(number)
    } else {
        None
    }
}

/// Whether bytes are a number in decimal: digits, of which the first is 0 only where it is the only one.
fn is_numeral(bytes: &[u8]) -> bool
    ensures { result ≡ is_numeral bytes.now }
{
    let Some((first, rest)) = bytes.split_first() else {
        return false;
    };
    first.is_ascii_digit() && (*first != b'0' || rest.is_empty()) && are_digits(rest)
}

/// Whether all bytes are decimal digits.
fn are_digits(bytes: &[u8]) -> bool
    ensures { result ≡ are_digits bytes.now }
{
    bytes.iter().all(|byte| byte.is_ascii_digit())
}

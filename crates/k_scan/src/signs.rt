//! Numbers with a sign.
ghost use Rattle.std.specs.Prelude.{◌≡◌, ◌-◌, ◌≤◌, negsuc, pos, Some, None, ◌&&◌, nat_le, if◌then◌else◌};
ghost use Rattle.k_scan.specs.Numbers.{signed_at};
ghost use Rattle.k_scan.specs.Pieces.{Finds};

use crate::numbers::number;

/// A number below 0, of 32 bits.
fn negative(number: u64) -> Option<i32>
    ensures { result ≡ (if nat_le 1 number && nat_le number 2147483648 then Some (negsuc (number - 1)) else None) }
{
    if number == 0 || number > 2_147_483_648 {
        return None;
    }
    let above = (number - 1) as i32;
    Some(-1 - above)
}

/// A number from 0 on, of 32 bits.
fn positive(number: u64) -> Option<i32>
    ensures { result ≡ (if nat_le number 2147483647 then Some (pos number) else None) }
{
    if number > 2_147_483_647 {
        return None;
    }
    Some(number as i32)
}

/// The signed number of 32 bits at the front of a text, and the text behind it. It has a `-` where it is below 0 and no other
/// sign, and no leading zeros.
pub fn signed(text: &[u8]) -> Option<(i32, &[u8])>
    ensures { Finds (λ found. (found.0, found.1.now)) result (signed_at text.now) }
{
    let Some((first, behind)) = text.split_first() else {
        return None;
    };
    if *first == b'-' {
        let (digits, rest) = number(behind)?;
        let value = negative(digits)?;
        return Some((value, rest));
    }
    let (digits, rest) = number(text)?;
    let value = positive(digits)?;
    Some((value, rest))
}

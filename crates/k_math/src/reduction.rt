//! The quarter turns in an angle of any size, and the rest.
ghost use Rattle.std.specs.Prelude.{◌≡◌, ◌≤◌, ◌<◌, ◌+◌, ◌*◌, ◌/◌, ◌%◌, ◌^◌, get_or, ℕ, slice_index};
ghost use Rattle.k_math.specs.Reduction.{window, ratio_at, carried, limb, product_at, bits_by, is_half, from_above, leading_of, pieces_of, fraction_by, angle_of, turn_by, turn_of_code, turned_back, turn_of};

use crate::arcs::QUARTER_PI;
use crate::pair::{Pair, from_double, negated, ordered_sum, product};
use crate::scaling::scaled;
use crate::tables::{HALF_PI, TWO_OVER_PI};
use k_real::code_of;
use std::num::nearest_u64_to_f64;

/// 2^64.
const HIGH: u128 = 0x1_0000_0000_0000_0000;

const FIELD: u64 = 0x10_0000_0000_0000;

/// Quarter turns modulo 4, and the bits behind them, the highest first.
#[derive(Clone, Copy)]
pub(crate) struct Bits {
    pub(crate) quarter: u64,
    pub(crate) first: u64,
    pub(crate) second: u64,
    pub(crate) third: u64,
    pub(crate) fourth: u64,
}

/// Bits from the first limb that is not 0, and how many stand before it.
#[derive(Clone, Copy)]
pub(crate) struct Leading {
    pub(crate) first: u64,
    pub(crate) second: u64,
    pub(crate) third: u64,
    pub(crate) skipped: u32,
}

/// An angle of so many quarter turns, modulo 4, and a rest of at most a little above pi/4.
#[derive(Clone, Copy)]
pub(crate) struct Turn {
    pub(crate) quarter: u64,
    pub(crate) rest: Pair,
}

#[inline]
#[tactic(auto, unfolding(crate::specs::Reduction::window))]
fn bits_from(low: u64, high: u64, s: u32) -> u64
    requires { s ≤ 64 }
    ensures { result ≡ window low high s }
{
    (((u128::from(high) * HIGH + u128::from(low)) >> s) % HIGH) as u64
}

#[inline]
fn limb_at(limbs: &[u64], at: usize) -> u64
    ensures { result ≡ get_or limbs.now at 0 }
{
    if at < limbs.len() { limbs[at] } else { 0 }
}

#[tactic(auto, unfolding(crate::specs::Reduction::ratio_at))]
fn ratio_bits(at: usize) -> u64
    requires { at ≤ 4096 }
    ensures { result ≡ ratio_at at }
{
    let (low, high) = (
        limb_at(&TWO_OVER_PI, at / 64),
        limb_at(&TWO_OVER_PI, at / 64 + 1),
    );
    bits_from(low, high, (at % 64) as u32)
}

#[inline]
fn column(bits: u64, m: u64, carry: u64) -> u128
    requires { m < 2 ^ 60 }
    ensures value { result ≡ bits * m + carry }
    ensures below { result < 2 ^ 125 }
{
    u128::from(bits) * u128::from(m) + u128::from(carry)
}

#[inline]
fn low_half(n: u128) -> u64
    ensures { result ≡ n % 2 ^ 64 }
{
    (n % HIGH) as u64
}

#[inline]
fn high_half(n: u128) -> u64
    requires { n < 2 ^ 125 }
    ensures { result ≡ n / 2 ^ 64 }
{
    (n / HIGH) as u64
}

/// Seven limbs of the product of `m` and the bits of 2/pi from a place on.
#[tactic(auto, unfolding(crate::specs::Reduction::limb, crate::specs::Reduction::carried))]
fn product_limbs(m: u64, c: usize) -> [u64; 7]
    requires small { m < 2 ^ 53 }
    requires within { c ≤ 1100 }
    ensures { (k : ℕ) → k < 7 → slice_index result k ≡ limb m c k }
{
    let mut limbs = [0u64; 7];
    let mut carry = 0u64;
    for i in 0..7usize {
        let sum = column(ratio_bits(c + 64 * i), m, carry);
        limbs[i] = low_half(sum);
        carry = high_half(sum);
    }
    limbs
}

#[tactic(auto, unfolding(crate::specs::Reduction::product_at))]
fn product_bits(limbs: &[u64; 7], m: u64, c: usize, at: usize) -> u64
    requires limbs { (k : ℕ) → k < 7 → slice_index limbs.now k ≡ limb m c k }
    requires within { at < 384 }
    ensures { result ≡ product_at m c at }
{
    bits_from(limbs[at / 64], limbs[at / 64 + 1], (at % 64) as u32)
}

#[tactic(auto, unfolding(crate::specs::Reduction::bits_by))]
fn product_of_ratio(m: u64, c: usize, b: usize) -> Bits
    requires small { m < 2 ^ 53 }
    requires within { c ≤ 1100 }
    requires low { b ≤ 66 }
    ensures { result ≡ bits_by m c b }
{
    let limbs = product_limbs(m, c);
    Bits {
        quarter: product_bits(&limbs, m, c, b + 256) % 4,
        first: product_bits(&limbs, m, c, b + 192),
        second: product_bits(&limbs, m, c, b + 128),
        third: product_bits(&limbs, m, c, b + 64),
        fourth: product_bits(&limbs, m, c, b),
    }
}

#[inline]
#[tactic(auto, unfolding(crate::specs::Reduction::is_half))]
fn is_beyond_half(z: Bits) -> bool
    ensures { result ≡ is_half z }
{
    z.first >= 0x8000_0000_0000_0000
}

#[inline]
#[tactic(auto, unfolding(crate::specs::Reduction::from_above))]
fn counted_down(z: Bits) -> Bits
    ensures { result ≡ from_above z }
{
    Bits {
        quarter: (z.quarter % 4 + 1) % 4,
        first: u64::MAX - z.first,
        second: u64::MAX - z.second,
        third: u64::MAX - z.third,
        fourth: u64::MAX - z.fourth,
    }
}

#[tactic(auto, unfolding(crate::specs::Reduction::leading_of))]
fn lead(z: Bits) -> Leading
    ensures value { result ≡ leading_of z }
    ensures few { result.skipped ≤ 192 }
{
    if z.first != 0 {
        Leading {
            first: z.first,
            second: z.second,
            third: z.third,
            skipped: 0,
        }
    } else if z.second != 0 {
        Leading {
            first: z.second,
            second: z.third,
            third: z.fourth,
            skipped: 64,
        }
    } else if z.third != 0 {
        Leading {
            first: z.third,
            second: z.fourth,
            third: 0,
            skipped: 128,
        }
    } else {
        Leading {
            first: z.fourth,
            second: 0,
            third: 0,
            skipped: 192,
        }
    }
}

#[tactic(auto, unfolding(crate::specs::Reduction::pieces_of))]
fn pieces(a: u64, b: u64, skipped: u32) -> Pair
    requires { skipped ≤ 256 }
    ensures { result ≡ pieces_of a b skipped }
{
    let high = nearest_u64_to_f64(a / 2048);
    let low = nearest_u64_to_f64(a % 2048 * 0x400_0000_0000 + b / 0x40_0000);
    let k = i64::from(skipped);
    ordered_sum(scaled(high, -(53 + k)), scaled(low, -(106 + k)))
}

#[tactic(auto, unfolding(crate::specs::Reduction::fraction_by))]
fn fraction_with(i: u32, l: Leading) -> Pair
    requires some { i ≤ 64 }
    requires few { l.skipped ≤ 192 }
    ensures { result ≡ fraction_by i l }
{
    pieces(
        bits_from(l.second, l.first, 64 - i),
        bits_from(l.third, l.second, 64 - i),
        l.skipped + i,
    )
}

#[tactic(auto, unfolding(crate::specs::Reduction::angle_of))]
fn angle(l: Leading) -> Pair
    requires { l.skipped ≤ 192 }
    ensures { result ≡ angle_of l }
{
    product(fraction_with(l.first.leading_zeros(), l), HALF_PI)
}

#[tactic(auto, unfolding(crate::specs::Reduction::turn_by))]
fn turn_with(z: Bits) -> Turn
    ensures { result ≡ turn_by z }
{
    if is_beyond_half(z) {
        let t = counted_down(z);
        let rest = angle(lead(t));
        Turn {
            quarter: t.quarter,
            rest: negated(rest),
        }
    } else {
        Turn {
            quarter: z.quarter,
            rest: angle(lead(z)),
        }
    }
}

#[tactic(auto, unfolding(crate::specs::Reduction::turn_of_code))]
fn turn_with_code(a: u64) -> Turn
    ensures { result ≡ turn_of_code a }
{
    let field = a % 0x8000_0000_0000_0000 / FIELD;
    let n = field.saturating_sub(1022) as usize;
    let c = 1011usize.saturating_sub(n);
    let b = (1077 - c).saturating_sub(n);
    turn_with(product_of_ratio(FIELD + a % FIELD, c, b))
}

#[inline]
#[tactic(auto, unfolding(crate::specs::Reduction::turned_back))]
fn backwards(t: Turn) -> Turn
    ensures { result ≡ turned_back t }
{
    Turn {
        quarter: 4u64.saturating_sub(t.quarter) % 4,
        rest: negated(t.rest),
    }
}

/// An angle that is finite as quarter turns and a rest.
#[tactic(auto, unfolding(crate::specs::Reduction::turn_of))]
pub(crate) fn reduced(x: f64) -> Turn
    ensures { result ≡ turn_of x }
{
    if x.abs() <= QUARTER_PI {
        Turn {
            quarter: 0,
            rest: from_double(x),
        }
    } else if x < 0.0 {
        backwards(turn_with_code(code_of(x.abs())))
    } else {
        turn_with_code(code_of(x.abs()))
    }
}

//! What the kinds of whole numbers hold, and the conversions between them.
ghost use Rattle.std.specs.Prelude.{◌≡◌, ◌<◌, ◌^◌, ◌%◌};
ghost use Rattle.k_num.specs.Kind.{width, size, is_signed as is_signed_kind, least as least_of, greatest as greatest_of, is_held, remainder as remainder_of, value_of_bits as value_of, converted, promoted, common_kind};

use crate::Kind;

/// How many bits a kind has.
pub(crate) fn bits(kind: Kind) -> u32
    ensures { result ≡ width kind }
{
    match kind {
        Kind::I8 | Kind::U8 => 8,
        Kind::I16 | Kind::U16 => 16,
        Kind::I32 | Kind::U32 => 32,
        Kind::I64 | Kind::U64 => 64,
    }
}

/// How many bytes a value of the kind takes: what `sizeof` gives.
pub fn bytes(kind: Kind) -> u64
    ensures { result ≡ size kind }
{
    u64::from(bits(kind) / 8)
}

/// Whether a kind has negative values.
pub(crate) fn is_signed(kind: Kind) -> bool
    ensures { result ≡ is_signed_kind kind }
{
    match kind {
        Kind::I8 | Kind::I16 | Kind::I32 | Kind::I64 => true,
        Kind::U8 | Kind::U16 | Kind::U32 | Kind::U64 => false,
    }
}

fn least(kind: Kind) -> i128
    ensures { result ≡ least_of kind }
{
    match kind {
        Kind::I8 => -0x80,
        Kind::I16 => -0x8000,
        Kind::I32 => -0x8000_0000,
        Kind::I64 => -0x8000_0000_0000_0000,
        Kind::U8 | Kind::U16 | Kind::U32 | Kind::U64 => 0,
    }
}

pub(crate) fn greatest(kind: Kind) -> i128
    ensures { result ≡ greatest_of kind }
{
    match kind {
        Kind::I8 => 0x7f,
        Kind::U8 => 0xff,
        Kind::I16 => 0x7fff,
        Kind::U16 => 0xffff,
        Kind::I32 => 0x7fff_ffff,
        Kind::U32 => 0xffff_ffff,
        Kind::I64 => 0x7fff_ffff_ffff_ffff,
        Kind::U64 => 0xffff_ffff_ffff_ffff,
    }
}

/// Whether `v` is a value of the kind.
pub fn holds(kind: Kind, v: i128) -> bool
    ensures { result ≡ is_held kind v }
{
    least(kind) <= v && v <= greatest(kind)
}

/// 2^n, n the width.
pub(crate) fn modulus(kind: Kind) -> u128
    ensures { result ≡ 2 ^ width kind }
{
    match kind {
        Kind::I8 | Kind::U8 => 0x100,
        Kind::I16 | Kind::U16 => 0x1_0000,
        Kind::I32 | Kind::U32 => 0x1_0000_0000,
        Kind::I64 | Kind::U64 => 0x1_0000_0000_0000_0000,
    }
}

/// The remainder of a natural number modulo 2^n.
pub(crate) fn low_bits(kind: Kind, bits: u128) -> u128
    ensures { result ≡ bits % 2 ^ width kind }
{
    bits & (modulus(kind) - 1)
}

/// The remainder of `v` modulo 2^n.
pub(crate) fn remainder(kind: Kind, v: i128) -> u128
    ensures value { result ≡ remainder_of kind v }
    ensures below { result < 2 ^ width kind }
{
    low_bits(kind, v.cast_unsigned())
}

/// The value of the kind whose n bits are those of `bits`.
pub(crate) fn value_of_bits(kind: Kind, bits: u128) -> i128
    requires { bits < 2 ^ width kind }
    ensures { result ≡ value_of kind bits }
{
    let value = bits as i128;
    if holds(kind, value) {
        value
    } else {
        value - modulus(kind) as i128
    }
}

/// The one value of the kind that equals `v` modulo 2^n, n the width of the kind.
pub fn convert(to: Kind, v: i128) -> i128
    ensures { result ≡ converted to v }
{
    value_of_bits(to, remainder(to, v))
}

/// The kind that a number of this kind is promoted to in an expression: `int` for a narrower kind.
pub fn promote(kind: Kind) -> Kind
    ensures { result ≡ promoted kind }
{
    match kind {
        Kind::I8 | Kind::U8 | Kind::I16 | Kind::U16 => Kind::I32,
        wide => wide,
    }
}

/// The kind in which an operation on numbers of these two kinds is made.
pub fn common(a: Kind, b: Kind) -> Kind
    ensures { result ≡ common_kind a b }
{
    match (promote(a), promote(b)) {
        (Kind::U64, _) | (_, Kind::U64) => Kind::U64,
        (Kind::I64, _) | (_, Kind::I64) => Kind::I64,
        (Kind::U32, _) | (_, Kind::U32) => Kind::U32,
        _ => Kind::I32,
    }
}

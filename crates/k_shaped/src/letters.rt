//! The letters of conversions.
ghost use Rattle.std.specs.Prelude.{◌≡◌};
ghost use Rattle.k_shaped.specs.Letters as letters;

/// `d i`
#[tactic(auto, unfolding(crate::specs::Letters::is_signed))]
pub(crate) fn is_signed(c: u8) -> bool
    ensures { result ≡ letters.is_signed c }
{
    c == b'd' || c == b'i'
}

/// `o x X`
#[tactic(auto, unfolding(crate::specs::Letters::is_based))]
pub(crate) fn is_based(c: u8) -> bool
    ensures { result ≡ letters.is_based c }
{
    c == b'o' || c == b'x' || c == b'X'
}

/// `d i u o x X`
#[tactic(auto, unfolding(crate::specs::Letters::is_whole))]
pub(crate) fn is_whole(c: u8) -> bool
    ensures { result ≡ letters.is_whole c }
{
    is_signed(c) || c == b'u' || is_based(c)
}

/// `f F`
#[tactic(auto, unfolding(crate::specs::Letters::is_fixed))]
pub(crate) fn is_fixed(c: u8) -> bool
    ensures { result ≡ letters.is_fixed c }
{
    c == b'f' || c == b'F'
}

/// `e E`
#[tactic(auto, unfolding(crate::specs::Letters::is_scientific))]
pub(crate) fn is_scientific(c: u8) -> bool
    ensures { result ≡ letters.is_scientific c }
{
    c == b'e' || c == b'E'
}

/// `f F e E g G`
#[tactic(auto, unfolding(crate::specs::Letters::is_real))]
pub(crate) fn is_real(c: u8) -> bool
    ensures { result ≡ letters.is_real c }
{
    is_fixed(c) || is_scientific(c) || c == b'g' || c == b'G'
}

/// `F E G`
#[tactic(auto, unfolding(crate::specs::Letters::is_capital))]
pub(crate) fn is_capital(c: u8) -> bool
    ensures { result ≡ letters.is_capital c }
{
    c == b'F' || c == b'E' || c == b'G'
}

/// `d i u o x X f F e E g G`
#[tactic(auto, unfolding(crate::specs::Letters::is_number))]
pub(crate) fn is_number(c: u8) -> bool
    ensures { result ≡ letters.is_number c }
{
    is_whole(c) || is_real(c)
}

//! Elements as expressions are judged by.
ghost use Rattle.std.specs.Prelude.{◌≡◌};
ghost use Rattle.k_types_meaning.specs.Counts.{elements};

use k_num::Kind;

/// What a pointer points to, and what an array is made of, with its dimensions lent. `each` is the count of numbers
/// in them.
#[derive(Clone, Copy)]
pub struct ElementView<'a> {
    pub kind: Kind,
    pub dims: &'a [u32],
    pub each: u64,
    pub fixed: bool,
    pub ghost counted: { each ≡ elements dims.now },
}

//! Draws: a row of numbers that follows from the first.
ghost use Rattle.std.specs.Prelude.{◌≡◌, ◌<◌, ◌^◌, ◌/◌, ◌%◌};
ghost use Rattle.k_gen.specs.Draw.{next};

/// What comes behind a number of the row. A draw is what is left of it without its low 16 bits.
#[tactic(auto, unfolding(crate::specs::Draw::next))]
pub(crate) fn next(state: u64) -> u64
    requires { state < 2 ^ 31 }
    ensures value { result ≡ next state }
    ensures below { result < 2 ^ 31 }
{
    (state * 1_103_515_245 + 12_345) % 2_147_483_648
}

/// The number that a row begins with.
pub(crate) fn seed(number: u64) -> u64
    ensures value { result ≡ number % 2 ^ 31 }
    ensures below { result < 2 ^ 31 }
{
    number % 2_147_483_648
}

/// The draw at a number of the row.
pub(crate) fn drawn(state: u64) -> u64
    ensures { result ≡ state / 65536 }
{
    state / 65_536
}

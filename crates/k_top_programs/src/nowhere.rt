//! A sink that nobody reads.
use k_edge::{PutFault, Sink};

/// A sink that takes all bytes and keeps none.
#[derive(Drop)]
pub struct Nowhere {}

impl Sink for Nowhere {
    ghost use Rattle.std.specs.Prelude.{None};

    ghost seen = { λ s. record { written = None; faults = 0 } };

    fn put(&mut self, _piece: &[u8]) -> Result<(), PutFault> {
        Ok(())
    }
}

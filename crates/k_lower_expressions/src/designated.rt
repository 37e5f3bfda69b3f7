//! What an expression designates.

use k_code::Arg;

/// What an expression designates.
#[derive(Clone, Copy)]
pub enum Designated {
    /// The register of this number, and whether the read of it is broken.
    InRegister(u32, bool),
    /// The element at this address.
    InMemory(Arg),
}

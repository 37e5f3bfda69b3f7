//! What operations are made on, before it is read, and what an assignment is to.

use k_world::{Held, Value};

/// Where a value is while it waits to be used.
#[derive(Clone, Copy)]
pub enum Operand {
    /// A constant, which no operation gave.
    Constant(Value),
    /// A value and the operation that gave it.
    Holding(Held),
    /// The register variable of this number in its function, which is read when the operation that uses it is
    /// made; and whether that dependence is broken.
    Register(u32, bool),
}

/// What an expression designates that is a place (C17 6.3.2.1p1: an lvalue).
#[derive(Clone, Copy)]
pub enum Target {
    /// The register variable of this number in its function; and whether a read of it here is broken.
    InRegister(u32, bool),
    /// The element that this operand points to.
    InMemory(Operand),
}

//! How statements end.

use k_world::Held;

/// How a statement ends (C17 6.8.6).
#[derive(Clone, Copy)]
pub enum Flow {
    /// The next statement follows.
    Normal,
    /// By a `break`: the nearest loop or switch around it ends.
    Broke,
    /// By a `continue`: the turn of the nearest loop around it ends.
    Continued,
    /// By a `return`, with a value or none: the call ends.
    Returned(Option<Held>),
}

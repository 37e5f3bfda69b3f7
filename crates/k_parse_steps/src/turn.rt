//! What a token does.

/// What a token does in something that is read.
#[derive(Drop)]
pub enum Turn<S, V> {
    /// The reading goes on from this state; the number is the deepest level that the token makes sure.
    Goes(S, usize),
    /// The reading is done, with this value.
    Done(V),
    /// The token can't stand here.
    Refused,
}

//! Pointers into objects.

/// A pointer to an element of an object, or to the place one past its last element. It may be kept longer than
/// the object lives.
#[derive(Clone, Copy, Debug, PartialEq, Eq, Hash)]
pub struct Pointer {
    /// The number of the object. No other object ever has it.
    pub object: u64,
    /// The place within the object, counted in elements from 0.
    pub offset: u64,
}

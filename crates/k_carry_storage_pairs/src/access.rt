//! Accesses of elements.

use k_mem::Pointer;

/// A load or a store of an element.
#[derive(Clone, Copy, Debug)]
pub struct Access {
    /// Whether it is a store.
    pub writes: bool,
    /// The element, told by the number of its object and its place there.
    pub element: Pointer,
}

//! Operations with their places.

use k_num::Place;

/// An operation and its place.
#[derive(Clone, Copy, Debug)]
pub struct Origin {
    pub number: u64,
    pub place: Place,
}

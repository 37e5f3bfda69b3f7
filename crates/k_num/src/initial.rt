//! With what the elements of an object begin.

/// The number with which one element of an object begins; the element is counted from 0. Elements of which no number is given begin
/// with 0 (C17 6.7.9p21).
#[derive(Clone, Copy, Debug, PartialEq, Eq)]
pub struct Initial {
    pub element: u32,
    pub number: i128,
}

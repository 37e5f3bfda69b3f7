//! The two precisions of real numbers.

/// How precise a real is: `float` is Single, IEEE 754's binary32, and `double` is Double, its binary64.
#[derive(Clone, Copy, Debug, PartialEq, Eq, Hash)]
pub enum Precision {
    Single,
    Double,
}

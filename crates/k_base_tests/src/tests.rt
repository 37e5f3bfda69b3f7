//! One file for what is tested.
mod host;
mod math;
mod reals;
mod shapes;

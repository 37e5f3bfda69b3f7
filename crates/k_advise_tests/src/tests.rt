//! One file for what is tested.
mod nest;
mod plans;
mod words;

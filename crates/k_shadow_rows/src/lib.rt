//! Lists of rows of times in the order of locations, all with times for 8 levels or all for 32, of 32 bits all or of 64.
#![tactic(auto)]

mod given;
mod lanes;
mod level_row;
mod lists;
mod rows;

pub use rows::Rows;

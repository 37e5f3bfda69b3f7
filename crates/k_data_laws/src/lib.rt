//! What `show` writes of a profile as data, as JSON and as CSV, is read back as the same data.
#![tactic(auto)]

pub mod laws;
mod read_back;

pub use read_back::{read_document, read_table};

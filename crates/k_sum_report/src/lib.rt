//! What `show` writes of a sum: its report, its JSON document, and its rows as CSV.
#![tactic(auto)]

pub mod laws;
mod parts;
mod shown;

pub use shown::{sum_document, sum_report, sum_table};

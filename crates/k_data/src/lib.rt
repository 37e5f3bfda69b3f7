//! A profile as data for other programs: as one JSON document, and its rows as CSV.
#![tactic(auto)]

mod document;
mod records;
mod table;

pub use document::{profile_json, sum_json};
pub use table::rows_csv;

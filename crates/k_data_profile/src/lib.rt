//! A profile in other forms than its report: rows, contexts and plan as a JSON document, the rows as CSV, and a page of HTML.
#![tactic(auto)]

pub mod laws;
mod paged;
mod shown;

pub use paged::run_page;
pub use shown::{document_of, table_of};

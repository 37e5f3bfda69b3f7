//! The texts of a profile: the report, and the listing of the dependence graph.
#![tactic(auto)]

mod dict_lines;
mod event_lines;
mod graph_lines;
mod heading;
mod instance_lines;
pub mod laws;
mod plan_lines;
mod regions;
mod report_lines;

pub use graph_lines::graph_text;
pub use heading::Heading;
pub use plan_lines::wide_line;
pub use report_lines::{headed_report, large_line, report, report_large};

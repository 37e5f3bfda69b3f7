//! The report of a profile, and the profile and the report of a run: rows, contexts, plan and text.
#![tactic(auto)]

pub mod laws;
mod report;
mod run;

pub use report::report_of;
pub use run::{Profiled, run_report, summary_report};

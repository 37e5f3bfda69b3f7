//! The answers of the commands: of those that run a program, each from a program that is ready to run.
#![tactic(auto)]

mod annotated;
mod carried;
mod checked;
mod demo;
mod graph;
mod paged;
mod replayed;
mod reported;
mod shown;
mod summary;

pub use annotated::annotate_answer;
pub use carried::carried_answer;
pub use checked::check_answer;
pub use demo::demo_answer;
pub use graph::graph_answer;
pub use paged::page_answer;
pub use replayed::replay_answer;
pub use reported::run_answer;
pub use shown::show_answer;

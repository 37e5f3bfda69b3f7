//! What a run of a program is made of: classes of operations, their latencies, regions, and the list of events. The
//! definitions of a run's instances, of its dependence graph, and of work and critical path stand in `specs/`.
#![tactic(auto)]

mod class;
mod closed;
mod event;
mod latencies;
pub mod laws;
mod node;
mod region;
mod sources;
mod table;
mod toml_table;

pub use class::Class;
pub use closed::Closed;
pub use event::{Event, Src, count_operations};
pub use latencies::{Latencies, name, of, standard};
pub use node::Node;
pub use region::{Region, RegionKind};
pub use sources::Sources;
pub use table::Table;
pub use toml_table::{TableFault, from_toml};

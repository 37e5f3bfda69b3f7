//! The outside: where bytes come from and go to, and files by their names. Each is a trait whose faults are
//! counted, so that a proved program can blame the outside only where a count rose. There are implementations in
//! memory, which tell their content, and adapters over the real thing, which don't.
#![tactic(auto)]

mod count;
mod files;
mod host;
pub mod laws;
mod memory;
mod reading;
mod request;
mod sink;
mod source;

pub use files::{Files, LoadFault, SaveFault};
pub use host::files::HostFiles;
pub use host::streams::{StdSink, StdSource};
pub use memory::files::{MemFiles, SureFiles};
pub use memory::sink::{MemSink, SureSink};
pub use memory::source::{MemSource, SureSource};
pub use reading::{ReadAllFault, read_all};
pub use request::Request;
pub use sink::{PutFault, Sink};
pub use source::{Failed, Source};

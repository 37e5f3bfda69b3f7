//! Sources, sinks and files in memory. Those named `Mem` fail at the calls that a list names, and those named
//! `Sure` never fail.
pub mod files;
pub mod sink;
pub mod source;

//! Saved profiles: written in format 2, and read line by line in format 2 or in format 1, of which one of format 2 is made. A file is refused at its
//! first wrong line.
#![tactic(auto)]

mod fault;
mod file;
mod format;
pub mod laws;
mod loading;
mod migration;
mod reading;
mod saved;
mod saving;

pub use fault::SavedFault;
pub use file::File;
pub use format::{Accepts, Format};
pub use loading::{read, read_old};
pub use migration::migrate;
pub use reading::{
    Extent, Halt, Stop, Sums, are_rising, count_line, is_end, is_main, mark, mark_all, named,
    next_entry, next_region, read_file, runs, sums_of,
};
pub use saved::{Old, Saved};
pub use saving::write;

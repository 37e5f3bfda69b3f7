//! A program of a file is made ready to run, and run: its files and its input are read, its source is accepted or refused, and it runs on the machine, or
//! its events are listed.
#![tactic(auto)]

mod input;
mod loading;
mod machine;
mod nowhere;
mod program;
mod running;

pub use loading::{FILE_LIMIT, PROFILE_LIMIT, load};
pub use machine::{dict_of, run_program};
pub use nowhere::Nowhere;
pub use program::accept;
pub use running::{listing, make_ready};

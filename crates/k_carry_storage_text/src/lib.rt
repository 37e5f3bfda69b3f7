//! What the turns of the loops of a run share in memory, as text: for each loop a line, and a line for each of its storage pairs.
#![tactic(auto)]

mod lines;

pub use lines::storage_text;

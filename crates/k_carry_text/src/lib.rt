//! What the loops of a run carry from turn to turn, as text: for each loop a line, and a line for each of its pairs of places.
#![tactic(auto)]

mod lines;

pub use lines::carried_text;

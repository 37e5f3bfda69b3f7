//! How the parts of a run end: what expressions and statements leave of the control source, and by which jumps statements end.
#![tactic(auto)]

pub mod laws;

//! Laws of *Rounds*: by the sources of its operations alone a run has one schedule of workers, and it is that of each record of the run.
#![tactic(auto)]

pub mod laws;

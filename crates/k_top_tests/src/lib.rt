//! What the top call asks of the outside, call by call, and what comes where shadows find no room, over files, inputs and sinks in memory. There is nothing here
//! but tests: in a crate of their own they prove no other crate a second time. What the built program answers is tested by tests/run and tests/faults.
#![tactic(auto)]

#[cfg(test)]
mod tests;

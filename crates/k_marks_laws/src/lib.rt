//! Laws of counted loops and of reductions, over *Marks* and *Evaluation*. Those of `laws` come twice: with what typing gives as a premise, and then for each
//! source that has a typed tree.
#![tactic(auto)]

pub mod laws;

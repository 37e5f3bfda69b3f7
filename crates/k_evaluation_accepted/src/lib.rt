//! Laws of *Evaluation* on the values of accepted programs: that they are of their kinds takes no more than that some text is accepted as the
//! program. The statement stands in specs/.
#![tactic(auto)]

pub mod laws;

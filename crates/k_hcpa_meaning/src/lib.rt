//! What the machine keeps of a run, and what it means: the times of all locations at each live level, the summaries of instances, and the
//! configuration of flat code that they belong to. The definitions stand in specs/.
#![tactic(auto)]

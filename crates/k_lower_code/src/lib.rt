//! Lowered code: the flat code of a typed program, construct by construct. The definitions stand in specs/, one combinator for each
//! construct, in files that are named as those of *Evaluation*.
#![tactic(auto)]

//! What holds of the trees of instances, of the entries that stand for them, and of the rules of a profile, whether it is run, saved or told. The lemmas stand
//! in proofs/.
#![tactic(auto)]

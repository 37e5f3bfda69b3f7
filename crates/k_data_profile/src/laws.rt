//! What holds of these texts: each function's contract is a law, and its body does nothing.
ghost use Rattle.k_data_profile.specs.Laws.{DocumentIsUnique, RunPageIsUnique, TableIsUnique};

/// A profile has one document and one table, and a run one page.
pub fn one_text()
    ensures document { DocumentIsUnique }
    ensures table { TableIsUnique }
    ensures page { RunPageIsUnique }
{}

//! What holds of the texts of sums: the function's contract is a law, and its body does nothing.
ghost use Rattle.k_sum_report.specs.Laws.{SumDocumentIsUnique, SumReportIsUnique, SumTableIsUnique};

/// A sum that can be saved has one report, one document and one table.
pub fn one_text()
    ensures report { SumReportIsUnique }
    ensures document { SumDocumentIsUnique }
    ensures table { SumTableIsUnique }
{}

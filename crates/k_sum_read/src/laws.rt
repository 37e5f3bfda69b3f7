//! What holds of sums that can be saved: each function's contract is a law, and its body does nothing.
ghost use Rattle.k_sum_read.specs.AnyFile.{NoFileIsOfBoth};
ghost use Rattle.k_sum_read.specs.Laws.{FileIsOfOne, LinesLead, NoSumIsWrong, ReadOfWrite};

/// The lines of a sum lead to its end, and none of them is wrong.
pub fn lines_of_sum()
    ensures lead { LinesLead }
    ensures right { NoSumIsWrong }
{}

/// What `read_sum` may answer to the file of a sum is that sum, and no two sums have one file.
pub fn read_of_write()
    ensures same { ReadOfWrite }
    ensures one { FileIsOfOne }
{}

/// No file of a sum is that of a saved profile: the first line tells.
pub fn first_line_tells()
    ensures { NoFileIsOfBoth }
{}

//! Laws of times where calls are made and return: each function's contract is a law, and its body does nothing.
ghost use Rattle.k_hcpa_calls.specs.Laws.{CallsHavePaths, CallsKeepTimes, HandedCallsHavePaths, LastReturnsHavePaths, ReturnsKeepTimes, StartsAreTimed};

/// A call hands its operands' times to the parameters, and makes its operation; then its region is entered, or the run ends there.
pub fn calls()
    ensures times { CallsKeepTimes }
    ensures paths { CallsHavePaths }
    ensures handed { HandedCallsHavePaths }
{}

/// A call that returns gives the register of its caller the time of the return's operation, and leaves its regions; the oldest one leaves all.
pub fn returns()
    ensures times { ReturnsKeepTimes }
    ensures paths { LastReturnsHavePaths }
{}

/// Before the first instruction main's region alone is open, and nothing has a time.
pub fn start()
    ensures { StartsAreTimed }
{}

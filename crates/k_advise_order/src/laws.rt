//! What holds of statements beside one that keeps the least or the greatest: each function's contract is a law, and its
//! body does nothing.
ghost use Rattle.k_advise_order.specs.Laws.{AloneIsFree, CompanyIsLed, OrderTells};

/// The least of values is the same in each order, and how often it is replaced is not.
pub fn order_tells()
    ensures { OrderTells }
{}

/// A statement that keeps the least or the greatest alone leads nothing; one with another beside it is told with its
/// scalar.
pub fn company()
    ensures alone { AloneIsFree }
    ensures beside { CompanyIsLed }
{}

//! Sorts of loops.

/// Which statement a loop is.
#[derive(Clone, Copy)]
pub enum LoopSort {
    /// `while ( test ) body`
    While,
    /// `do body while ( test ) ;`
    Do,
    /// `for ( first test ; step ) body`
    For,
}

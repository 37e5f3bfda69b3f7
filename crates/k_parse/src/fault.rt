//! What comes of a token list.

use k_num::Place;

/// Why a token list is refused.
#[derive(Clone, Copy, Debug, PartialEq, Eq)]
pub enum ParseFault {
    /// No source begins with the tokens up to the one at this place.
    Syntax(Place),
    /// Only a source that is nested too deep begins with the tokens up to the one at this place.
    TooDeep(Place),
    /// The tree has too many nodes.
    NodesMany,
    /// No memory was found.
    Memory,
}

//! Text in which macros are replaced (C17 6.10.3).

use k_num::Place;

/// Where text stands: in a source, or in the condition of the directive with this `#`.
#[derive(Clone, Copy)]
pub enum Purpose {
    Source,
    Condition(Place),
}

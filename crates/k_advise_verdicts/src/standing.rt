//! Where a loop stands in a plan.

/// Where a loop stands in a plan, by the contexts of its region.
#[derive(Clone, Copy)]
pub struct Standing {
    /// Whether one of its contexts is a pick.
    pub picked: bool,
    /// Where a pick is above each of its contexts: the region of the one above the first of them.
    pub inside: Option<u32>,
    /// Whether one of its contexts saves something.
    pub saves: bool,
}

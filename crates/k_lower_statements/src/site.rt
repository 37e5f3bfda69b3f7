//! Where a statement stands.

/// Where a statement stands: how many objects of the call are live, and to which instructions its `break` and its `continue` go.
#[derive(Clone, Copy)]
pub struct Site {
    pub objects: u32,
    pub breaks: u32,
    pub continues: u32,
}

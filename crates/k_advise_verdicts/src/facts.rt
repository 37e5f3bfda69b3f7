//! What is known of a loop of a source, beside its row and its pairs.

use k_num::Place;

/// A condition under which *Wide marks* count a loop, in the order in which they are asked.
#[derive(Clone, Copy, PartialEq, Eq)]
pub enum Condition {
    /// It is a `for` or a `while`.
    TestedFirst,
    /// It steps a variable.
    Steps,
    /// Its test has no side effect but a step, and is built from what is fixed in the loop and what it steps.
    Steered,
    /// Its body holds no `break` of this loop.
    Unbroken,
    /// Its body holds no `return`, `exit` or `abort`.
    Unleft,
}

/// A condition that fails, and the place of what makes it fail.
#[derive(Clone, Copy, PartialEq, Eq)]
pub struct Failing {
    pub condition: Condition,
    pub place: Place,
}

/// A variable or an array of a source, by its number.
#[derive(Clone, Copy, PartialEq, Eq)]
pub enum Named {
    /// One of the loop's function.
    Local(u32),
    /// One of the file.
    Global(u32),
}

/// What the turns of a loop took in a run.
#[derive(Clone, Copy, PartialEq, Eq)]
pub struct Turns {
    /// How many there are.
    pub count: u64,
    /// Their works together.
    pub work: u64,
    /// The greatest work of one.
    pub greatest: u64,
}

/// What is known of a loop of a source, beside its row, its pairs and its standing in a plan.
#[derive(Clone, Copy)]
pub struct LoopFacts {
    /// The number of its region.
    pub region: u32,
    /// Whether its text meets the conditions of *Annotation*, with *Wide marks*.
    pub markable: bool,
    /// Whether an instance of it lay too deep to be looked at.
    pub deep: bool,
    /// The first condition of a counted loop that it fails, if it is not counted.
    pub uncounted: Option<Failing>,
    /// Where the first `break` or `return` stands that leaves it, if there is one.
    pub leaves: Option<Place>,
    /// The first register variable that its turns would share, if there is one.
    pub kept_in_common: Option<u32>,
    /// The array of which each turn could have its own, since all its storage pairs are of this one and each turn
    /// writes it before it reads it.
    pub own: Option<Named>,
    pub turns: Turns,
}

//! The `#if`s that are open where a line stands, the innermost on top.
ghost use Rattle.std.specs.Prelude.{◌≡◌, IfOk};
ghost use Rattle.k_lex_groups.specs.Steps as spec;

use k_num::{NoMemory, Place, Stack};

/// An `#if` that is open, with what came behind it in its nesting.
#[derive(Clone, Copy)]
pub struct Group {
    /// Where the `#if` stands.
    pub place: Place,
    /// A group of it may still be read: none was, and the `#if` is read itself.
    pub waits: bool,
    /// Its last group is read.
    pub reads: bool,
    /// Its last group is that of `#else`.
    pub ends: bool,
}

/// Is the line read?
pub fn is_read(opens: &Stack<Group>) -> bool
    ensures { result ≡ spec.is_read opens.now }
{
    match opens.top() {
        Some(group) => group.reads,
        None => true,
    }
}

/// Is the condition of an `#elif` looked at here?
pub fn asks(opens: &Stack<Group>) -> bool
    ensures { result ≡ spec.asks opens.now }
{
    match opens.top() {
        Some(group) => group.waits,
        None => false,
    }
}

/// The place of the innermost `#if` that is open. The end of a source is a fault there.
pub fn innermost(opens: &Stack<Group>) -> Option<Place>
    ensures { result ≡ spec.innermost opens.now }
{
    match opens.top() {
        Some(group) => Some(group.place),
        None => None,
    }
}

/// Behind an `#if` at this place, whose condition holds or not. Where the line isn't read the condition changes nothing.
pub fn opened(opens: Stack<Group>, place: Place, holds: bool) -> Result<Stack<Group>, NoMemory>
    ensures { IfOk result (λ new. new ≡ spec.opened place holds opens) }
{
    let here = is_read(&opens);
    let mut opens = opens;
    opens.push(Group {
        place,
        waits: here && !holds,
        reads: here && holds,
        ends: false,
    })?;
    Ok(opens)
}

/// Behind an `#elif`, whose condition holds or not. Where it isn't asked for the condition changes nothing. `None` where no `#elif` can stand.
pub fn another(opens: Stack<Group>, holds: bool) -> Result<Option<Stack<Group>>, NoMemory>
    ensures { IfOk result (λ new. new ≡ spec.another holds opens) }
{
    let mut opens = opens;
    let Some(group) = opens.pop() else {
        return Ok(None);
    };
    if group.ends {
        return Ok(None);
    }
    opens.push(Group {
        place: group.place,
        waits: group.waits && !holds,
        reads: group.waits && holds,
        ends: false,
    })?;
    Ok(Some(opens))
}

/// Behind an `#else`. `None` where none can stand.
pub fn otherwise(opens: Stack<Group>) -> Result<Option<Stack<Group>>, NoMemory>
    ensures { IfOk result (λ new. new ≡ spec.otherwise opens) }
{
    let mut opens = opens;
    let Some(group) = opens.pop() else {
        return Ok(None);
    };
    if group.ends {
        return Ok(None);
    }
    opens.push(Group {
        place: group.place,
        waits: false,
        reads: group.waits,
        ends: true,
    })?;
    Ok(Some(opens))
}

/// Behind an `#endif`. `None` where none can stand.
pub fn closed(opens: Stack<Group>) -> Option<Stack<Group>>
    ensures { result ≡ spec.closed opens }
{
    let mut opens = opens;
    match opens.pop() {
        Some(_) => Some(opens),
        None => None,
    }
}

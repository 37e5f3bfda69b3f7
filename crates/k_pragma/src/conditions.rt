//! What a loop's text has to do with its variables so that its turns may run in parallel.
ghost use Rattle.std.specs.Prelude.{◌≡◌, count_by, nat_eq};
ghost use Rattle.std.specs.List.{list_any};
ghost use Rattle.k_marks_meaning.specs.Loops.{is_number, is_number_register, same_group};
ghost use Rattle.k_pragma.specs.Conditions as spec;

use k_marks_meaning::Group;
use k_pragma_texts::{How, LoopText, Occurrence, Setter, Text};
use k_types_meaning::{TType, TVariable};

/// Whether an occurrence is a read.
fn is_read(how: How) -> bool
    ensures { result ≡ spec.is_read how }
{
    match how {
        How::Reads | How::Changes | How::Reduces(_) => true,
        How::Sets | How::Declares => false,
    }
}

/// Whether an occurrence assigns its variable.
fn is_assigned(how: How) -> bool
    ensures { result ≡ spec.is_assigned how }
{
    match how {
        How::Sets | How::Changes | How::Reduces(_) => true,
        How::Reads | How::Declares => false,
    }
}

/// Whether an occurrence declares its variable.
fn is_declared(how: How) -> bool
    ensures { result ≡ spec.is_declared how }
{
    match how {
        How::Declares => true,
        How::Reads | How::Sets | How::Changes | How::Reduces(_) => false,
    }
}

/// Whether two groups are one.
fn same_group(one: Group, other: Group) -> bool
    ensures { result ≡ same_group one other }
{
    match one {
        Group::Sums => matches!(other, Group::Sums),
        Group::Products => matches!(other, Group::Products),
        Group::Ands => matches!(other, Group::Ands),
        Group::Ors => matches!(other, Group::Ors),
        Group::Xors => matches!(other, Group::Xors),
    }
}

/// Whether an occurrence is in a statement that reduces its variable by operators of this group.
fn reduces(group: Group, how: How) -> bool
    ensures { result ≡ spec.reduces group how }
{
    match how {
        How::Reduces(by) => same_group(by, group),
        How::Reads | How::Sets | How::Changes | How::Declares => false,
    }
}

/// Whether a node lies in a loop's text.
fn in_text(at: LoopText, node: u32) -> bool
    ensures { result ≡ spec.in_text at node }
{
    at.node <= node && node <= at.last
}

/// Whether this is an occurrence of a variable.
fn is_of(occurrence: &Occurrence, variable: usize) -> bool
    ensures { result ≡ spec.is_of variable occurrence.now }
{
    occurrence.variable as usize == variable
}

/// Whether this is an occurrence of a variable in the loop's text.
fn occurs_in_text(at: LoopText, variable: usize, occurrence: &Occurrence) -> bool
    ensures { result ≡ spec.occurs_in_text at variable occurrence.now }
{
    is_of(occurrence, variable) && in_text(at, occurrence.node)
}

/// Whether this assigns a variable in the loop's text.
fn assigns_in(at: LoopText, variable: usize, occurrence: &Occurrence) -> bool
    ensures { result ≡ spec.assigns_in at variable occurrence.now }
{
    occurs_in_text(at, variable, occurrence) && is_assigned(occurrence.how)
}

/// Whether this declares a variable in the loop's text.
fn declares_in(at: LoopText, variable: usize, occurrence: &Occurrence) -> bool
    ensures { result ≡ spec.declares_in at variable occurrence.now }
{
    occurs_in_text(at, variable, occurrence) && is_declared(occurrence.how)
}

/// Whether a variable is assigned in the loop's text.
fn assigned_in(occurs: &[Occurrence], at: LoopText, variable: usize) -> bool
    ensures { result ≡ spec.assigned_in occurs.now at variable }
{
    occurs
        .iter()
        .any(|occurrence| assigns_in(at, variable, occurrence))
}

/// Whether a variable is declared in the loop's text.
fn declared_in(occurs: &[Occurrence], at: LoopText, variable: usize) -> bool
    ensures { result ≡ spec.declared_in occurs.now at variable }
{
    occurs
        .iter()
        .any(|occurrence| declares_in(at, variable, occurrence))
}

/// Whether a variable is the one that the loop's step counts.
fn is_counter(counter: Option<u32>, variable: usize) -> bool
    ensures { result ≡ spec.is_counter counter variable }
{
    match counter {
        None => false,
        Some(counter) => counter as usize == variable,
    }
}

/// Whether this is an occurrence of a variable in test, step or body, or by which the loop declares it.
fn occurs_in_turns(at: LoopText, variable: usize, occurrence: &Occurrence) -> bool
    ensures { result ≡ spec.occurs_in_turns at variable occurrence.now }
{
    occurs_in_text(at, variable, occurrence)
        && (at.head < occurrence.node || is_declared(occurrence.how))
}

/// Whether this is no occurrence of a variable in the turns but in a statement that reduces it by operators of this group.
fn keeps_reduction(at: LoopText, group: Group, variable: usize, occurrence: &Occurrence) -> bool
    ensures { result ≡ spec.keeps_reduction at group variable occurrence.now }
{
    !occurs_in_turns(at, variable, occurrence) || reduces(group, occurrence.how)
}

/// Whether a type is that of a whole number.
fn is_number(of: TType) -> bool
    ensures { result ≡ is_number of }
{
    match of {
        TType::Number(_) => true,
        TType::Void | TType::Pointer(_) => false,
    }
}

/// Whether a variable is a whole number in a register.
fn is_number_register(variable: &TVariable) -> bool
    ensures { result ≡ is_number_register variable.now }
{
    is_number(variable.of) && variable.elements == 0
}

/// Whether a variable occurs in test, step or body, or the loop declares it.
fn occurs_somewhere(occurs: &[Occurrence], at: LoopText, number: usize) -> bool
    ensures { result ≡ spec.occurs_somewhere occurs.now at number }
{
    occurs
        .iter()
        .any(|occurrence| occurs_in_turns(at, number, occurrence))
}

/// Whether all these occurrences of a variable are in statements that reduce it by operators of this group.
fn all_reduce(occurs: &[Occurrence], at: LoopText, group: Group, number: usize) -> bool
    ensures { result ≡ spec.all_reduce occurs.now at group number }
{
    occurs.iter().all(|occurrence| keeps_reduction(at, group, number, occurrence))
}

/// Whether a variable of this number is a reduction of the loop by operators of this group.
pub(crate) fn is_reduction(
    occurs: &[Occurrence],
    at: LoopText,
    group: Group,
    number: usize,
    variable: &TVariable,
) -> bool
    ensures { result ≡ spec.is_reduction occurs.now at group number variable.now }
{
    is_number_register(variable)
        && (occurs_somewhere(occurs, at, number) && all_reduce(occurs, at, group, number))
}

/// Whether a variable of this number is a reduction of the loop.
fn is_some_reduction(
    occurs: &[Occurrence],
    at: LoopText,
    number: usize,
    variable: &TVariable,
) -> bool
    ensures { result ≡ spec.is_some_reduction occurs.now at number variable.now }
{
    is_reduction(occurs, at, Group::Sums, number, variable)
        || (is_reduction(occurs, at, Group::Products, number, variable)
            || (is_reduction(occurs, at, Group::Ands, number, variable)
                || (is_reduction(occurs, at, Group::Ors, number, variable)
                    || is_reduction(occurs, at, Group::Xors, number, variable))))
}

/// Whether an assignment feeds a read.
fn feeds(setter: &Setter, read: &Occurrence) -> bool
    ensures { result ≡ spec.feeds setter.now read.now }
{
    setter.variable == read.variable && (setter.node < read.node && read.node <= setter.last)
}

/// Whether a loop lies where an assignment feeds reads.
fn lies_behind(setter: &Setter, at: LoopText) -> bool
    ensures { result ≡ spec.lies_behind setter.now at }
{
    setter.node < at.node && at.node <= setter.last
}

/// Whether an assignment lies in a loop, and is not its first part.
fn lies_in(setter: &Setter, at: LoopText) -> bool
    ensures { result ≡ spec.lies_in setter.now at }
{
    at.node < setter.node && setter.node <= at.last
}

/// Whether this assignment feeds a read, and the loop does not lie behind it.
fn feeds_without(at: LoopText, read: &Occurrence, setter: &Setter) -> bool
    ensures { result ≡ spec.feeds_without at read.now setter.now }
{
    feeds(setter, read) && !lies_behind(setter, at)
}

/// Whether this assignment feeds a read, and lies in the loop.
fn feeds_within(at: LoopText, read: &Occurrence, setter: &Setter) -> bool
    ensures { result ≡ spec.feeds_within at read.now setter.now }
{
    feeds(setter, read) && lies_in(setter, at)
}

/// Whether a read is fed by an assignment behind which the loop does not lie.
fn fed_without(setters: &[Setter], at: LoopText, read: &Occurrence) -> bool
    ensures { result ≡ spec.fed_without setters.now at read.now }
{
    setters.iter().any(|setter| feeds_without(at, read, setter))
}

/// Whether a read is fed by an assignment in the loop.
fn fed_within(setters: &[Setter], at: LoopText, read: &Occurrence) -> bool
    ensures { result ≡ spec.fed_within setters.now at read.now }
{
    setters.iter().any(|setter| feeds_within(at, read, setter))
}

/// Whether an occurrence is a read of this variable.
fn is_read_of(variable: usize, occurrence: &Occurrence) -> bool
    ensures { result ≡ spec.is_read_of variable occurrence.now }
{
    is_of(occurrence, variable) && is_read(occurrence.how)
}

/// Whether an occurrence, if it is a read of this variable outside the loop, is fed by an assignment behind which the loop does not lie.
fn keeps_settled(setters: &[Setter], at: LoopText, variable: usize, occurrence: &Occurrence) -> bool
    ensures { result ≡ spec.keeps_settled setters.now at variable occurrence.now }
{
    !is_read_of(variable, occurrence)
        || (in_text(at, occurrence.node) || fed_without(setters, at, occurrence))
}

/// Whether an occurrence, if it is a read of this variable in the loop, is fed by an assignment in the loop.
fn keeps_private(setters: &[Setter], at: LoopText, variable: usize, occurrence: &Occurrence) -> bool
    ensures { result ≡ spec.keeps_private setters.now at variable occurrence.now }
{
    !is_read_of(variable, occurrence)
        || (!in_text(at, occurrence.node) || fed_within(setters, at, occurrence))
}

/// Whether a variable is settled outside a loop.
fn is_settled(occurs: &[Occurrence], setters: &[Setter], at: LoopText, variable: usize) -> bool
    ensures { result ≡ spec.is_settled occurs.now setters.now at variable }
{
    occurs.iter().all(|occurrence| keeps_settled(setters, at, variable, occurrence))
}

/// Whether each read of a variable in the loop is fed by an assignment in the loop.
fn fed_inside(occurs: &[Occurrence], setters: &[Setter], at: LoopText, variable: usize) -> bool
    ensures { result ≡ spec.fed_inside occurs.now setters.now at variable }
{
    occurs.iter().all(|occurrence| keeps_private(setters, at, variable, occurrence))
}

/// Whether a variable is private to a loop.
fn is_private(occurs: &[Occurrence], setters: &[Setter], at: LoopText, variable: usize) -> bool
    ensures { result ≡ spec.is_private occurs.now setters.now at variable }
{
    fed_inside(occurs, setters, at, variable) && is_settled(occurs, setters, at, variable)
}

/// Whether a variable of this number has to be private to the loop.
pub(crate) fn must_be_private(
    occurs: &[Occurrence],
    at: LoopText,
    number: usize,
    variable: &TVariable,
) -> bool
    ensures { result ≡ spec.must_be_private occurs.now at number variable.now }
{
    variable.elements == 0
        && (assigned_in(occurs, at, number)
            && (!declared_in(occurs, at, number)
                && (!is_counter(at.counter, number)
                    && !is_some_reduction(occurs, at, number, variable))))
}

/// Whether a variable of this number is private to the loop, if it has to be.
fn private_where_needed(
    occurs: &[Occurrence],
    setters: &[Setter],
    at: LoopText,
    number: usize,
    variable: &TVariable,
) -> bool
    ensures { result ≡ spec.private_where_needed occurs.now setters.now at number variable.now }
{
    !must_be_private(occurs, at, number, variable) || is_private(occurs, setters, at, number)
}

/// Whether each variable that has to be private to the loop is.
fn all_private(
    occurs: &[Occurrence],
    setters: &[Setter],
    at: LoopText,
    variables: &[TVariable],
) -> bool
    ensures { result ≡ spec.all_private occurs.now setters.now at variables.now }
{
    let mut number: usize = 0;
    for variable in variables {
        if !private_where_needed(occurs, setters, at, number, variable) {
            return false;
        }
        number += 1;
    }
    true
}

/// Whether the loop's variable, where it is declared outside, is settled outside.
fn counter_settled(occurs: &[Occurrence], setters: &[Setter], at: LoopText) -> bool
    ensures { result ≡ spec.counter_settled occurs.now setters.now at at.counter }
{
    match at.counter {
        None => false,
        Some(number) => {
            declared_in(occurs, at, number as usize)
                || is_settled(occurs, setters, at, number as usize)
        }
    }
}

/// Whether a node lies in the first part of a loop.
fn in_first(at: LoopText, node: u32) -> bool
    ensures { result ≡ spec.in_first at node }
{
    at.node <= node && node <= at.head
}

/// Whether a node lies in the test of a loop.
fn in_test(at: LoopText, node: u32) -> bool
    ensures { result ≡ spec.in_test at node }
{
    at.head < node && node <= at.test
}

/// Whether this is an occurrence of a variable in the first part.
fn occurs_first(at: LoopText, variable: usize, occurrence: &Occurrence) -> bool
    ensures { result ≡ spec.occurs_first at variable occurrence.now }
{
    is_of(occurrence, variable) && in_first(at, occurrence.node)
}

/// Whether this is an occurrence of a variable in the test.
fn occurs_in_test(at: LoopText, variable: usize, occurrence: &Occurrence) -> bool
    ensures { result ≡ spec.occurs_in_test at variable occurrence.now }
{
    is_of(occurrence, variable) && in_test(at, occurrence.node)
}

/// Whether a variable occurs once in the first part.
fn is_once_first(occurs: &[Occurrence], at: LoopText, variable: usize) -> bool
    ensures { result ≡ nat_eq (count_by (spec.occurs_first at variable) occurs.now) 1 }
{
    occurs
        .iter()
        .filter(|occurrence| occurs_first(at, variable, *occurrence))
        .count()
        == 1
}

/// Whether a variable occurs once in the test.
fn is_once_in_test(occurs: &[Occurrence], at: LoopText, variable: usize) -> bool
    ensures { result ≡ nat_eq (count_by (spec.occurs_in_test at variable) occurs.now) 1 }
{
    occurs
        .iter()
        .filter(|occurrence| occurs_in_test(at, variable, *occurrence))
        .count()
        == 1
}

/// Whether the loop's variable occurs once in the first part and once in the test.
fn named_once(occurs: &[Occurrence], at: LoopText) -> bool
    ensures { result ≡ spec.named_once occurs.now at at.counter }
{
    match at.counter {
        None => false,
        Some(number) => {
            is_once_first(occurs, at, number as usize)
                && is_once_in_test(occurs, at, number as usize)
        }
    }
}

/// Whether this is an occurrence of a variable in the first part or the test.
fn occurs_in_head(at: LoopText, variable: usize, occurrence: &Occurrence) -> bool
    ensures { result ≡ spec.occurs_in_head at variable occurrence.now }
{
    occurs_first(at, variable, occurrence) || occurs_in_test(at, variable, occurrence)
}

/// Whether a variable occurs in the first part or the test.
fn is_in_head(occurs: &[Occurrence], at: LoopText, variable: usize) -> bool
    ensures { result ≡ list_any (spec.occurs_in_head at variable) occurs.now }
{
    occurs
        .iter()
        .any(|occurrence| occurs_in_head(at, variable, occurrence))
}

/// Whether a variable of this number stands in a clause.
fn is_in_clause(occurs: &[Occurrence], at: LoopText, number: usize, variable: &TVariable) -> bool
    ensures { result ≡ spec.is_in_clause occurs.now at number variable.now }
{
    is_some_reduction(occurs, at, number, variable) || must_be_private(occurs, at, number, variable)
}

/// Whether a variable of this number does not occur in the first part and the test, or stands in no clause.
fn keeps_head(occurs: &[Occurrence], at: LoopText, number: usize, variable: &TVariable) -> bool
    ensures { result ≡ spec.keeps_head occurs.now at number variable.now }
{
    !is_in_head(occurs, at, number) || !is_in_clause(occurs, at, number, variable)
}

/// Whether first part and test have the same value in every thread.
fn head_stays(occurs: &[Occurrence], at: LoopText, variables: &[TVariable]) -> bool
    ensures { result ≡ spec.head_stays occurs.now at variables.now }
{
    let mut number: usize = 0;
    for variable in variables {
        if !keeps_head(occurs, at, number, variable) {
            return false;
        }
        number += 1;
    }
    true
}

/// Whether first part and test name the loop's variable once each, and nothing that stands in a clause.
pub(crate) fn has_plain_head(occurs: &[Occurrence], at: LoopText, variables: &[TVariable]) -> bool
    ensures { result ≡ spec.has_plain_head occurs.now at variables.now }
{
    named_once(occurs, at) && head_stays(occurs, at, variables)
}

/// Whether turns that run in threads of their own share no register.
pub(crate) fn shares_nothing(text: &Text, at: LoopText, variables: &[TVariable]) -> bool
    ensures { result ≡ spec.shares_nothing text.now.occurs.items text.now.setters.items at variables.now }
{
    let occurs = text.occurs.as_slice();
    let setters = text.setters.as_slice();
    counter_settled(occurs, setters, at) && all_private(occurs, setters, at, variables)
}

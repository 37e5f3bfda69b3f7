//! The OpenMP line of a loop.
ghost use Rattle.std.specs.Prelude.{◌≡◌, ◌++◌, map, IfOk, OnOk};
ghost use Rattle.std.specs.List.{flat_map};
ghost use Rattle.k_pragma.specs.Clauses as spec;
ghost use Rattle.k_pragma.specs.Clauses.{clause_head};
ghost use Rattle.k_pragma.specs.Names.{name_of as name_meant};
ghost use Rattle.k_pragma.specs.declared.clauses.Clause.TheVariants.{Reduction};

use crate::conditions::{is_reduction, must_be_private};
use crate::names::{are_apart, name_of};
use k_marks_meaning::Group;
use k_num::{NoMemory, Text};
use k_pragma_texts::{LoopText, Occurrence};
use k_text::push;
use k_types_meaning::TVariable;
use std::alloc::Global;

/// A clause of an OpenMP line.
#[derive(Clone, Copy, Debug, PartialEq, Eq)]
pub enum Clause {
    /// `reduction(op:names)`, by the operator of a group; of sums that is `+`.
    Reduction(Group),
    /// `private(names)`
    Private,
}

const SUMS: Clause = Clause::Reduction(Group::Sums);

const PRODUCTS: Clause = Clause::Reduction(Group::Products);

const ANDS: Clause = Clause::Reduction(Group::Ands);

const ORS: Clause = Clause::Reduction(Group::Ors);

const XORS: Clause = Clause::Reduction(Group::Xors);

/// Whether a variable of this number stands in a clause.
fn belongs(
    occurs: &[Occurrence],
    at: LoopText,
    clause: Clause,
    number: usize,
    variable: &TVariable,
) -> bool
    ensures { result ≡ spec.belongs occurs.now at clause number variable.now }
{
    match clause {
        Clause::Reduction(group) => is_reduction(occurs, at, group, number, variable),
        Clause::Private => must_be_private(occurs, at, number, variable),
    }
}

/// Adds the numbers of the variables that stand in a clause, in order of declaration.
fn push_numbers(
    occurs: &[Occurrence],
    at: LoopText,
    variables: &[TVariable],
    clause: Clause,
    numbers: &mut Vec<usize>,
) -> Result<(), NoMemory>
    ensures { OnOk result (numbers.new.items ≡ numbers.old.items ++ spec.numbers_in occurs.now at clause 0 variables.now) }
{
    let mut number: usize = 0;
    for variable in variables {
        if belongs(occurs, at, clause, number, variable) {
            numbers.push(number)?;
        }
        number += 1;
    }
    Ok(())
}

/// The numbers of the variables that stand in all clauses, one clause behind another.
fn all_numbers(
    alloc: Global,
    occurs: &[Occurrence],
    at: LoopText,
    variables: &[TVariable],
) -> Result<Vec<usize>, NoMemory>
    ensures { IfOk result (λ numbers. numbers.items ≡ spec.numbers_in_all occurs.now at variables.now spec.clauses) }
{
    let mut numbers = Vec::new(alloc);
    push_numbers(occurs, at, variables, SUMS, &mut numbers)?;
    push_numbers(occurs, at, variables, PRODUCTS, &mut numbers)?;
    push_numbers(occurs, at, variables, ANDS, &mut numbers)?;
    push_numbers(occurs, at, variables, ORS, &mut numbers)?;
    push_numbers(occurs, at, variables, XORS, &mut numbers)?;
    push_numbers(occurs, at, variables, Clause::Private, &mut numbers)?;
    Ok(numbers)
}

/// Whether the names in all clauses of a loop are words, and no two are one.
pub(crate) fn has_names(
    alloc: Global,
    names: &[Text],
    occurs: &[Occurrence],
    at: LoopText,
    variables: &[TVariable],
) -> Result<bool, NoMemory>
    ensures { IfOk result (λ has. has ≡ spec.has_names names.now occurs.now at variables.now) }
{
    let numbers = all_numbers(alloc, occurs, at, variables)?;
    Ok(are_apart(names, numbers.as_slice()))
}

/// A clause up to its first name.
fn clause_head(clause: Clause) -> &'static str
    ensures { result.now ≡ spec.clause_head clause }
{
    match clause {
        Clause::Reduction(group) => reduction_head(group),
        Clause::Private => " private(",
    }
}

/// A reduction up to its first name.
fn reduction_head(group: Group) -> &'static str
    ensures { result.now ≡ clause_head (Reduction group) }
{
    match group {
        Group::Sums => " reduction(+:",
        Group::Products => " reduction(*:",
        Group::Ands => " reduction(&:",
        Group::Ors => " reduction(|:",
        Group::Xors => " reduction(^:",
    }
}

/// The names of these variables, each behind a comma.
fn push_others(text: &mut Vec<u8>, names: &[Text], numbers: &[usize]) -> Result<(), NoMemory>
    ensures { OnOk result (text.new.items ≡ text.old.items ++ flat_map spec.behind_comma (map (name_meant names.now) numbers.now)) }
{
    for number in numbers {
        push(text, ",")?;
        push(text, name_of(names, *number))?;
    }
    Ok(())
}

/// A clause of these variables.
fn push_clause_of(
    text: &mut Vec<u8>,
    names: &[Text],
    clause: Clause,
    numbers: &[usize],
) -> Result<(), NoMemory>
    ensures { OnOk result (text.new.items ≡ text.old.items ++ spec.clause_of clause (map (name_meant names.now) numbers.now)) }
{
    match numbers.split_first() {
        None => Ok(()),
        Some((first, others)) => {
            push(text, clause_head(clause))?;
            push(text, name_of(names, *first))?;
            push_others(text, names, others)?;
            push(text, ")")
        }
    }
}

/// A clause of a loop of a function whose variables have these names.
fn push_clause(
    alloc: Global,
    text: &mut Vec<u8>,
    names: &[Text],
    occurs: &[Occurrence],
    at: LoopText,
    variables: &[TVariable],
    clause: Clause,
) -> Result<(), NoMemory>
    ensures { OnOk result (text.new.items ≡ text.old.items ++ spec.clause_text names.now occurs.now at variables.now clause) }
{
    let mut numbers = Vec::new(alloc);
    push_numbers(occurs, at, variables, clause, &mut numbers)?;
    push_clause_of(text, names, clause, numbers.as_slice())
}

/// The OpenMP line of a loop, between two newlines.
pub(crate) fn pragma_text(
    alloc: Global,
    names: &[Text],
    occurs: &[Occurrence],
    at: LoopText,
    variables: &[TVariable],
) -> Result<Vec<u8>, NoMemory>
    ensures { IfOk result (λ text. text.items ≡ spec.pragma_text names.now occurs.now at variables.now) }
{
    let mut text = Vec::new(alloc);
    push(&mut text, "\n#pragma omp parallel for")?;
    push_clause(alloc, &mut text, names, occurs, at, variables, SUMS)?;
    push_clause(alloc, &mut text, names, occurs, at, variables, PRODUCTS)?;
    push_clause(alloc, &mut text, names, occurs, at, variables, ANDS)?;
    push_clause(alloc, &mut text, names, occurs, at, variables, ORS)?;
    push_clause(alloc, &mut text, names, occurs, at, variables, XORS)?;
    push_clause(
        alloc,
        &mut text,
        names,
        occurs,
        at,
        variables,
        Clause::Private,
    )?;
    push(&mut text, "\n")?;
    Ok(text)
}

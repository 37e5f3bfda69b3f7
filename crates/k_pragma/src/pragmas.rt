//! The OpenMP lines of the loops that may be marked.
ghost use Rattle.std.specs.Prelude.{◌≡◌, ◌<◌, ◌^◌, ◌++◌, IfOk, OnOk, nat_eq};
ghost use Rattle.std.specs.List.{list_any};
ghost use Rattle.k_pragma.specs.Marked as spec;

use crate::clauses::{has_names, pragma_text};
use crate::conditions::{has_plain_head, shares_nothing};
use crate::names::names_of;
use k_carry_pairs::LoopPairs;
use k_num::{NoMemory, Seq, Text as Name};
use k_pragma_texts::{LoopText, Occurrence, Text, text_of};
use k_pragma_written::Written;
use k_types_meaning::{TFunc, TVariable};
use std::alloc::Global;

/// The OpenMP line of a loop, between two newlines.
#[derive(Drop)]
pub struct Pragma {
    /// The number of the loop's region.
    pub region: u64,
    pub text: Seq<u8>,
}

/// Whether the pairs of the loop of a region were looked for, and there are none.
fn is_without_pairs(region: u32, told: &LoopPairs) -> bool
    ensures { result ≡ spec.is_without_pairs region told.now }
{
    told.region == region && told.pairs.len() == 0
}

/// Whether the loop of a region is among the loops that were looked at, with no pairs.
fn carries_nothing(loops: &[LoopPairs], region: u32) -> bool
    ensures { result ≡ spec.carries_nothing loops.now region }
{
    loops.iter().any(|told| is_without_pairs(region, told))
}

/// The loops that are picked and carry nothing, by their regions.
pub(crate) fn candidates(
    alloc: Global,
    loops: &[LoopPairs],
    picked: &[u32],
) -> Result<Vec<u32>, NoMemory>
    ensures { IfOk result (λ regions. regions.items ≡ spec.candidates loops.now picked.now) }
{
    let mut regions = Vec::new(alloc);
    for region in picked {
        if carries_nothing(loops, *region) {
            regions.push(*region)?;
        }
    }
    Ok(regions)
}

/// Whether a region is among these.
fn is_among(among: &[u32], region: u64) -> bool
    ensures { result ≡ list_any (λ r. nat_eq r region) among.now }
{
    among.iter().any(|other| u64::from(*other) == region)
}

/// Whether the loop of this number has this.
fn is_set(list: &[bool], number: u32) -> bool
    ensures { result ≡ spec.is_set list.now number }
{
    match list.get(number as usize) {
        None => false,
        Some(set) => *set,
    }
}

/// Whether OpenMP gives a loop C's meaning.
fn has_meaning(bare: &[bool], occurs: &[Occurrence], at: LoopText, variables: &[TVariable]) -> bool
    ensures { result ≡ spec.has_meaning bare.now occurs.now at variables.now }
{
    (at.canonical && is_set(bare, at.number)) && has_plain_head(occurs, at, variables)
}

/// Whether a loop meets all conditions but those on the text at its place.
fn is_fit(
    among: &[u32],
    counted: &[bool],
    bare: &[bool],
    region: u64,
    variables: &[TVariable],
    text: &Text,
    at: LoopText,
) -> bool
    ensures { result ≡ spec.is_fit among.now counted.now bare.now region variables.now text.now.occurs.items text.now.setters.items at }
{
    (is_among(among, region) && is_set(counted, at.number))
        && (shares_nothing(text, at, variables)
            && has_meaning(bare, text.occurs.as_slice(), at, variables))
}

/// Whether it does, and the variables of its clauses have names of their own.
fn is_ready(
    alloc: Global,
    among: &[u32],
    counted: &[bool],
    bare: &[bool],
    names: &[Name],
    region: u64,
    variables: &[TVariable],
    text: &Text,
    at: LoopText,
) -> Result<bool, NoMemory>
    ensures { IfOk result (λ ready. ready
        ≡ spec.is_ready among.now counted.now bare.now names.now region variables.now text.now.occurs.items text.now.setters.items at) }
{
    if is_fit(among, counted, bare, region, variables, text, at) {
        has_names(alloc, names, text.occurs.as_slice(), at, variables)
    } else {
        Ok(false)
    }
}

/// The region of a loop of the function of this number.
fn region_of(function: u64, at: LoopText) -> u64
    requires small { function < 2 ^ 63 }
    ensures { result ≡ spec.region_of_loop function at.number }
{
    function + 1 + 2 * u64::from(at.number)
}

/// Notes the line of the loop of a region, where it is ready.
fn note_if(
    alloc: Global,
    ready: bool,
    region: u64,
    names: &[Name],
    occurs: &[Occurrence],
    at: LoopText,
    variables: &[TVariable],
    pragmas: &mut Vec<Pragma>,
) -> Result<(), NoMemory>
    ensures { OnOk result (pragmas.new.items ≡ pragmas.old.items ++ spec.pragma_if ready region names.now occurs.now at variables.now) }
{
    if ready {
        let line = pragma_text(alloc, names, occurs, at, variables)?;
        pragmas.push(Pragma {
            region,
            text: Seq::from_vec(line),
        })?;
    }
    Ok(())
}

/// Notes the line of a loop in the text of the function of this number, where it is ready.
fn note_pragma(
    alloc: Global,
    among: &[u32],
    counted: &[bool],
    bare: &[bool],
    names: &[Name],
    number: u64,
    variables: &[TVariable],
    text: &Text,
    at: LoopText,
    pragmas: &mut Vec<Pragma>,
) -> Result<(), NoMemory>
    requires small { number < 2 ^ 63 }
    ensures { OnOk result (pragmas.new.items ≡ pragmas.old.items
        ++ spec.pragma_by among.now counted.now bare.now names.now number variables.now text.now.occurs.items text.now.setters.items at) }
{
    let region = region_of(number, at);
    let ready = is_ready(
        alloc, among, counted, bare, names, region, variables, text, at,
    )?;
    let occurs = text.occurs.as_slice();
    note_if(alloc, ready, region, names, occurs, at, variables, pragmas)
}

/// Notes the lines of the loops in the text of the function of this number.
fn note_pragmas(
    alloc: Global,
    among: &[u32],
    counted: &[bool],
    bare: &[bool],
    names: &[Name],
    number: u64,
    variables: &[TVariable],
    text: &Text,
    pragmas: &mut Vec<Pragma>,
) -> Result<(), NoMemory>
    requires small { number < 2 ^ 63 }
    ensures { OnOk result (pragmas.new.items ≡ pragmas.old.items
        ++ spec.pragmas_of_text among.now counted.now bare.now names.now number variables.now text.now.occurs.items text.now.setters.items text.now.loops.items) }
{
    for at in text.loops.as_slice() {
        note_pragma(
            alloc, among, counted, bare, names, number, variables, text, *at, pragmas,
        )?;
    }
    Ok(())
}

/// Notes the lines of the loops of a function of this number.
#[tactic(auto, using(crate::proofs::SameText::same_pragmas))]
fn note_function(
    alloc: Global,
    among: &[u32],
    counted: &[bool],
    written: &Written,
    number: u64,
    function: &TFunc,
    pragmas: &mut Vec<Pragma>,
) -> Result<(), NoMemory>
    requires small { number < 2 ^ 63 }
    ensures { OnOk result (pragmas.new.items ≡ pragmas.old.items ++ spec.pragmas_of among.now counted.now written.now number function.now) }
{
    let text = text_of(alloc, function)?;
    let variables = function.variables.as_slice();
    let bare = written.bare.as_slice();
    let names = names_of(written, number);
    note_pragmas(
        alloc, among, counted, bare, names, number, variables, &text, pragmas,
    )
}

/// The lines of the loops of functions.
pub(crate) fn pragmas_in(
    alloc: Global,
    among: &[u32],
    counted: &[bool],
    written: &Written,
    functions: &[TFunc],
) -> Result<Vec<Pragma>, NoMemory>
    ensures { IfOk result (λ pragmas. pragmas.items ≡ spec.pragmas_in among.now counted.now written.now 0 functions.now) }
{
    let mut pragmas = Vec::new(alloc);
    let mut number: u64 = 0;
    for function in functions {
        note_function(
            alloc,
            among,
            counted,
            written,
            number,
            function,
            &mut pragmas,
        )?;
        number += 1;
    }
    Ok(pragmas)
}

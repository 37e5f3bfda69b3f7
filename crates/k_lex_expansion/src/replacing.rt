//! What a macro's body becomes.
ghost use Rattle.std.specs.Prelude.{◌≡◌, [], ◌∷◌, ◌++◌, Some, None, map, IfOk};
ghost use Rattle.k_lex_expansion.specs.Replacing as spec;
ghost use Rattle.k_lex_expansion.specs.Pasting.{glued};

use crate::arguments::Argument;
use crate::listing::{copies, fresh, put_in_place};
use crate::macros::{Chain, Operand};
use crate::pasting::glue;
use crate::texts::string_of;
use crate::tokens::{Listed, Names};
use k_num::{NoMemory, Seq, Stack};
use std::alloc::Global;

/// The argument of this number, as it is written.
fn written_at(args: &[Argument], number: usize) -> &[Listed]
    ensures { result.now ≡ (spec.argument_at args.now number).written }
{
    if number < args.len() {
        args[number].written.as_slice()
    } else {
        &[]
    }
}

/// The expansion of the argument of this number.
fn expanded_at(args: &[Argument], number: usize) -> &[Listed]
    ensures { result.now ≡ (spec.argument_at args.now number).expanded }
{
    if number < args.len() {
        args[number].expanded.as_slice()
    } else {
        &[]
    }
}

/// A list of one token.
fn list_of(alloc: Global, token: Listed) -> Result<Seq<Listed>, NoMemory>
    ensures { IfOk result (λ list. list ≡ token ∷ []) }
{
    let mut list = Seq::new(alloc);
    list.push(token)?;
    Ok(list)
}

/// What stands beside `##`.
fn beside(
    alloc: Global,
    nothing: &Names,
    args: &[Argument],
    operand: &Operand,
) -> Result<Seq<Listed>, NoMemory>
    requires { nothing.now ≡ [] }
    ensures { IfOk result (λ list. list ≡ spec.beside args.now operand.now) }
{
    match operand {
        Operand::Token(spelling) => list_of(alloc, fresh(spelling.share()?, nothing)?),
        Operand::Parameter(number) => copies(alloc, written_at(args, *number)),
        Operand::Text(number) => {
            let text = string_of(alloc, written_at(args, *number))?;
            list_of(alloc, fresh(text, nothing)?)
        }
    }
}

/// What stands without `##`.
fn alone(
    alloc: Global,
    nothing: &Names,
    args: &[Argument],
    operand: &Operand,
) -> Result<Seq<Listed>, NoMemory>
    requires { nothing.now ≡ [] }
    ensures { IfOk result (λ list. list ≡ spec.alone args.now operand.now) }
{
    match operand {
        Operand::Parameter(number) => copies(alloc, expanded_at(args, *number)),
        _ => beside(alloc, nothing, args, operand),
    }
}

/// The list with these operands behind it, with `##` before each.
fn glued_with(
    alloc: Global,
    nothing: &Names,
    args: &[Argument],
    mut list: Seq<Listed>,
    more: &[Operand],
) -> Result<Option<Seq<Listed>>, NoMemory>
    requires { nothing.now ≡ [] }
    ensures { IfOk result (λ all. all ≡ glued (Some list) (map (spec.beside args.now) more.now)) }
{
    for operand in more {
        let next = beside(alloc, nothing, args, operand)?;
        if !glue(alloc, &mut list, next.as_slice())? {
            return Ok(None);
        }
    }
    Ok(Some(list))
}

/// A chain of operands, if each `##` makes a token.
fn chained(
    alloc: Global,
    nothing: &Names,
    args: &[Argument],
    chain: &Chain,
) -> Result<Option<Seq<Listed>>, NoMemory>
    requires { nothing.now ≡ [] }
    ensures { IfOk result (λ list. list ≡ spec.chained args.now chain.now.first chain.now.more) }
{
    if chain.more.is_empty() {
        Ok(Some(alone(alloc, nothing, args, &chain.first)?))
    } else {
        let first = beside(alloc, nothing, args, &chain.first)?;
        glued_with(alloc, nothing, args, first, chain.more.as_slice())
    }
}

/// The body with its parameters replaced, if each `##` makes a token.
#[tactic(auto, using(crate::proofs::ReplacingLaws::replaced_last, crate::proofs::ReplacingLaws::replaced_none))]
pub fn replaced(
    alloc: Global,
    nothing: &Names,
    args: &[Argument],
    body: &[Chain],
) -> Result<Option<Stack<Listed>>, NoMemory>
    requires { nothing.now ≡ [] }
    ensures { IfOk result (λ list. list ≡ spec.replaced args.now body.now) }
{
    let mut list = Stack::new(alloc);
    let mut rest = body;
    while let Some((chain, front)) = rest.split_last() {
        match chained(alloc, nothing, args, chain)? {
            None => return Ok(None),
            Some(tokens) => put_in_place(&mut list, chain.spaced, tokens)?,
        }
        rest = front;
    }
    Ok(Some(list))
}

/// Whether the operand is the parameter of this number.
fn is_parameter(number: usize, operand: &Operand) -> bool
    ensures { result ≡ spec.is_parameter number operand.now }
{
    match operand {
        Operand::Parameter(other) => *other == number,
        _ => false,
    }
}

/// Whether the parameter stands there without `##`.
fn is_alone(number: usize, chain: &Chain) -> bool
    ensures { result ≡ spec.is_alone number chain.now.first chain.now.more }
{
    chain.more.is_empty() && is_parameter(number, &chain.first)
}

/// Whether the argument of this parameter has to be expanded.
pub fn asks(number: usize, body: &[Chain]) -> bool
    ensures { result ≡ spec.asks number body.now }
{
    for chain in body {
        if is_alone(number, chain) {
            return true;
        }
    }
    false
}

//! Arguments, which are passed to parameters or taken by the format of `printf` one by one (C17 6.5.2.2p2,
//! 7.21.6.1p9).
ghost use Rattle.std.specs.Prelude.{◌≡◌, [], ◌∷◌, ◌++◌, option_to_list, IfNone, IfOk, OnOk};
ghost use Rattle.k_types_meaning.specs.CallRules as rules;
ghost use Rattle.k_types_meaning.specs.Made.{Finds};
ghost use Rattle.k_types_meaning.specs.Types.{number_kind};
ghost use Rattle.k_types_rules.specs.Views.{type_of, typed};
ghost use Rattle.k_types_expressions.specs.Arguments.{bare, passed_made};

use k_num::{Box, Kind, NoMemory, Place, Seq, bytes, promote};
use k_types_meaning::{CType, TExpr, TypeFault};
use k_types_rules::{TypedExpr, in_kind, kind_of, lent, passed};
use std::alloc::Global;
use std::collections::VecDeque;

/// Puts an argument behind the others.
pub(crate) fn add<'a>(
    args: &mut VecDeque<TypedExpr<'a>>,
    arg: TypedExpr<'a>,
) -> Result<(), NoMemory>
    ensures { OnOk result (args.new.items ≡ args.old.items ++ arg.entry ∷ []) }
{
    match args.push_back(arg) {
        Ok(()) => Ok(()),
        Err(refused) => {
            drop(refused);
            Err(NoMemory)
        }
    }
}

/// The next argument, if there is one.
pub(crate) fn next<'a>(args: &mut VecDeque<TypedExpr<'a>>) -> Option<TypedExpr<'a>>
    ensures items { args.old.items ≡ option_to_list result ++ args.new.items }
    ensures none { IfNone result (args.old.items ≡ []) }
{
    args.pop_front()
}

/// The arguments of a call, converted to its parameters.
#[tactic(auto, using(crate::proofs::Passing::passes_more))]
pub(crate) fn passing(
    alloc: Global,
    place: Place,
    params: &[CType],
    args: VecDeque<TypedExpr<'_>>,
) -> Result<Seq<TExpr>, TypeFault>
    ensures { Finds result (passed_made place (rules.passing params.now (bare args.entry.items))) }
{
    let mut waiting = args;
    let mut trees = Seq::new(alloc);
    for param in params {
        let Some(arg) = next(&mut waiting) else {
            return Err(TypeFault::Arity(place));
        };
        let Some(tree) = passed(alloc, lent(param), arg)? else {
            return Err(TypeFault::Kinds(place));
        };
        trees.push(tree.into_inner())?;
    }
    if let Some(arg) = next(&mut waiting) {
        drop(arg);
        return Err(TypeFault::Arity(place));
    }
    Ok(trees)
}

/// An argument of `printf`, converted to the kind that its conversion takes; none where it does not fit.
fn formatted(alloc: Global, to: Kind, arg: TypedExpr<'_>) -> Result<Option<Box<TExpr>>, NoMemory>
    ensures { IfOk result (λ tree. tree ≡ rules.formatted to (typed arg.entry []) (number_kind (type_of arg.entry.of))) }
{
    let Some(from) = kind_of(arg.of) else {
        drop(arg);
        return Ok(None);
    };
    if bytes(promote(from)) != bytes(to) {
        drop(arg);
        return Ok(None);
    }
    let tree = in_kind(alloc, from, to, arg.tree)?;
    Ok(Some(tree))
}

/// The arguments of `printf`, converted; none where they do not fit the format.
#[tactic(auto, using(crate::proofs::Passing::formats_more))]
pub(crate) fn all_formatted(
    alloc: Global,
    kinds: &[Kind],
    args: VecDeque<TypedExpr<'_>>,
) -> Result<Option<Seq<TExpr>>, NoMemory>
    ensures { IfOk result (λ trees. trees ≡ rules.all_formatted kinds.now (bare args.entry.items)) }
{
    let mut waiting = args;
    let mut trees = Seq::new(alloc);
    let mut rest = kinds;
    while let Some((kind, more)) = rest.split_first() {
        let Some(arg) = next(&mut waiting) else {
            return Ok(None);
        };
        let Some(tree) = formatted(alloc, *kind, arg)? else {
            return Ok(None);
        };
        trees.push(tree.into_inner())?;
        rest = more;
    }
    if let Some(arg) = next(&mut waiting) {
        drop(arg);
        return Ok(None);
    }
    Ok(Some(trees))
}

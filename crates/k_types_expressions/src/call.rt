//! Calls (C17 6.5.2.2).
ghost use Rattle.std.specs.Prelude.{ℕ, List, Some};
ghost use Rattle.k_types_meaning.specs.CallRules as rules;
ghost use Rattle.k_types_rules.specs.Views.{Agrees};
ghost use Rattle.k_types_expressions.specs.Arguments.{typed_all};

use crate::arguments::passing;
use crate::library::library_called;
use crate::name::unknown;
use k_num::{Box, Place, Text};
use k_types_meaning::{Meaning, Signature, TExpr, TypeFault};
use k_types_names::Scopes;
use k_types_rules::{TypedExpr, at, lent, told};
use std::alloc::Global;
use std::collections::VecDeque;

/// A call (C17 6.5.2.2).
#[tactic(auto, unfolding(k_types_meaning::specs::CallRules::call_rule))]
pub(crate) fn call_rule<'a>(
    alloc: Global,
    names: &'a Scopes,
    place: Place,
    name: &Text,
    args: VecDeque<TypedExpr<'a>>,
) -> Result<TypedExpr<'a>, TypeFault>
    ensures { (ts : List (List ℕ)) → Agrees result (rules.all_taken (typed_all args.entry.items ts)) (rules.call_rule names.now place name.now (typed_all args.entry.items ts)) }
{
    match names.meaning(name) {
        None => {
            drop(args);
            Err(unknown(alloc, place, name))
        }
        Some(meaning) => called(alloc, place, meaning, args),
    }
}

/// A call by what the name means: of a function alone (C17 6.5.2.2p1).
fn called<'a>(
    alloc: Global,
    place: Place,
    meaning: &'a Meaning,
    args: VecDeque<TypedExpr<'a>>,
) -> Result<TypedExpr<'a>, TypeFault>
    ensures { (name : List ℕ) (ts : List (List ℕ)) → Agrees result (rules.all_taken (typed_all args.entry.items ts)) (rules.called place name (typed_all args.entry.items ts) (Some meaning.now)) }
{
    match meaning {
        Meaning::Variable { .. } | Meaning::Object { .. } => {
            drop(args);
            Err(TypeFault::Kinds(place))
        }
        Meaning::Function(signature) => function_called(alloc, place, signature, args),
        Meaning::Library(library) => library_called(alloc, place, *library, args),
    }
}

/// A call of a function (C17 6.5.2.2).
fn function_called<'a>(
    alloc: Global,
    place: Place,
    signature: &'a Signature,
    args: VecDeque<TypedExpr<'a>>,
) -> Result<TypedExpr<'a>, TypeFault>
    ensures { (ts : List (List ℕ)) → Agrees result (rules.all_taken (typed_all args.entry.items ts)) (rules.function_called place signature.now (typed_all args.entry.items ts)) }
{
    let args = match passing(alloc, place, signature.params.as_slice(), args) {
        Ok(args) => args,
        Err(fault) => return Err(fault),
    };
    let of = lent(&signature.result);
    let node = at(place, told(of)?);
    let tree = Box::new(
        alloc,
        TExpr::Call {
            node,
            function: signature.number,
            args,
        },
    )?;
    Ok(TypedExpr {
        tree,
        of,
        place: None,
    })
}

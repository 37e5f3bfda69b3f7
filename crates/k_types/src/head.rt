//! The heads of functions (C17 6.7.6.3): their parameters, and the signature that their names are declared with.
ghost use Rattle.std.specs.Prelude.{◌≡◌, ℕ, List, OnOk};
ghost use Rattle.k_num.specs.declared.place.Place.{Place};
ghost use Rattle.k_types_declarations.specs.Results.{seen};
ghost use Rattle.k_types_meaning.specs.declared.names.Meaning.TheVariants as meaning;
ghost use Rattle.k_types_meaning.specs.Declarations.{entered};
ghost use Rattle.k_types_meaning.specs.Functions as rules;
ghost use Rattle.k_types_meaning.specs.Names.{meaning_of};
ghost use Rattle.k_types.specs.Heads.{GivesHead};
ghost use Rattle.k_types.specs.Standings.{standing_made};

use crate::defined::Defined;
use crate::parameter::{judge_params, params_of};
use crate::signature::{result_or_int, result_type, types_of};
use crate::standing::{Standing, redeclared};
use k_num::{NoMemory, Seq};
use k_tree::Head;
use k_types_declarations::Known;
use k_types_meaning::{Meaning, Signature, TypeFault};
use k_types_names::Scopes;
use std::alloc::Global;
use std::mem;

/// Judges the parameters of a head in a scope of their own, which stays open, and gives the function's signature.
/// `defines` says whether it is the head of a definition.
pub(crate) fn judge_head(
    alloc: Global,
    defines: bool,
    defined: &Defined,
    known: &mut Known,
    head: &Head,
) -> Result<Signature, TypeFault>
    ensures { GivesHead result defines defined.now known.old.names head.now (seen known.new) }
{
    begin(alloc, known)?;
    judge_params(alloc, defines, known, params_of(&head.params))?;
    let params = types_of(alloc, known.variables.as_slice())?;
    Ok(Signature {
        result: result_or_int(alloc, head),
        params,
        number: defined.place(head.name.as_str()),
    })
}

/// Opens the scope of the parameters of a function, which has no variables yet.
fn begin(alloc: Global, known: &mut Known) -> Result<(), NoMemory>
    ensures { OnOk result (seen known.new ≡ rules.within_function known.old.names) }
{
    known.names.open()?;
    drop(mem::replace(&mut known.variables, Seq::new(alloc)));
    drop(mem::replace(&mut known.taken, Seq::new(alloc)));
    Ok(())
}

/// Whether a function of this head may be declared where these names are known at file scope. `again` says whether
/// this is a definition and an earlier item is one.
pub(crate) fn standing_of(
    alloc: Global,
    names: &Scopes,
    again: bool,
    head: &Head,
    signature: &Signature,
) -> Standing
    ensures { (p : Place) (x : List ℕ) → standing_made result p x signature.now ≡ rules.function_made p x signature.now again (rules.result_type head.now) (meaning_of names.now head.now.name) }
{
    let of = result_type(alloc, head);
    let standing = redeclared(signature, &of, again, names.meaning(&head.name));
    drop(of);
    standing
}

/// Declares the name of a function at file scope.
pub(crate) fn name_function(
    alloc: Global,
    names: &mut Scopes,
    head: &Head,
    signature: Signature,
) -> Result<(), NoMemory>
    ensures { OnOk result (names.new ≡ entered head.now.name (meaning.Function signature) names.old) }
{
    names.declare(alloc, &head.name, Meaning::Function(signature))?;
    Ok(())
}

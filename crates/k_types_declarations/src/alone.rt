//! Initialisers of what has no type that is known: their expressions are judged, and nothing begins with them.
ghost use Rattle.std.specs.Prelude.{◌≡◌, map};
ghost use Rattle.k_types_meaning.specs.Initialisers.{Giving, giving};
ghost use Rattle.k_types_meaning.specs.Made.{Fine, all_made, then_made};
ghost use Rattle.std.specs.List.{concat};
ghost use Rattle.k_types_declarations.specs.Braces.{GivesAllTaken, GivesTaken};

use k_num::Seq;
use k_tree::Init;
use k_types_expressions::judge;
use k_types_meaning::TypeFault;
use k_types_names::Scopes;
use std::alloc::Global;

/// Judges the expressions of an initialiser. The variables to which `&` is applied in it are put behind those in
/// `taken`.
#[cycle(alone)]
pub(crate) fn judge_alone(
    alloc: Global,
    names: &Scopes,
    init: &Init,
    taken: &mut Seq<u32>,
) -> Result<(), TypeFault>
    ensures { GivesTaken result taken.old taken.new (giving names.now init.now).alone }
{
    match init {
        Init::One { value, .. } => {
            let judged = judge(alloc, names, value, taken)?;
            drop(judged);
            Ok(())
        }
        Init::List { items, .. } => judge_braces_alone(alloc, names, items, taken),
    }
}

/// Judges the expressions of braces.
#[cycle(alone)]
fn judge_braces_alone(
    alloc: Global,
    names: &Scopes,
    items: &Seq<Init>,
    taken: &mut Seq<u32>,
) -> Result<(), TypeFault>
    ensures { GivesTaken result taken.old taken.new (then_made (all_made (map (λ (g : Giving). g.alone) (map (giving names.now) items.now))) (λ all. Fine (concat all))) }
{
    judge_all_alone(alloc, names, items, taken)
}

/// Judges the expressions of the items of braces, one after the other.
#[cycle(alone)]
pub(crate) fn judge_all_alone(
    alloc: Global,
    names: &Scopes,
    items: &Seq<Init>,
    taken: &mut Seq<u32>,
) -> Result<(), TypeFault>
    ensures { GivesAllTaken result taken.old taken.new (all_made (map (λ (g : Giving). g.alone) (map (giving names.now) items.now))) }
{
    for item in items.as_slice() {
        match judge_alone(alloc, names, item, taken) {
            Ok(()) => {}
            Err(fault) => return Err(fault),
        }
    }
    Ok(())
}

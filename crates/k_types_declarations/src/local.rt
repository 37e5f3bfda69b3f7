//! Declarations in functions (C17 6.7).
ghost use Rattle.std.specs.Prelude.{◌≡◌, IfOk};
ghost use Rattle.k_types_meaning.specs.Statements as rules;
ghost use Rattle.k_types_declarations.specs.Results.{Goes, seen};

use crate::declarator::{Begun, judge_declarator};
use crate::known::{Known, Variable};
use k_num::{NoMemory, Seq};
use k_tree::Declarator;
use k_types_meaning::{TDeclarator, TypeFault};
use k_types_objects::Saying;
use std::alloc::Global;

/// Declares a variable of a function: its name is known from behind its declarator, so in its own initialiser too
/// (C17 6.2.1p7).
pub fn declare(
    alloc: Global,
    known: &mut Known,
    saying: &Saying,
    declarator: &Declarator,
) -> Result<TDeclarator, TypeFault>
    ensures { Goes result (seen known.old) (seen known.new) (rules.declare saying.now (seen known.old) declarator.now) }
{
    let number = number_of(known.variables.len())?;
    let begun = match judge_declarator(
        alloc,
        false,
        saying,
        number,
        &mut known.names,
        declarator,
        &mut known.taken,
    ) {
        Ok(begun) => begun,
        Err(fault) => return Err(fault),
    };
    let Begun { of, init } = begun;
    known.variables.push(Variable {
        place: declarator.place,
        of: of.into_inner(),
    })?;
    Ok(TDeclarator {
        place: declarator.place,
        variable: number,
        init: init.into_inner(),
    })
}

/// The number of what stands behind so many others.
pub(crate) fn number_of(count: usize) -> Result<u32, NoMemory>
    ensures { IfOk result (λ number. number ≡ count) }
{
    match u32::try_from(count) {
        Ok(number) => Ok(number),
        Err(_) => Err(NoMemory),
    }
}

/// Declares the variables of a declaration, one after the other.
pub fn declare_all(
    alloc: Global,
    known: &mut Known,
    saying: &Saying,
    list: &Seq<Declarator>,
) -> Result<Seq<TDeclarator>, TypeFault>
    ensures { Goes result (seen known.old) (seen known.new) (rules.declare_all saying.now (seen known.old) list.now) }
{
    let mut all = Seq::new(alloc);
    for declarator in list.as_slice() {
        let declared = match declare(alloc, known, saying, declarator) {
            Ok(declared) => declared,
            Err(fault) => return Err(fault),
        };
        all.push(declared)?;
    }
    Ok(all)
}

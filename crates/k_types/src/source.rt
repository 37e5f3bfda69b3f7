//! The typing of a source as a whole (C17 6.9).
ghost use Rattle.std.specs.Prelude.{◌≡◌, ◌≤◌, [], IfErr, IfOk, OnOk};
ghost use Rattle.k_tree.specs.Count.{unit_count};
ghost use Rattle.k_types_meaning.specs.Bare.{IsTyped};
ghost use Rattle.k_types_meaning.specs.Units as rules;
ghost use Rattle.k_types.specs.Results.{IsFirstFault};
ghost use Rattle.k_types.specs.Sources.{GivesTree};

use crate::defined::Defined;
use crate::entry::test_main;
use crate::item::{File, place_items};
use crate::undefined::test_calls;
use k_num::Seq;
use k_tree::Unit;
use k_types_meaning::{TUnit, TypeFault};
use k_types_numbers::number;
use std::alloc::Global;

/// The typed tree of a source, or its first fault: items are judged in text order, then come the calls of functions
/// that are not defined, and then main. The source has at most 262,144 nodes.
pub fn check(alloc: Global, unit: &Unit) -> Result<TUnit, TypeFault>
    requires { unit_count unit.now ≤ 262144 }
    ensures faultless { OnOk result (rules.faults unit.now ≡ []) }
    ensures typed { IfOk result (λ tree. IsTyped unit.now tree) }
    ensures refused { IfErr result (λ fault. IsFirstFault fault (rules.faults unit.now)) }
{
    let defined = Defined::by(alloc, unit)?;
    let mut tree = unnumbered(alloc, &defined, unit)?;
    test_calls(alloc, &defined, unit)?;
    test_main(alloc, unit)?;
    number(alloc, &mut tree)?;
    Ok(tree)
}

/// The typed tree of a source whose items have no fault. Its nodes have no numbers yet, and its strings are not
/// listed.
fn unnumbered(alloc: Global, defined: &Defined, unit: &Unit) -> Result<TUnit, TypeFault>
    requires defined { defined.now ≡ rules.defined_by unit.now }
    requires nodes { unit_count unit.now ≤ 262144 }
    ensures { GivesTree result unit.now }
{
    let mut file = File::new(alloc)?;
    place_items(alloc, defined, &mut file, unit.items.as_slice())?;
    let File {
        known,
        objects,
        functions,
    } = file;
    drop(known);
    let strings = Seq::new(alloc);
    let main = defined.place("main");
    Ok(TUnit {
        objects,
        strings,
        functions,
        main,
        nodes: 0,
        loops: 0,
    })
}

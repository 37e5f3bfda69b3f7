//! Node counts of items and of a whole source.
ghost use Rattle.std.specs.Prelude.{◌≡◌, ◌^◌, ◌<◌};
ghost use Rattle.k_tree.specs.Count.{item_count, unit_count};

use crate::declaration::{declarators_nodes, params_nodes};
use crate::statement::stmts_nodes;
use k_tree::{Item, Unit};

/// How many items, parameters, declarators, initialisers, statements and expressions a source has.
pub fn nodes(unit: &Unit) -> u64
    requires { unit_count unit.now < 2 ^ 64 }
    ensures { result ≡ unit_count unit.now }
{
    let mut nodes = 0;
    for item in unit.items.as_slice() {
        nodes += item_nodes(item);
    }
    nodes
}

/// An item and the nodes in it.
pub fn item_nodes(item: &Item) -> u64
    requires { item_count item.now < 2 ^ 64 }
    ensures { result ≡ item_count item.now }
{
    match item {
        Item::Function { head, body, .. } => 1 + params_nodes(&head.params) + stmts_nodes(body),
        Item::Prototype { head, .. } => 1 + params_nodes(&head.params),
        Item::Objects { list, .. } => 1 + declarators_nodes(list),
    }
}

//! The calls in items and in a whole source (C17 6.9).
ghost use Rattle.std.specs.Prelude.{◌≡◌, ◌++◌, map, IfOk, OnOk};
ghost use Rattle.k_types_meaning.specs.Called.{calls_of_unit, item_calls, all_calls};
ghost use Rattle.k_types_calls.specs.Noting.{seen};

use crate::declaration::{note_declarators, note_params};
use crate::statement::note_stmts;
use k_num::{NoMemory, Place, Text};
use k_tree::{Item, Unit};
use std::alloc::Global;

/// A call: the name that is called, and where it stands.
#[derive(Clone, Copy)]
pub struct Call<'a> {
    pub name: &'a Text,
    pub place: Place,
}

/// The calls of a source, in text order.
#[tactic(auto, unfolding(k_types_meaning::specs::Called::calls_of_unit))]
pub fn calls_of<'a>(alloc: Global, unit: &'a Unit) -> Result<Vec<Call<'a>>, NoMemory>
    ensures { IfOk result (λ calls. map seen calls.items ≡ calls_of_unit unit.now) }
{
    let mut calls = Vec::new(alloc);
    note_items(unit.items.as_slice(), &mut calls)?;
    Ok(calls)
}

/// Notes the calls of items.
fn note_items<'a>(items: &'a [Item], calls: &mut Vec<Call<'a>>) -> Result<(), NoMemory>
    ensures { OnOk result (map seen calls.new.items ≡ map seen calls.old.items ++ all_calls (map item_calls items.now)) }
{
    for item in items {
        note_item(item, calls)?;
    }
    Ok(())
}

/// Notes the calls of an item.
fn note_item<'a>(item: &'a Item, calls: &mut Vec<Call<'a>>) -> Result<(), NoMemory>
    ensures { OnOk result (map seen calls.new.items ≡ map seen calls.old.items ++ item_calls item.now) }
{
    match item {
        Item::Function { head, body, .. } => {
            note_params(&head.params, calls)?;
            note_stmts(body, calls)
        }
        Item::Prototype { head, .. } => note_params(&head.params, calls),
        Item::Objects { list, .. } => note_declarators(list, calls),
    }
}

//! Where variables occur in declarations and in the parts of statements that may be left out.
ghost use Rattle.std.specs.Prelude.{◌≡◌, ◌++◌, map, OnOk};
ghost use Rattle.k_pragma_texts.specs.Declarations.{declarator_occurs, declared_occurs, first_occurs, init_occurs, item_occurs, one_behind_another, option_occurs};

use crate::expressions::note_expr;
use crate::occurrence::{How, Occurrence};
use k_num::{Box, NoMemory, Seq};
use k_types_meaning::{TDeclarator, TExpr, TFirst, TInit, TItem};

/// Notes where variables occur in an expression that may be left out.
pub(crate) fn note_option(
    expr: &Option<Box<TExpr>>,
    occurs: &mut Vec<Occurrence>,
) -> Result<(), NoMemory>
    ensures { OnOk result (occurs.new.items ≡ occurs.old.items ++ option_occurs expr.now) }
{
    match expr {
        None => Ok(()),
        Some(expr) => note_expr(expr.get(), occurs),
    }
}

/// Notes where variables occur in an item of braces.
fn note_item(item: &TItem, occurs: &mut Vec<Occurrence>) -> Result<(), NoMemory>
    ensures { OnOk result (occurs.new.items ≡ occurs.old.items ++ item_occurs item.now) }
{
    match item {
        TItem::Bytes { .. } => Ok(()),
        TItem::Value { value, .. } => note_expr(value, occurs),
    }
}

/// Notes where variables occur in the items of braces.
fn note_items(items: &Seq<TItem>, occurs: &mut Vec<Occurrence>) -> Result<(), NoMemory>
    ensures { OnOk result (occurs.new.items ≡ occurs.old.items ++ one_behind_another (map item_occurs items.now)) }
{
    for item in items.as_slice() {
        note_item(item, occurs)?;
    }
    Ok(())
}

/// Notes where variables occur in an initialiser.
fn note_init(init: &TInit, occurs: &mut Vec<Occurrence>) -> Result<(), NoMemory>
    ensures { OnOk result (occurs.new.items ≡ occurs.old.items ++ init_occurs init.now) }
{
    match init {
        TInit::Nothing => Ok(()),
        TInit::Value(value) => note_expr(value, occurs),
        TInit::Elements(items) => note_items(items, occurs),
    }
}

/// Notes where variables occur in a declarator of the declaration at a node.
fn note_declarator(
    node: u32,
    declarator: &TDeclarator,
    occurs: &mut Vec<Occurrence>,
) -> Result<(), NoMemory>
    ensures { OnOk result (occurs.new.items ≡ occurs.old.items ++ declarator_occurs node declarator.now) }
{
    occurs.push(Occurrence {
        variable: declarator.variable,
        node,
        how: How::Declares,
    })?;
    note_init(&declarator.init, occurs)
}

/// Notes where variables occur in the declaration at a node.
pub(crate) fn note_declared(
    node: u32,
    list: &Seq<TDeclarator>,
    occurs: &mut Vec<Occurrence>,
) -> Result<(), NoMemory>
    ensures { OnOk result (occurs.new.items ≡ occurs.old.items ++ declared_occurs node list.now) }
{
    for declarator in list.as_slice() {
        note_declarator(node, declarator, occurs)?;
    }
    Ok(())
}

/// Notes where variables occur in the first part of the `for` at a node.
pub(crate) fn note_first(
    node: u32,
    first: &TFirst,
    occurs: &mut Vec<Occurrence>,
) -> Result<(), NoMemory>
    ensures { OnOk result (occurs.new.items ≡ occurs.old.items ++ first_occurs node first.now) }
{
    match first {
        TFirst::Nothing => Ok(()),
        TFirst::Value(value) => note_expr(value, occurs),
        TFirst::Declare(list) => note_declared(node, list, occurs),
    }
}

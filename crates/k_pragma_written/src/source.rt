//! A whole source.
ghost use Rattle.std.specs.Prelude.{◌≡◌, ◌∷◌, [], ◌++◌, Ok, IfOk};
ghost use Rattle.k_tree.specs.Closed.{EndsOnce};
ghost use Rattle.k_tree.specs.declared.tree.unit.Unit as source;
ghost use Rattle.k_parse.specs.Parse.{IsParse};
ghost use Rattle.k_pragma_written.specs.Written as spec;

use crate::names::push_params;
use crate::statements::{Noted, note_all};
use crate::told::Written;
use k_lex::lex;
use k_num::{NoMemory, Seq};
use k_parse::parse;
use k_tree::{Head, Item, Stmt, Token, Unit};
use std::alloc::Global;

/// Notes a defined function.
fn note_function(
    alloc: Global,
    head: &Head,
    body: &Seq<Stmt>,
    told: Written,
) -> Result<Written, NoMemory>
    ensures names { IfOk result (λ w. w.names ≡ told.names ++ spec.function_names head.now body.now ∷ []) }
    ensures bare { IfOk result (λ w. w.bare ≡ told.bare ++ spec.loops_of body.now) }
{
    let Written { names, bare } = told;
    let mut names = names;
    let mut noted = Noted {
        names: Seq::new(alloc),
        bare,
    };
    push_params(alloc, &head.params, &mut noted.names)?;
    note_all(alloc, body, &mut noted)?;
    let Noted { names: here, bare } = noted;
    names.push(here)?;
    Ok(Written { names, bare })
}

/// Notes an item: a function that is defined, or nothing.
fn note_item(alloc: Global, item: &Item, told: Written) -> Result<Written, NoMemory>
    ensures names { IfOk result (λ w. w.names ≡ told.names ++ spec.item_names item.now) }
    ensures bare { IfOk result (λ w. w.bare ≡ told.bare ++ spec.item_loops item.now) }
{
    match item {
        Item::Function { head, body, .. } => note_function(alloc, head, body, told),
        Item::Prototype { .. } | Item::Objects { .. } => Ok(told),
    }
}

/// What a tree of syntax tells.
fn written_of(alloc: Global, unit: &Unit) -> Result<Written, NoMemory>
    ensures { IfOk result (λ w. w ≡ spec.written_of unit.now) }
{
    let mut told = Written {
        names: Seq::new(alloc),
        bare: Seq::new(alloc),
    };
    for item in unit.items.as_slice() {
        told = note_item(alloc, item, told)?;
    }
    Ok(told)
}

/// What the tree of a token list tells.
fn read(alloc: Global, list: &Seq<Token>) -> Result<Written, NoMemory>
    requires { EndsOnce list.now }
    ensures { IfOk result (λ w. (tree : source.Unit) × IsParse list.now (Ok tree) × (w ≡ spec.written_of tree)) }
{
    let tree = match parse(alloc, list) {
        Ok(tree) => tree,
        Err(_) => return Err(NoMemory),
    };
    let told = written_of(alloc, &tree);
    drop(tree);
    told
}

/// What the tree of syntax of a source tells of its functions and loops. A source that has none is answered as one for which no memory is found.
pub fn written(alloc: Global, bytes: &[u8]) -> Result<Written, NoMemory>
    ensures { IfOk result (spec.IsWritten bytes.now) }
{
    match lex(alloc, bytes) {
        Ok(list) => read(alloc, &list),
        Err(_) => Err(NoMemory),
    }
}

//! The items of a source one after the other (C17 6.9): what is known goes from each to the next.
ghost use Rattle.std.specs.Prelude.{◌≡◌, ◌≤◌, ◌++◌, ℕ, List, [], ◌∷◌, drop, length, map, sum, IfOk};
ghost use Rattle.k_tree.specs.Count.{item_count};
ghost use Rattle.k_tree.specs.declared.tree.unit.Item.TheVariants as items;
ghost use Rattle.k_types_meaning.specs.Units as rules;
ghost use Rattle.k_types.specs.Heads.{IsFile};
ghost use Rattle.k_types.specs.Items.{IsNew, GivesParts, known_in};

use crate::defined::Defined;
use crate::function::{Definition, function};
use crate::prototype::prototype;
use k_num::{NoMemory, Seq};
use k_tree::Item;
use k_tree_nodes::item_nodes;
use k_types_declarations::{Known, declare_objects};
use k_types_meaning::{TFunc, TObject, TypeFault};
use k_types_names::Scopes;
use k_types_objects::Saying;
use std::alloc::Global;

/// What is known at a place between the items of a source, and what the items so far come to.
#[derive(Drop)]
pub(crate) struct File {
    pub known: Known,
    pub objects: Seq<TObject>,
    pub functions: Seq<TFunc>,
}

impl File {
    /// Nothing is declared but the library functions.
    pub(crate) fn new(alloc: Global) -> Result<File, NoMemory>
        ensures { IfOk result (λ file. IsNew file) }
    {
        let mut names = Scopes::new(alloc)?;
        names.open()?;
        Ok(File {
            known: Known {
                names,
                variables: Seq::new(alloc),
                taken: Seq::new(alloc),
            },
            objects: Seq::new(alloc),
            functions: Seq::new(alloc),
        })
    }
}

/// Judges items one after the other, and puts what they come to behind what the items before them do.
pub(crate) fn place_items(
    alloc: Global,
    defined: &Defined,
    file: &mut File,
    items: &[Item],
) -> Result<(), TypeFault>
    requires file { IsFile file.old.known.names }
    requires names { drop (length file.old.functions) defined.now ≡ rules.all_names (map rules.defined_in items.now) }
    requires nodes { sum (map item_count items.now) ≤ 262144 }
    ensures { GivesParts result defined.now (rules.all_names (map rules.defined_in items.now)) file.old file.new (rules.items_placed defined.now (known_in defined.now file.old) items.now) }
{
    for item in items {
        place_item(alloc, defined, file, item)?;
    }
    Ok(())
}

/// Judges an item, and puts what it comes to behind what the items before it do.
fn place_item(
    alloc: Global,
    defined: &Defined,
    file: &mut File,
    item: &Item,
) -> Result<(), TypeFault>
    requires file { IsFile file.old.known.names }
    requires names { (rest : List (List ℕ)) × (drop (length file.old.functions) defined.now ≡ rules.defined_in item.now ++ rest) }
    requires nodes { item_count item.now ≤ 262144 }
    ensures { GivesParts result defined.now (rules.defined_in item.now) file.old file.new (rules.item_placed defined.now (known_in defined.now file.old) item.now) }
{
    match item {
        Item::Function {
            place,
            head,
            body,
            close,
        } => {
            let definition = Definition {
                place: *place,
                head,
                body,
                close: *close,
                nodes: nodes_of(item),
            };
            place_function(alloc, defined, file, &definition)
        }
        Item::Prototype { place, head } => {
            prototype(alloc, defined, &mut file.known, *place, head)
        }
        Item::Objects { specs, list, .. } => {
            let saying = Saying::of_specifiers(true, specs);
            declare_objects(
                alloc,
                &mut file.known.names,
                &mut file.objects,
                &saying,
                list,
            )
        }
    }
}

/// Judges a definition of a function, and puts its tree behind those of the functions before it.
fn place_function(
    alloc: Global,
    defined: &Defined,
    file: &mut File,
    definition: &Definition<'_>,
) -> Result<(), TypeFault>
    requires file { IsFile file.old.known.names }
    requires names { (rest : List (List ℕ)) × (drop (length file.old.functions) defined.now ≡ definition.now.head.now.name ∷ rest) }
    requires nodes { definition.now.nodes ≡ item_count (items.Function definition.now.place definition.now.head.now definition.now.body.now definition.now.close) }
    ensures { GivesParts result defined.now (definition.now.head.now.name ∷ []) file.old file.new (rules.item_placed defined.now (known_in defined.now file.old) (items.Function definition.now.place definition.now.head.now definition.now.body.now definition.now.close)) }
{
    let again = defined.is_before(definition.head.name.as_str(), file.functions.len());
    let tree = function(alloc, defined, again, &mut file.known, definition)?;
    file.functions.push(tree)?;
    Ok(())
}

/// The count of the nodes of an item.
fn nodes_of(item: &Item) -> u32
    requires { item_count item.now ≤ 262144 }
    ensures { result ≡ item_count item.now }
{
    item_nodes(item) as u32
}

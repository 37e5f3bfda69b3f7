//! Declarations at file scope (C17 6.9.2).
ghost use Rattle.std.specs.Prelude.{◌≡◌, ℕ, ◌*◌, List, length, IfOk};
ghost use Rattle.k_types_meaning.specs.Types.{count_of, elements};
ghost use Rattle.k_types_meaning.specs.Units.{object_placed, objects_placed};
ghost use Rattle.k_types_rules.specs.Views.{type_of};
ghost use Rattle.k_types_declarations.specs.Results.{PlacesObject, PlacesObjects};

use crate::declarator::{Begun, judge_declarator};
use crate::local::number_of;
use k_num::{NoMemory, Seq};
use k_tree::Declarator;
use k_types_meaning::{TObject, TypeFault};
use k_types_names::Scopes;
use k_types_objects::{Saying, first_values};
use k_types_rules::{ElementView, TypeView, lent, told};
use std::alloc::Global;

/// Declares the file object of this number. Its name is known from behind its declarator.
pub fn declare_object(
    alloc: Global,
    names: &mut Scopes,
    number: u32,
    saying: &Saying,
    declarator: &Declarator,
) -> Result<TObject, TypeFault>
    ensures { (functions : List (List ℕ)) → PlacesObject result names.new (object_placed saying.now (record { names = names.old; objects = number; functions = functions }) declarator.now) }
{
    let mut taken = Seq::new(alloc);
    let begun = match judge_declarator(alloc, true, saying, number, names, declarator, &mut taken) {
        Ok(begun) => begun,
        Err(fault) => return Err(fault),
    };
    let Begun { of, init } = begun;
    let seen = lent(of.get());
    let told = told(seen)?;
    let elements = elements_of(seen)?;
    let first = first_values(alloc, init.get())?;
    Ok(TObject {
        place: declarator.place,
        of: told,
        elements,
        first,
    })
}

/// How many elements an object of a type has.
fn elements_of(of: TypeView<'_>) -> Result<u32, NoMemory>
    ensures { IfOk result (λ n. n ≡ count_of (type_of of.entry)) }
{
    match of {
        TypeView::Void | TypeView::Number(_) | TypeView::Pointer(_) => Ok(1),
        TypeView::Array(items, element) => elements_of_array(items, element),
    }
}

/// How many elements an array of so many items has.
fn elements_of_array(items: u32, element: ElementView<'_>) -> Result<u32, NoMemory>
    ensures { IfOk result (λ n. n ≡ items * elements element.entry.dims.now) }
{
    let Some(all) = u64::from(items).checked_mul(element.each) else {
        return Err(NoMemory);
    };
    match u32::try_from(all) {
        Ok(all) => Ok(all),
        Err(_) => Err(NoMemory),
    }
}

/// Declares file objects, one after the other, and puts them behind those before them.
pub fn declare_objects(
    alloc: Global,
    names: &mut Scopes,
    objects: &mut Seq<TObject>,
    saying: &Saying,
    list: &Seq<Declarator>,
) -> Result<(), TypeFault>
    ensures { (functions : List (List ℕ)) → PlacesObjects result objects.old objects.new names.new functions (objects_placed saying.now (record { names = names.old; objects = length objects.old; functions = functions }) list.now) }
{
    for declarator in list.as_slice() {
        let number = number_of(objects.len())?;
        let object = match declare_object(alloc, names, number, saying, declarator) {
            Ok(object) => object,
            Err(fault) => return Err(fault),
        };
        objects.push(object)?;
    }
    Ok(())
}

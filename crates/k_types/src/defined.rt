//! The functions that a source defines (C17 6.9): their names, and the place of each among them.
ghost use Rattle.std.specs.Prelude.{◌≡◌, ◌++◌, [], ◌∷◌, take, IfOk, OnOk};
ghost use Rattle.std.specs.BTreeMap.{get_by_text};
ghost use Rattle.std.specs.String.{string_bytes};
ghost use Rattle.k_types_meaning.specs.Names.{place_in};
ghost use Rattle.k_types_meaning.specs.Units as rules;
ghost use Rattle.k_types.specs.Defined.{IsIndexed, placed};

use k_num::{NoMemory, Seq, Text};
use k_tree::{Item, Unit};
use std::alloc::Global;
use std::collections::BTreeMap;
use std::marker::Model;

/// The functions that a source defines. Contracts see their names in text order.
#[derive(Drop)]
pub(crate) struct Defined {
    /// Their names in text order.
    names: Seq<Text>,
    /// The place of each name among them, of the first where it is there twice.
    places: BTreeMap<String, u32>,
    /// How many there are.
    count: u32,
}

impl Model for Defined {
    ghost use Rattle.std.specs.Prelude.{◌≡◌, ℕ, List, length};
    ghost use Rattle.std.specs.BTreeMap.{get_by_text};
    ghost use Rattle.k_types.specs.Defined.{IsIndexed};

    ghost Value = { List (List ℕ) };

    ghost view = { λ d. d.names };

    ghost invariant = { λ d. (d.count ≡ length d.names) × IsIndexed d.names (get_by_text d.places) };
}

impl Defined {
    /// The functions that a source defines.
    pub(crate) fn by(alloc: Global, unit: &Unit) -> Result<Defined, NoMemory>
        ensures { IfOk result (λ defined. defined ≡ rules.defined_by unit.now) }
    {
        let mut names = Seq::new(alloc);
        let mut places = BTreeMap::new(alloc);
        for item in unit.items.as_slice() {
            note_item(alloc, &mut names, &mut places, item)?;
        }
        match u32::try_from(names.len()) {
            Ok(count) => Ok(Defined {
                names,
                places,
                count,
            }),
            Err(_) => Err(NoMemory),
        }
    }

    /// The place of a name among them, and how many there are where it is none of them.
    pub(crate) fn place(&self, name: &str) -> u32
        ensures { result ≡ place_in self.now name.now }
    {
        match self.places.get(name) {
            Some(place) => *place,
            None => self.count,
        }
    }

    /// Whether one of the first so many has this name.
    pub(crate) fn is_before(&self, name: &str, count: usize) -> bool
        ensures { result ≡ rules.is_name (take count self.now) name.now }
    {
        match self.places.get(name) {
            Some(place) => (*place as usize) < count,
            None => false,
        }
    }

    /// Whether one of them has this name.
    pub(crate) fn has(&self, name: &str) -> bool
        ensures { result ≡ rules.is_name self.now name.now }
    {
        match self.places.get(name) {
            Some(_) => true,
            None => false,
        }
    }
}

/// Notes the function that an item defines, if it does.
fn note_item(
    alloc: Global,
    names: &mut Seq<Text>,
    places: &mut BTreeMap<String, u32>,
    item: &Item,
) -> Result<(), NoMemory>
    ensures names { OnOk result (names.new ≡ names.old ++ rules.defined_in item.now) }
    ensures places { OnOk result (IsIndexed names.old (get_by_text places.old) → IsIndexed names.new (get_by_text places.new)) }
{
    match item {
        Item::Function { head, .. } => note_name(alloc, names, places, &head.name),
        Item::Prototype { .. } | Item::Objects { .. } => Ok(()),
    }
}

/// Puts a name behind the others.
fn note_name(
    alloc: Global,
    names: &mut Seq<Text>,
    places: &mut BTreeMap<String, u32>,
    name: &Text,
) -> Result<(), NoMemory>
    ensures names { OnOk result (names.new ≡ names.old ++ name.now ∷ []) }
    ensures places { OnOk result (IsIndexed names.old (get_by_text places.old) → IsIndexed names.new (get_by_text places.new)) }
{
    let Ok(place) = u32::try_from(names.len()) else {
        return Err(NoMemory);
    };
    let text = name.as_str();
    place_name(alloc, places, text, place)?;
    let copy = Text::copy_of(alloc, text)?;
    names.push(copy)?;
    Ok(())
}

/// Gives a name its place, where it has none.
fn place_name(
    alloc: Global,
    places: &mut BTreeMap<String, u32>,
    name: &str,
    place: u32,
) -> Result<(), NoMemory>
    ensures { OnOk result (get_by_text places.new ≡ placed (get_by_text places.old) name.now place) }
{
    if places.contains_key(name) {
        return Ok(());
    }
    let key = key_of(alloc, name)?;
    match places.insert(key, place) {
        Ok(before) => {
            drop(before);
            Ok(())
        }
        Err(refused) => {
            drop(refused);
            Err(NoMemory)
        }
    }
}

/// A copy of a name.
fn key_of(alloc: Global, name: &str) -> Result<String, NoMemory>
    ensures { IfOk result (λ key. string_bytes key ≡ name.now) }
{
    Ok(String::from_str(alloc, name)?)
}

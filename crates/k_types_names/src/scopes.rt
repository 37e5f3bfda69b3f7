//! The names that are known at a place of a source, and what they mean (C17 6.2.1).
ghost use Rattle.std.specs.Prelude.{◌≡◌, ◌||◌, [], ◌∷◌, IfOk, OnOk, OnErr, IsSome, is_some, option_copied};
ghost use Rattle.std.specs.BTreeMap.{get_by_text};
ghost use Rattle.std.specs.Map.{update};
ghost use Rattle.std.specs.Str.{bytes_eq};
ghost use Rattle.std.specs.String.{string_bytes};
ghost use Rattle.k_types_meaning.specs.Names.{library, meaning_in, meaning_of};
ghost use Rattle.k_types_meaning.specs.Declarations.{entered, is_twice};
ghost use Rattle.k_types_names.specs.Scoping.{outside, stands_in};
ghost use Rattle.k_types_names.specs.Slots.{from};

use k_num::{NoMemory, Text};
use k_types_meaning::{Library, Meaning};
use std::alloc::Global;
use std::collections::BTreeMap;
use std::marker::Model;

/// What a name means, and how many scopes were open where it was declared.
#[derive(Drop)]
struct Visible {
    depth: usize,
    meaning: Meaning,
}

/// What was opened or declared.
#[derive(Drop)]
enum Slot {
    /// A scope was opened.
    Opened,
    /// A name was declared. `hidden` is what the name meant before.
    Named {
        name: String,
        hidden: Option<Visible>,
    },
}

/// The scopes around a place of a source. Contracts see them as the scopes, the innermost first, each with
/// its names, the newest first.
#[derive(Drop)]
pub struct Scopes {
    /// What is open, the oldest first.
    slots: Vec<Slot>,
    /// What each name means now.
    known: BTreeMap<String, Visible>,
    /// How many scopes are open.
    depth: usize,
}

impl Model for Scopes {
    ghost use Rattle.std.specs.Prelude.{◌≡◌, reverse};
    ghost use Rattle.std.specs.BTreeMap.{get_by_text};
    ghost use Rattle.k_types_meaning.specs.Names.{Names};
    ghost use Rattle.k_types_names.specs.Slots.{IsKept, names_in};

    ghost Value = { Names };

    ghost view = { λ s. names_in (reverse s.slots.items) (get_by_text s.known) };

    ghost invariant = { λ s. IsKept s.depth (reverse s.slots.items) (get_by_text s.known) };
}

impl Scopes {
    /// The one scope of the library functions.
    pub fn new(alloc: Global) -> Result<Scopes, NoMemory>
        ensures { IfOk result (λ scopes. scopes ≡ library ∷ []) }
    {
        let mut scopes = Scopes {
            slots: Vec::new(alloc),
            known: BTreeMap::new(alloc),
            depth: 0,
        };
        scopes.open()?;
        scopes.add(alloc, "printf", Meaning::Library(Library::Printf))?;
        scopes.add(alloc, "puts", Meaning::Library(Library::Puts))?;
        scopes.add(alloc, "putchar", Meaning::Library(Library::Putchar))?;
        scopes.add(alloc, "getchar", Meaning::Library(Library::Getchar))?;
        Ok(scopes)
    }

    /// Opens a scope in the innermost one. A refusal changes nothing.
    pub fn open(&mut self) -> Result<(), NoMemory>
        ensures ok { OnOk result (self.new ≡ [] ∷ self.old) }
        ensures err { OnErr result (self.new ≡ self.old) }
    {
        if let Err(refused) = self.slots.push(Slot::Opened) {
            drop(refused);
            return Err(NoMemory);
        }
        self.depth += 1;
        Ok(())
    }

    /// Closes the innermost scope. Its names go.
    pub fn close(&mut self)
        ensures { self.new ≡ outside self.old }
    {
        while let Some(slot) = self.slots.pop() {
            match slot {
                Slot::Opened => {
                    self.depth -= 1;
                    return;
                }
                Slot::Named { name, hidden } => restore(&mut self.known, name, hidden),
            }
        }
    }

    /// Declares a name in the innermost scope, and says whether it was declared in that scope already or is
    /// that of a library function. It is declared all the same. A refusal changes nothing.
    pub fn declare(
        &mut self,
        alloc: Global,
        name: &Text,
        meaning: Meaning,
    ) -> Result<bool, NoMemory>
        ensures twice { IfOk result (λ twice. twice ≡ is_twice self.old name.now) }
        ensures ok { OnOk result (self.new ≡ entered name.now meaning self.old) }
        ensures err { OnErr result (self.new ≡ self.old) }
    {
        let stood = self.add(alloc, name.as_str(), meaning)?;
        Ok(stood || is_library(name.as_str()))
    }

    /// What a name means: what the innermost scope says that has it.
    pub fn meaning(&self, name: &Text) -> Option<&Meaning>
        ensures { option_copied result ≡ meaning_of self.now name.now }
    {
        match self.known.get(name.as_str()) {
            Some(known) => Some(&known.meaning),
            None => None,
        }
    }
}

impl Scopes {
    /// Declares a name in the innermost scope, and says whether it stood there already.
    fn add(&mut self, alloc: Global, name: &str, meaning: Meaning) -> Result<bool, NoMemory>
        ensures stood { IfOk result (λ stood. (stood || stands_in library name.now) ≡ is_twice self.old name.now) }
        ensures ok { OnOk result (self.new ≡ entered name.now meaning self.old) }
        ensures err { OnErr result (self.new ≡ self.old) }
    {
        let depth = self.depth;
        let (name, key) = match two_copies(alloc, name) {
            Ok(copies) => copies,
            Err(NoMemory) => {
                drop(meaning);
                return Err(NoMemory);
            }
        };
        if let Err(_) = self.slots.reserve(1) {
            drop(meaning);
            return Err(NoMemory);
        }
        let hidden = learn(&mut self.known, key, Visible { depth, meaning })?;
        let stood = is_from(&hidden, depth);
        if let Err(refused) = self.slots.push(Slot::Named { name, hidden }) {
            drop(refused);
        }
        Ok(stood)
    }
}

/// Two copies of a name.
fn two_copies(alloc: Global, name: &str) -> Result<(String, String), NoMemory>
    ensures first { IfOk result (λ copies. string_bytes copies.0 ≡ name.now) }
    ensures second { IfOk result (λ copies. string_bytes copies.1 ≡ name.now) }
{
    Ok((
        String::from_str(alloc, name)?,
        String::from_str(alloc, name)?,
    ))
}

/// Puts in place what a name means now, and answers what it meant before. A refusal changes nothing.
fn learn(
    known: &mut BTreeMap<String, Visible>,
    name: String,
    now: Visible,
) -> Result<Option<Visible>, NoMemory>
    ensures before { IfOk result (λ before. before ≡ get_by_text known.old (string_bytes name)) }
    ensures ok { OnOk result (get_by_text known.new ≡ update bytes_eq (get_by_text known.old) (string_bytes name) (Some now)) }
    ensures err { OnErr result (get_by_text known.new ≡ get_by_text known.old) }
{
    match known.insert(name, now) {
        Ok(before) => Ok(before),
        Err(refused) => {
            drop(refused);
            Err(NoMemory)
        }
    }
}

/// Puts back what a name meant before.
fn restore(known: &mut BTreeMap<String, Visible>, name: String, before: Option<Visible>)
    requires { IsSome (get_by_text known.old (string_bytes name)) }
    ensures { get_by_text known.new ≡ update bytes_eq (get_by_text known.old) (string_bytes name) before }
{
    match before {
        Some(before) => {
            let replaced = known.insert(name, before);
            drop(replaced);
        }
        None => {
            let removed = known.remove(name.as_str());
            drop(removed);
        }
    }
}

/// Whether something is known from where so many scopes are open.
fn is_from(known: &Option<Visible>, depth: usize) -> bool
    ensures { result ≡ from known.now depth }
{
    match known {
        Some(known) => known.depth == depth,
        None => false,
    }
}

/// Whether a library function has this name.
pub fn is_library(name: &str) -> bool
    ensures scope { result ≡ stands_in library name.now }
    ensures meaning { result ≡ is_some (meaning_in library name.now) }
{
    "getchar" == name || "putchar" == name || "puts" == name || "printf" == name
}

//! Reading a table of latencies from a TOML document.
ghost use Rattle.std.specs.Prelude.{◌≡◌, [], ◌∷◌, map, IfErr, IfOk, Ok, MatchResult, option_to_list, None, Some};
ghost use Rattle.toml.specs.View.{view, table_view};
ghost use Rattle.k_optab.specs.Latencies.{classes};
ghost use Rattle.k_optab.specs.TomlTable.{AreInKeyOrder, IsFault, IsRefused, IsTold, document_faults, is_class_name, latency_in, number_in, pair_fault};

use crate::Class;
use crate::latencies::{Latencies, name, of, standard};
use k_num::{NoMemory, Text};
use std::alloc::Global;
use toml::{Table, Value};

/// Why bytes give no table of latencies.
#[derive(Debug, PartialEq, Eq, Drop)]
pub enum TableFault {
    /// The bytes are no TOML document.
    NotToml,
    /// The key is the name of no class.
    UnknownKey(Text),
    /// The value of this key is no integer.
    NotWhole(Text),
    /// The value of this key is not within 0 and 10,000.
    OutOfRange(Text, i64),
    /// No memory was found.
    Memory,
}

/// The latencies that a TOML document gives: its keys are names of classes and its values are whole numbers of at most
/// 10,000. A class without a key has its standard latency. The fault of the first key in byte order is answered.
pub fn from_toml(alloc: Global, bytes: &[u8]) -> Result<Latencies, TableFault>
    ensures table { IfOk result (λ table. IsTold bytes.now (Ok table)) }
    ensures refused { IfErr result (IsRefused bytes.now) }
{
    let document = match toml::table_from_slice(alloc, bytes) {
        Ok(document) => document,
        Err(error) => {
            return Err(if error.is_memory() {
                TableFault::Memory
            } else {
                TableFault::NotToml
            });
        }
    };
    match look_for_fault(alloc, &document) {
        Ok(()) => {
            let table = latencies_in(&document);
            drop(document);
            Ok(table)
        }
        Err(fault) => {
            drop(document);
            Err(fault)
        }
    }
}

/// Looks for the first fault of a document.
fn look_for_fault(alloc: Global, document: &Table) -> Result<(), TableFault>
    ensures order { AreInKeyOrder (table_view document.now) }
    ensures fault { MatchResult result (λ _. document_faults (table_view document.now) ≡ []) (IsFault (document_faults (table_view document.now))) }
{
    'pairs: for (key, value) in document.iter() {
        if let Err(fault) = check_pair(alloc, key.as_str(), value) {
            return Err(fault);
        }
    }
    Ok(())
}

/// Looks at a key and its value.
fn check_pair(alloc: Global, key: &str, value: &Value) -> Result<(), TableFault>
    ensures { MatchResult result (λ _. pair_fault key.now (view value.now) ≡ None) (IsFault (option_to_list (pair_fault key.now (view value.now)))) }
{
    let Ok(text) = Text::copy_of(alloc, key) else {
        return Err(TableFault::Memory);
    };
    if !names_class(key) {
        return Err(TableFault::UnknownKey(text));
    }
    match value.as_integer() {
        None => Err(TableFault::NotWhole(text)),
        Some(number) if 0 <= number && number <= 10_000 => {
            drop(text);
            Ok(())
        }
        Some(number) => Err(TableFault::OutOfRange(text, number)),
    }
}

/// Whether a key is the name of a class.
fn names_class(key: &str) -> bool
    ensures { result ≡ is_class_name key.now }
{
    CLASSES.iter().any(|class| key == name(*class))
}

static CLASSES: [Class; 12] = [
    Class::Move,
    Class::Conv,
    Class::Simple,
    Class::Mul,
    Class::Div,
    Class::Load,
    Class::Store,
    Class::Test,
    Class::Call,
    Class::Input,
    Class::Output,
    Class::Select,
];

/// The latencies of a document that has no fault.
fn latencies_in(document: &Table) -> Latencies
    ensures { result ≡ map (latency_in (table_view document.now)) classes }
{
    let mut table = standard();
    table.set(Class::Move as usize, latency_at(document, Class::Move));
    table.set(Class::Conv as usize, latency_at(document, Class::Conv));
    table.set(Class::Simple as usize, latency_at(document, Class::Simple));
    table.set(Class::Mul as usize, latency_at(document, Class::Mul));
    table.set(Class::Div as usize, latency_at(document, Class::Div));
    table.set(Class::Load as usize, latency_at(document, Class::Load));
    table.set(Class::Store as usize, latency_at(document, Class::Store));
    table.set(Class::Test as usize, latency_at(document, Class::Test));
    table.set(Class::Call as usize, latency_at(document, Class::Call));
    table.set(Class::Input as usize, latency_at(document, Class::Input));
    table.set(Class::Output as usize, latency_at(document, Class::Output));
    table.set(Class::Select as usize, latency_at(document, Class::Select));
    table
}

/// A class's latency in a document that has no fault.
fn latency_at(document: &Table, class: Class) -> u64
    ensures { result ≡ latency_in (table_view document.now) class }
{
    match number_at(document, name(class)) {
        None => of(&standard(), class),
        Some(number) => number.unsigned_abs(),
    }
}

/// The whole number at a key.
fn number_at(document: &Table, key: &str) -> Option<i64>
    ensures { result ≡ number_in (table_view document.now) key.now }
{
    match document.get(key) {
        None => None,
        Some(value) => value.as_integer(),
    }
}

//! The dictionary: entries in order of first use, whose runs name earlier ones.
ghost use Rattle.std.specs.Prelude.{◌≡◌, ◌<◌, ◌≤◌, [], length, nat_eq, take, slice_get, Some};

use crate::entry::Entry;
use crate::table::EntryTable;
use std::alloc::Global;
use std::marker::Model;

/// What a dictionary has the most of that it may have.
#[derive(Clone, Copy, Debug, PartialEq, Eq)]
pub enum Which {
    Entries,
    AllRuns,
}

/// Why an entry is not added.
#[derive(Clone, Copy, Debug, PartialEq, Eq)]
pub enum DictFault {
    /// The dictionary would pass a limit.
    Full(Which),
    /// No memory was found.
    Memory,
}

/// Entries without repeats, in order of first use, whose runs name earlier ones by rising number. Contracts see their list.
#[derive(Drop)]
pub struct Dict {
    table: EntryTable,
}

impl Model for Dict {
    ghost use Rattle.std.specs.Prelude.{List};
    ghost use Rattle.k_dict_entries.specs.declared.entry.Entry.{Entry as EntryValue};
    ghost use Rattle.k_dict_entries.specs.Entries.{NameEarlier};

    ghost Value = { List EntryValue };

    ghost view = { λ d. d.table };

    ghost invariant = { λ d. NameEarlier d.table };
}

impl Dict {
    ghost use Rattle.k_dict_entries.specs.Entries.{AreInterned, NameEarlier};
    ghost use Rattle.k_dict_entries.specs.Interning.{CanIntern, Interns};

    /// The dictionary without entries. It takes no memory until an entry is added.
    pub fn new(alloc: Global) -> Dict
        ensures { result ≡ [] }
    {
        Dict {
            table: EntryTable::new(alloc),
        }
    }

    /// The dictionary of entries whose runs name earlier ones by rising number, in the table's own memory.
    pub fn from_table(table: EntryTable) -> Dict
        requires { NameEarlier table }
        ensures { result ≡ table }
    {
        Dict { table }
    }

    /// How many entries there are.
    pub fn len(&self) -> u32
        ensures count { result ≡ length self.now }
        ensures interned { AreInterned self.now }
    {
        self.table.len()
    }

    /// Whether there is no entry.
    pub fn is_empty(&self) -> bool
        ensures { result ≡ nat_eq (length self.now) 0 }
    {
        self.table.len() == 0
    }

    /// The entry of a number.
    pub fn entry(&self, n: u32) -> &Entry
        requires { n < length self.now }
        ensures value { slice_get self.now n ≡ Some result.now }
        ensures interned { AreInterned self.now }
    {
        &self.table.entries()[n as usize]
    }

    /// All entries, by their numbers.
    pub fn entries(&self) -> &[Entry]
        ensures value { result.now ≡ self.now }
        ensures interned { AreInterned self.now }
    {
        self.table.entries()
    }

    /// The number of an equal entry that is there, or else of this one, which is added last. A refusal drops the entry.
    pub fn intern(&mut self, entry: Entry) -> Result<u32, DictFault>
        requires { CanIntern self.old entry }
        ensures answer { Interns self.old entry result self.new }
        ensures interned { AreInterned self.new }
    {
        self.table.intern(entry)
    }

    /// Drops the newest entries until `keep` are left.
    pub fn shorten(&mut self, keep: u32)
        requires { keep ≤ length self.old }
        ensures { self.new ≡ take keep self.old }
    {
        self.table.shorten(keep);
    }
}

//! The dictionary of a tree that is given as its list of nodes.
ghost use Rattle.std.specs.Prelude.{◌≡◌, ◌+◌, ◌<◌, [], ◌∷◌, OnOk, IfOk};
ghost use Rattle.k_dict_entries.specs.Entries.{AreInterned};
ghost use Rattle.k_dict_entries.specs.Gathering.{CanCount, IsSound, Leads, LeadsTo, closed, closed_to, gathered, opened, state, summary, with_child};
ghost use Rattle.k_dict_entries.specs.Interning.{Gathers};
ghost use Rattle.k_dict_entries.specs.Trees.{IsInOrder};
ghost use Rattle.std.specs.Prelude.{◌^◌, length, Result, List};

use crate::dict::{Dict, DictFault};
use crate::entry::Entry;
use crate::tally::Tally;
use k_num::{NoMemory, Seq, Stack};
use k_optab::Node;
use std::alloc::Global;

/// An instance that is open.
#[derive(Drop)]
pub(crate) struct Level {
    pub region: u32,
    pub work: u64,
    pub path: u64,
    /// Its children that are closed.
    pub children: Tally,
}

/// The entries so far, and the open instances.
#[derive(Drop)]
pub(crate) struct Gathering {
    pub dict: Dict,
    pub levels: Stack<Level>,
}

/// The entry of an instance that is closed.
fn summarize(alloc: Global, level: Level) -> Result<Entry, NoMemory>
    ensures { IfOk result (λ entry. entry ≡ summary level) }
{
    let runs = level.children.runs(alloc)?;
    let entry = Entry {
        region: level.region,
        work: level.work,
        path: level.path,
        runs,
    };
    drop(level);
    Ok(entry)
}

/// One more child for the innermost open instance.
fn count_child(levels: &mut Stack<Level>, number: u32) -> Result<(), NoMemory>
    requires { CanCount number levels.old }
    ensures { OnOk result (levels.new ≡ with_child number levels.old) }
{
    let Some(mut level) = levels.pop() else {
        return Ok(());
    };
    level.children.add(number, 1)?;
    levels.push(level)
}

impl Gathering {
    /// Closes the innermost open instance.
    fn close(&mut self, alloc: Global) -> Result<(), DictFault>
        requires sound { IsSound (state self.old) }
        requires interned { AreInterned self.old.dict }
        ensures leads { Leads result (state self.new) (closed (state self.old)) }
        ensures interned { AreInterned self.new.dict }
    {
        let Some(level) = self.levels.pop() else {
            return Ok(());
        };
        let entry = match summarize(alloc, level) {
            Ok(entry) => entry,
            Err(NoMemory) => return Err(DictFault::Memory),
        };
        match self.dict.intern(entry) {
            Err(fault) => Err(fault),
            Ok(number) => match count_child(&mut self.levels, number) {
                Ok(()) => Ok(()),
                Err(NoMemory) => Err(DictFault::Memory),
            },
        }
    }

    /// Closes open instances until so many are left.
    fn close_to(&mut self, alloc: Global, depth: usize) -> Result<(), DictFault>
        requires sound { IsSound (state self.old) }
        requires interned { AreInterned self.old.dict }
        ensures leads { Leads result (state self.new) (closed_to depth (state self.old)) }
        ensures interned { AreInterned self.new.dict }
    {
        while self.levels.len() > depth {
            if let Err(fault) = self.close(alloc) {
                return Err(fault);
            }
        }
        Ok(())
    }

    /// Opens an instance within the innermost one.
    fn open(&mut self, alloc: Global, node: &Node) -> Result<(), NoMemory>
        ensures opened { OnOk result (state self.new ≡ opened node.now (state self.old)) }
        ensures dict { self.new.dict ≡ self.old.dict }
    {
        self.levels.push(Level {
            region: node.region,
            work: node.work,
            path: node.path,
            children: Tally::new(alloc),
        })
    }
}

/// The entries of the instances of these nodes, in order of their ends.
#[tactic(auto, using(crate::proofs::Pushes::none_interned))]
fn gather_all(alloc: Global, nodes: &[Node]) -> Result<Dict, DictFault>
    ensures leads { LeadsTo result (gathered nodes.now) }
    ensures interned { IfOk result AreInterned }
{
    let mut gathering = Gathering {
        dict: Dict::new(alloc),
        levels: Stack::new(alloc),
    };
    for node in nodes {
        if let Err(fault) = gathering.close_to(alloc, node.depth as usize) {
            return Err(fault);
        }
        if let Err(NoMemory) = gathering.open(alloc, node) {
            return Err(DictFault::Memory);
        }
    }
    if let Err(fault) = gathering.close_to(alloc, 0) {
        return Err(fault);
    }
    let Gathering { dict, levels } = gathering;
    drop(levels);
    Ok(dict)
}

/// The dictionary of a tree of instances in order of entry: one entry for each shape, in order of the first end of an instance
/// of that shape, the root's last.
pub fn gather(alloc: Global, nodes: &Seq<Node>) -> Result<Dict, DictFault>
    requires { IsInOrder nodes.now }
    ensures answer { Gathers nodes.now result }
    ensures interned { IfOk result AreInterned }
{
    gather_all(alloc, nodes.as_slice())
}

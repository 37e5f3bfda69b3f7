//! What is counted so far while a tree is numbered.
ghost use Rattle.std.specs.Prelude.{◌≡◌, ◌+◌, [], ◌∷◌, ◌++◌, IfOk};

use k_num::{NoMemory, Place, Seq};
use k_types_meaning::TString;
use std::alloc::Global;

/// How many nodes, strings and loops are numbered so far, and the strings.
#[derive(Drop)]
pub struct Counts {
    pub nodes: u32,
    pub strings: u32,
    pub loops: u32,
    pub texts: Seq<TString>,
}

impl Counts {
    ghost use Rattle.k_types_numbers.specs.Steps.{nothing_counted, node_counted, loop_counted, string_counted};

    /// Nothing is counted.
    pub fn new(alloc: Global) -> Counts
        ensures { result ≡ nothing_counted }
    {
        Counts {
            nodes: 0,
            strings: 0,
            loops: 0,
            texts: Seq::new(alloc),
        }
    }

    /// The number of the next node.
    pub fn node(&mut self) -> Result<u32, NoMemory>
        ensures { IfOk result (λ n. (n ≡ self.old.nodes) × (self.new ≡ node_counted self.old)) }
    {
        let number = self.nodes;
        self.nodes = after(number)?;
        Ok(number)
    }

    /// The number of the next loop.
    pub fn turns(&mut self) -> Result<u32, NoMemory>
        ensures { IfOk result (λ n. (n ≡ self.old.loops) × (self.new ≡ loop_counted self.old)) }
    {
        let number = self.loops;
        self.loops = after(number)?;
        Ok(number)
    }

    /// The number of the next string, which is listed.
    pub fn string(&mut self, alloc: Global, place: Place, bytes: &Seq<u8>) -> Result<u32, NoMemory>
        ensures { IfOk result (λ n. (n ≡ self.old.strings) × (self.new ≡ string_counted place bytes.now self.old)) }
    {
        let bytes = Seq::copy_of(alloc, bytes.as_slice())?;
        let number = self.strings;
        self.strings = after(number)?;
        self.texts.push(TString { place, bytes })?;
        Ok(number)
    }
}

/// The number behind a number. There is no memory for more than a `u32` can count.
fn after(number: u32) -> Result<u32, NoMemory>
    ensures { IfOk result (λ n. n ≡ number + 1) }
{
    match number.checked_add(1) {
        Some(next) => Ok(next),
        None => Err(NoMemory),
    }
}

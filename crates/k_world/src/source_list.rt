//! The sources of operations.
ghost use Rattle.std.specs.Prelude.{◌≡◌, [], ◌++◌, IfOk, OnOk};
ghost use Rattle.k_world.specs.Operands.{source_before, source_in, sources as sources_of};

use crate::{Done, Read};
use k_num::NoMemory;
use k_optab::{Sources, Src};
use std::alloc::Global;

/// The sources of an operation that was made on these operands, as its event lists them: those of the operands in their order, of
/// the one that the construct does not write, and last the control source.
#[tactic(auto, using(crate::proofs::Listed::sources_more))]
pub fn sources(alloc: Global, reads: &[Read], done: &Done) -> Result<Sources, NoMemory>
    ensures { IfOk result (λ list. list ≡ sources_of reads.now done.now.hidden done.now.control) }
{
    let mut list = Sources::new(alloc);
    for read in reads {
        push_source(&mut list, read.source(), read.broken)?;
    }
    push_source(&mut list, done.hidden, false)?;
    push_source(&mut list, done.control, false)?;
    Ok(list)
}

/// Adds the source of an operand, if it has one.
fn push_source(list: &mut Sources, source: Option<u64>, broken: bool) -> Result<(), NoMemory>
    ensures { OnOk result (list.new ≡ list.old ++ source_before source broken []) }
{
    if let Some(number) = source {
        list.push(Src { number, broken })?;
    }
    Ok(())
}

impl Read {
    /// The operation that gave what is read.
    fn source(&self) -> Option<u64>
        ensures { result ≡ source_in self.now.slot }
    {
        match self.slot {
            Some(held) => held.source,
            None => None,
        }
    }
}

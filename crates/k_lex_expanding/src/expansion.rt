//! Expansions.
ghost use Rattle.std.specs.Prelude.{IfOk};
ghost use Rattle.k_lex_expansion.specs.Expansion.{Expands};
ghost use Rattle.k_lex_expanding.specs.First.{work};
ghost use Rattle.k_lex_expanding.specs.Machine.{told};

use crate::calls::Level;
use crate::machine::Machine;
use k_lex_expansion::shared::Shared;
use k_lex_expansion::{Failure, Listed, Macro, Spelled};
use k_num::{NoMemory, Seq, Stack};
use std::alloc::Global;

/// An expansion: its tokens, how many tokens of the source it takes, and how much is made.
#[derive(Drop)]
pub struct Expanded {
    pub tokens: Seq<Listed>,
    pub taken: usize,
    pub made: usize,
}

/// The expansion of a list, with these tokens of the source behind it, with which the source ends or not, where so much
/// was made before. It fails with `Cut` where the source does not end with them and one more is needed.
pub fn expand(
    alloc: Global,
    macros: &[Macro],
    limit: usize,
    list: Stack<Listed>,
    source: &[Spelled],
    ends: bool,
    made: usize,
) -> Result<Result<Expanded, Failure>, NoMemory>
    ensures { IfOk result (λ r. Expands macros.now limit (work list source.now ends made) (told source.now ends r)) }
{
    let nothing = Shared::new(alloc, Seq::new(alloc))?;
    let mut machine = Machine::new(alloc, list, made);
    if let Some(failure) = machine.run(alloc, &nothing, macros, limit, source, ends)? {
        return Ok(Err(failure));
    }
    let Machine {
        level,
        frames: _,
        made,
        taken,
    } = machine;
    let Level { list: _, tokens } = level;
    Ok(Ok(Expanded {
        tokens,
        taken,
        made,
    }))
}

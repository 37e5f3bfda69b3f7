//! Calls of macros whose arguments are being expanded.
ghost use Rattle.std.specs.Prelude.{◌≡◌, IfOk};
ghost use Rattle.k_lex_expanding.specs.Arguments.{Skips};

use k_lex_expansion::listing::{copies, push_all};
use k_lex_expansion::replacing::asks;
use k_lex_expansion::{Argument, Chain, Listed, Names};
use k_num::{NoMemory, Seq, Stack};
use std::alloc::Global;

/// A call of a macro.
#[derive(Drop)]
pub struct OpenCall {
    /// The number of the macro.
    pub number: usize,
    /// The arguments that are done.
    pub complete: Seq<Argument>,
    /// Those behind them, as they are written.
    pub waiting: Stack<Seq<Listed>>,
    /// The names that the call hides.
    pub names: Names,
    /// Whether blanks or comments stand before the call.
    pub spaced: bool,
}

/// A list that is expanded, and what came of the tokens before it.
#[derive(Drop)]
pub struct Level {
    pub list: Stack<Listed>,
    pub tokens: Seq<Listed>,
}

/// A call that waits for the expansion of one of its arguments.
#[derive(Drop)]
pub struct Frame {
    pub call: OpenCall,
    /// That argument as it is written.
    pub written: Seq<Listed>,
    /// What stands behind the call, and what came of the tokens before it.
    pub behind: Level,
}

/// Passes over arguments that the body does not ask for. The first one that it asks for, if there is one.
pub fn skip(
    alloc: Global,
    body: &[Chain],
    complete: &mut Seq<Argument>,
    waiting: &mut Stack<Seq<Listed>>,
) -> Result<Option<Seq<Listed>>, NoMemory>
    ensures { Skips result body.now complete.old waiting.old complete.new waiting.new }
{
    while let Some(written) = waiting.pop() {
        if asks(complete.len(), body) {
            return Ok(Some(written));
        }
        let expanded = Seq::new(alloc);
        complete.push(Argument { written, expanded })?;
    }
    Ok(None)
}

/// The tokens as a list that is expanded.
pub fn list_of(alloc: Global, tokens: &[Listed]) -> Result<Stack<Listed>, NoMemory>
    ensures { IfOk result (λ list. list ≡ tokens.now) }
{
    let mut list = Stack::new(alloc);
    push_all(&mut list, copies(alloc, tokens)?)?;
    Ok(list)
}

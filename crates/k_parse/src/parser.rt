//! The tree of a token list.
ghost use Rattle.std.specs.Prelude.{◌≡◌, ◌⊎◌, IfOk, IfErr, Some, Ok, Err};
ghost use Rattle.k_tree.specs.Closed.{EndsOnce};
ghost use Rattle.k_parse.specs.Runs.{runs};
ghost use Rattle.k_parse_steps.specs.Sources.{begin_source};
ghost use Rattle.k_parse.specs.Parse.{IsParse, IsOne, IsOnly, nesting_limit};

use crate::fault::ParseFault;
use k_num::{NoMemory, Seq};
use k_parse_statements::source::{begin_source, feed_source};
use k_parse_steps::source::Sourced;
use k_parse_steps::turn::Turn;
use k_tree::{Token, Unit};
use k_tree_nodes::nodes;
use std::alloc::Global;

/// The greatest nesting of a tree, in levels.
const NESTING: usize = 200;

/// The greatest count of nodes of a tree.
const NODES: u64 = 262_144;

/// Reads tokens up to the end.
fn read(alloc: Global, tokens: &[Token]) -> Result<Unit, ParseFault>
    requires { EndsOnce tokens.now }
    // The tree is that of the definition.
    ensures tree { IfOk result (λ u. runs nesting_limit begin_source tokens.now ≡ Some (Ok u)) }
    // Every refusal but want of memory is that of the definition.
    ensures refused { IfErr result (λ f. (f ≡ ParseFault.Memory) ⊎ (runs nesting_limit begin_source tokens.now ≡ Some (Err f))) }
{
    let mut source = begin_source(alloc);
    for token in tokens {
        let fed = match feed_source(alloc, source, token) {
            Ok(fed) => fed,
            Err(NoMemory) => return Err(ParseFault::Memory),
        };
        source = match fed {
            Turn::Goes(source, reach) => {
                if reach > NESTING {
                    drop(source);
                    return Err(ParseFault::TooDeep(token.place));
                }
                source
            }
            Turn::Done(unit) => return Ok(unit),
            Turn::Refused => return Err(ParseFault::Syntax(token.place)),
        };
    }
    unreachable!()
}

/// The tree of a token list, of which the last token is the end and no other token is: the one tree that the grammar of
/// C17 6.5 to 6.9 gives and that the list spells, or the reason why the list has none within the limits of 200 levels and
/// 262,144 nodes. Its time is linear in the count of tokens, each of which is read once.
pub fn parse(alloc: Global, tokens: &Seq<Token>) -> Result<Unit, ParseFault>
    requires { EndsOnce tokens.now }
    ensures tree { IfOk result (λ u. IsParse tokens.now (Ok u)) }
    ensures one { IfOk result (IsOne tokens.now) }
    ensures only { IfOk result (IsOnly tokens.now) }
    ensures refused { IfErr result (λ f. (f ≡ ParseFault.Memory) ⊎ IsParse tokens.now (Err f)) }
{
    let unit = read(alloc, tokens.as_slice())?;
    if nodes(&unit) > NODES {
        return Err(ParseFault::NodesMany);
    }
    Ok(unit)
}

//! The text of a function.
ghost use Rattle.std.specs.Prelude.{◌≡◌, IfOk};
ghost use Rattle.k_pragma_texts.specs.Texts.{function_held};

use crate::lasts::last_of_stmts;
use crate::occurrence::{LoopText, Occurrence, Setter};
use crate::statements::note_block;
use k_num::NoMemory;
use k_types_meaning::TFunc;
use std::alloc::Global;

/// What stands in a text: where variables occur, the assignments that feed reads, and the loops.
#[derive(Drop)]
pub struct Text {
    pub occurs: Vec<Occurrence>,
    pub setters: Vec<Setter>,
    pub loops: Vec<LoopText>,
}

/// What stands in a function.
pub fn text_of(alloc: Global, function: &TFunc) -> Result<Text, NoMemory>
    ensures occurs { IfOk result (λ text. text.occurs.items ≡ (function_held function.now).occurs) }
    ensures setters { IfOk result (λ text. text.setters.items ≡ (function_held function.now).setters) }
    ensures loops { IfOk result (λ text. text.loops.items ≡ (function_held function.now).loops) }
{
    let mut text = Text {
        occurs: Vec::new(alloc),
        setters: Vec::new(alloc),
        loops: Vec::new(alloc),
    };
    let last = last_of_stmts(0, &function.body);
    note_block(alloc, last, &function.body, &mut text)?;
    Ok(text)
}

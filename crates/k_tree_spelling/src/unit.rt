//! Items and a whole source as tokens.
ghost use Rattle.std.specs.Prelude.{◌≡◌, ◌++◌, IfOk};
ghost use Rattle.k_tree.specs.Spelling.{spell_head, spell_item, spelling};

use crate::printer::Printer;
use k_num::{NoMemory, Seq};
use k_tree::{Head, Item, Mark, TokenKind, Unit};
use std::alloc::Global;

impl Printer {
    /// Writes the head of a function.
    fn head(&mut self, head: &Head) -> Result<(), NoMemory>
        ensures { IfOk result (λ _. self.new.tokens ≡ self.old.tokens ++ spell_head head.now) }
    {
        self.specs(&head.specs)?;
        self.stars(&head.stars)?;
        self.name(&head.name)?;
        self.mark(Mark::LeftParen)?;
        self.params(&head.params)?;
        self.mark(Mark::RightParen)
    }

    /// Writes an item.
    fn item(&mut self, item: &Item) -> Result<(), NoMemory>
        ensures { IfOk result (λ _. self.new.tokens ≡ self.old.tokens ++ spell_item item.now) }
    {
        match item {
            Item::Function { head, body, .. } => {
                self.head(head)?;
                self.block(body)
            }
            Item::Prototype { head, .. } => {
                self.head(head)?;
                self.mark(Mark::Semicolon)
            }
            Item::Objects { specs, list, .. } => self.declaration(specs, list),
        }
    }
}

/// The tokens that a tree stands for, with the end behind them.
pub fn spell(alloc: Global, unit: &Unit) -> Result<Seq<TokenKind>, NoMemory>
    ensures { IfOk result (λ tokens. tokens ≡ spelling unit.now) }
{
    let mut printer = Printer::new(alloc);
    for item in unit.items.as_slice() {
        printer.item(item)?;
    }
    printer.token(TokenKind::End)?;
    let Printer { tokens, .. } = printer;
    Ok(tokens)
}

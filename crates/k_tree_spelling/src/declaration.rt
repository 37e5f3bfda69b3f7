//! Declarations, declarators and initialisers as tokens.
ghost use Rattle.std.specs.Prelude.{◌≡◌, ◌++◌, IfOk, map};
ghost use Rattle.k_tree.specs.Spelling.{spell_dim, spell_dims, spell_init, spell_initialised, with_commas};
ghost use Rattle.k_tree.specs.Spelling.{spell_declarator, spell_declaration};

use crate::printer::Printer;
use k_num::{NoMemory, Seq};
use k_tree::{Declarator, Expr, Init, Mark, Word};

impl Printer {
    /// Writes a declaration.
    pub fn declaration(&mut self, specs: &Seq<Word>, list: &Seq<Declarator>) -> Result<(), NoMemory>
        ensures { IfOk result (λ _. self.new.tokens ≡ self.old.tokens ++ spell_declaration specs.now list.now) }
    {
        self.specs(specs)?;
        self.declarators(list)?;
        self.mark(Mark::Semicolon)
    }

    /// Writes declarators with commas between them.
    fn declarators(&mut self, list: &Seq<Declarator>) -> Result<(), NoMemory>
        ensures { IfOk result (λ _. self.new.tokens ≡ self.old.tokens ++ with_commas (map spell_declarator list.now)) }
    {
        let Some((first, rest)) = list.as_slice().split_first() else {
            return Ok(());
        };
        self.declarator(first)?;
        for declarator in rest {
            self.mark(Mark::Comma)?;
            self.declarator(declarator)?;
        }
        Ok(())
    }

    /// Writes a declarator with its initialiser.
    fn declarator(&mut self, declarator: &Declarator) -> Result<(), NoMemory>
        ensures { IfOk result (λ _. self.new.tokens ≡ self.old.tokens ++ spell_declarator declarator.now) }
    {
        self.stars(&declarator.stars)?;
        self.name(&declarator.name)?;
        self.dims(&declarator.dims)?;
        self.initialised(&declarator.init)
    }

    /// Writes the initialiser of a declarator, if it has one.
    fn initialised(&mut self, init: &Option<Init>) -> Result<(), NoMemory>
        ensures { IfOk result (λ _. self.new.tokens ≡ self.old.tokens ++ spell_initialised init.now) }
    {
        match init {
            None => Ok(()),
            Some(init) => {
                self.mark(Mark::Equal)?;
                self.init(init)
            }
        }
    }

    /// Writes an initialiser.
    #[cycle(initialisers)]
    fn init(&mut self, init: &Init) -> Result<(), NoMemory>
        ensures { IfOk result (λ _. self.new.tokens ≡ self.old.tokens ++ spell_init init.now) }
    {
        match init {
            Init::One { value, .. } => self.expr(value),
            Init::List { items, comma, .. } => {
                self.mark(Mark::LeftBrace)?;
                self.inits(items)?;
                if *comma {
                    self.mark(Mark::Comma)?;
                }
                self.mark(Mark::RightBrace)
            }
        }
    }

    /// Writes initialisers with commas between them.
    #[cycle(initialisers)]
    fn inits(&mut self, items: &Seq<Init>) -> Result<(), NoMemory>
        ensures { IfOk result (λ _. self.new.tokens ≡ self.old.tokens ++ with_commas (map spell_init items.now)) }
    {
        let Some((first, rest)) = items.as_slice().split_first() else {
            return Ok(());
        };
        self.init(first)?;
        for item in rest {
            self.mark(Mark::Comma)?;
            self.init(item)?;
        }
        Ok(())
    }

    /// Writes dimensions.
    pub fn dims(&mut self, dims: &Seq<Option<Expr>>) -> Result<(), NoMemory>
        ensures { IfOk result (λ _. self.new.tokens ≡ self.old.tokens ++ spell_dims dims.now) }
    {
        for size in dims.as_slice() {
            self.dim(size)?;
        }
        Ok(())
    }

    /// Writes a dimension, with or without its size.
    fn dim(&mut self, size: &Option<Expr>) -> Result<(), NoMemory>
        ensures { IfOk result (λ _. self.new.tokens ≡ self.old.tokens ++ spell_dim size.now) }
    {
        self.mark(Mark::LeftBracket)?;
        if let Some(size) = size {
            self.expr(size)?;
        }
        self.mark(Mark::RightBracket)
    }
}

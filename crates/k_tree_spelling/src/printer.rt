//! A list of tokens that grows at its end, and the pieces that many constructs have.
ghost use Rattle.std.specs.Prelude.{◌≡◌, ◌∷◌, [], ◌++◌, IfOk};
ghost use Rattle.k_tree.specs.Spelling.{the_mark, the_word, the_name, the_string, spell_specs, spell_star, spell_stars, spell_type, in_parens};

use k_num::{NoMemory, Seq, Text};
use k_tree::{Mark, TokenKind, Word};
use std::alloc::Global;

/// The tokens written so far.
#[derive(Drop)]
pub struct Printer {
    pub alloc: Global,
    pub tokens: Seq<TokenKind>,
}

impl Printer {
    /// A printer that has written nothing.
    pub fn new(alloc: Global) -> Printer
        ensures { result.tokens ≡ [] }
    {
        Printer {
            alloc,
            tokens: Seq::new(alloc),
        }
    }

    /// Writes one token.
    pub fn token(&mut self, token: TokenKind) -> Result<(), NoMemory>
        ensures { IfOk result (λ _. self.new.tokens ≡ self.old.tokens ++ token ∷ []) }
    {
        self.tokens.push(token)
    }

    /// Writes a mark.
    pub fn mark(&mut self, mark: Mark) -> Result<(), NoMemory>
        ensures { IfOk result (λ _. self.new.tokens ≡ self.old.tokens ++ the_mark mark) }
    {
        self.token(TokenKind::Mark(mark))
    }

    /// Writes a keyword.
    pub fn word(&mut self, word: Word) -> Result<(), NoMemory>
        ensures { IfOk result (λ _. self.new.tokens ≡ self.old.tokens ++ the_word word) }
    {
        self.token(TokenKind::Word(word))
    }

    /// Writes a name.
    pub fn name(&mut self, name: &Text) -> Result<(), NoMemory>
        ensures { IfOk result (λ _. self.new.tokens ≡ self.old.tokens ++ the_name name.now) }
    {
        let name = Text::copy_of(self.alloc, name.as_str())?;
        self.token(TokenKind::Name(name))
    }

    /// Writes a string.
    pub fn string(&mut self, bytes: &Seq<u8>) -> Result<(), NoMemory>
        ensures { IfOk result (λ _. self.new.tokens ≡ self.old.tokens ++ the_string bytes.now) }
    {
        let bytes = Seq::copy_of(self.alloc, bytes.as_slice())?;
        self.token(TokenKind::Str(bytes))
    }

    /// Writes specifiers.
    pub fn specs(&mut self, specs: &Seq<Word>) -> Result<(), NoMemory>
        ensures { IfOk result (λ _. self.new.tokens ≡ self.old.tokens ++ spell_specs specs.now) }
    {
        for word in specs.as_slice() {
            self.word(*word)?;
        }
        Ok(())
    }

    /// Writes a star, and `const` behind it if it is constant.
    pub fn star(&mut self, constant: bool) -> Result<(), NoMemory>
        ensures { IfOk result (λ _. self.new.tokens ≡ self.old.tokens ++ spell_star constant) }
    {
        self.mark(Mark::Star)?;
        if constant {
            self.word(Word::Const)?;
        }
        Ok(())
    }

    /// Writes stars.
    pub fn stars(&mut self, stars: &Seq<bool>) -> Result<(), NoMemory>
        ensures { IfOk result (λ _. self.new.tokens ≡ self.old.tokens ++ spell_stars stars.now) }
    {
        for constant in stars.as_slice() {
            self.star(*constant)?;
        }
        Ok(())
    }

    /// Writes the name of a type in parentheses.
    pub fn type_in_parens(&mut self, specs: &Seq<Word>, stars: &Seq<bool>) -> Result<(), NoMemory>
        ensures { IfOk result (λ _. self.new.tokens ≡ self.old.tokens ++ in_parens (spell_type specs.now stars.now)) }
    {
        self.mark(Mark::LeftParen)?;
        self.specs(specs)?;
        self.stars(stars)?;
        self.mark(Mark::RightParen)
    }
}

//! Statements as tokens.
ghost use Rattle.std.specs.Prelude.{◌≡◌, ◌++◌, IfOk, option_map};
ghost use Rattle.k_tree.specs.Spelling.{spell_stmt, spell_stmts, spell_first, spell_for, spell_do, spell_else, spell_option, spell_part, spell_switched, spell_expr, in_braces, the_word, the_mark, in_parens};
ghost use Rattle.k_tree.specs.declared.tokens.mark.Mark.TheVariants as mark;
ghost use Rattle.k_tree.specs.declared.tokens.word.Word.TheVariants as word;

use crate::printer::Printer;
use k_num::{Box, NoMemory, Seq};
use k_tree::{Expr, First, Mark, Part, Stmt, Word};

impl Printer {
    /// Writes a statement.
    #[cycle(statements)]
    pub fn stmt(&mut self, stmt: &Stmt) -> Result<(), NoMemory>
        ensures { IfOk result (λ _. self.new.tokens ≡ self.old.tokens ++ spell_stmt stmt.now) }
    {
        match stmt {
            Stmt::Expr { value, .. } => self.ended(value.get()),
            Stmt::Empty { .. } => self.mark(Mark::Semicolon),
            Stmt::Block { parts, .. } => self.block(parts),
            Stmt::If {
                test,
                then,
                other,
                ..
            } => {
                self.guard(Word::If, test.get())?;
                self.stmt(then.get())?;
                self.else_part(other)
            }
            Stmt::While { test, body, .. } => {
                self.guard(Word::While, test.get())?;
                self.stmt(body.get())
            }
            Stmt::DoWhile { body, test, .. } => self.do_while(body.get(), test.get()),
            Stmt::For {
                first,
                test,
                step,
                body,
                ..
            } => {
                self.for_head(first, test, step)?;
                self.stmt(body.get())
            }
            Stmt::Switch { on, parts, .. } => {
                self.guard(Word::Switch, on.get())?;
                self.switched(parts)
            }
            Stmt::Break { .. } => self.jump(Word::Break),
            Stmt::Continue { .. } => self.jump(Word::Continue),
            Stmt::Return { value, .. } => self.returned(value),
            Stmt::Declare { specs, list, .. } => self.declaration(specs, list),
        }
    }

    /// Writes the `else` of an `if`, if there is one.
    #[cycle(statements)]
    fn else_part(&mut self, other: &Option<Box<Stmt>>) -> Result<(), NoMemory>
        ensures { IfOk result (λ _. self.new.tokens ≡ self.old.tokens ++ spell_else (option_map spell_stmt other.now)) }
    {
        match other {
            None => Ok(()),
            Some(other) => {
                self.word(Word::Else)?;
                self.stmt(other.get())
            }
        }
    }

    /// Writes a `do` loop.
    #[cycle(statements)]
    fn do_while(&mut self, body: &Stmt, test: &Expr) -> Result<(), NoMemory>
        ensures { IfOk result (λ _. self.new.tokens ≡ self.old.tokens ++ spell_do (spell_stmt body.now) test.now) }
    {
        self.word(Word::Do)?;
        self.stmt(body)?;
        self.guard(Word::While, test)?;
        self.mark(Mark::Semicolon)
    }

    /// Writes statements in braces.
    #[cycle(statements)]
    pub fn block(&mut self, parts: &Seq<Stmt>) -> Result<(), NoMemory>
        ensures { IfOk result (λ _. self.new.tokens ≡ self.old.tokens ++ in_braces (spell_stmts parts.now)) }
    {
        self.mark(Mark::LeftBrace)?;
        for part in parts.as_slice() {
            self.stmt(part)?;
        }
        self.mark(Mark::RightBrace)
    }

    /// Writes the parts of a `switch`, in braces.
    #[cycle(statements)]
    fn switched(&mut self, parts: &Seq<Part>) -> Result<(), NoMemory>
        ensures { IfOk result (λ _. self.new.tokens ≡ self.old.tokens ++ in_braces (spell_switched parts.now)) }
    {
        self.mark(Mark::LeftBrace)?;
        for part in parts.as_slice() {
            self.part(part)?;
        }
        self.mark(Mark::RightBrace)
    }

    /// Writes a part of a `switch`.
    #[cycle(statements)]
    fn part(&mut self, part: &Part) -> Result<(), NoMemory>
        ensures { IfOk result (λ _. self.new.tokens ≡ self.old.tokens ++ spell_part part.now) }
    {
        match part {
            Part::Case { value, .. } => {
                self.word(Word::Case)?;
                self.expr(value.get())?;
                self.mark(Mark::Colon)
            }
            Part::Default { .. } => {
                self.word(Word::Default)?;
                self.mark(Mark::Colon)
            }
            Part::Does { stmt, .. } => self.stmt(stmt.get()),
        }
    }

    /// Writes a keyword and the condition behind it, in parentheses.
    fn guard(&mut self, word: Word, test: &Expr) -> Result<(), NoMemory>
        ensures { IfOk result (λ _. self.new.tokens ≡ self.old.tokens ++ (the_word word ++ in_parens (spell_expr test.now))) }
    {
        self.word(word)?;
        self.expr_in_parens(test)
    }

    /// Writes a keyword and the semicolon behind it.
    fn jump(&mut self, word: Word) -> Result<(), NoMemory>
        ensures { IfOk result (λ _. self.new.tokens ≡ self.old.tokens ++ (the_word word ++ the_mark mark.Semicolon)) }
    {
        self.word(word)?;
        self.mark(Mark::Semicolon)
    }

    /// Writes an expression and the semicolon behind it.
    fn ended(&mut self, value: &Expr) -> Result<(), NoMemory>
        ensures { IfOk result (λ _. self.new.tokens ≡ self.old.tokens ++ (spell_expr value.now ++ the_mark mark.Semicolon)) }
    {
        self.expr(value)?;
        self.mark(Mark::Semicolon)
    }

    /// Writes a `return`, with its value, if it has one.
    fn returned(&mut self, value: &Option<Box<Expr>>) -> Result<(), NoMemory>
        ensures { IfOk result (λ _. self.new.tokens ≡ self.old.tokens ++ (the_word word.Return ++ (spell_option value.now ++ the_mark mark.Semicolon))) }
    {
        self.word(Word::Return)?;
        self.optional(value)?;
        self.mark(Mark::Semicolon)
    }

    /// Writes `for` and its three parts, in parentheses.
    fn for_head(
        &mut self,
        first: &First,
        test: &Option<Box<Expr>>,
        step: &Option<Box<Expr>>,
    ) -> Result<(), NoMemory>
        ensures { IfOk result (λ _. self.new.tokens ≡ self.old.tokens ++ (the_word word.For ++ spell_for first.now test.now step.now)) }
    {
        self.word(Word::For)?;
        self.mark(Mark::LeftParen)?;
        self.first(first)?;
        self.optional(test)?;
        self.mark(Mark::Semicolon)?;
        self.optional(step)?;
        self.mark(Mark::RightParen)
    }

    /// Writes the first part of a `for`, with the semicolon behind it.
    fn first(&mut self, first: &First) -> Result<(), NoMemory>
        ensures { IfOk result (λ _. self.new.tokens ≡ self.old.tokens ++ spell_first first.now) }
    {
        match first {
            First::Nothing => self.mark(Mark::Semicolon),
            First::Value(value) => self.ended(value),
            First::Declare(specs, list) => self.declaration(specs, list),
        }
    }
}

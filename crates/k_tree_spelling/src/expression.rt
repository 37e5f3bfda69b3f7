//! Expressions as tokens.
ghost use Rattle.std.specs.Prelude.{◌≡◌, ◌++◌, IfOk, map};
ghost use Rattle.k_tree.specs.Spelling.{spell_expr, the_mark, the_word, the_name, spell_type, with_commas, in_parens, spell_option};
ghost use Rattle.k_tree.specs.declared.tokens.mark.Mark.TheVariants as mark;
ghost use Rattle.k_tree.specs.declared.tokens.word.Word.TheVariants as word;

use crate::printer::Printer;
use k_num::{Box, NoMemory, Seq, Text};
use k_tree::{Expr, Mark, TokenKind, Word};

impl Printer {
    /// Writes an expression.
    #[cycle(expressions)]
    pub fn expr(&mut self, expr: &Expr) -> Result<(), NoMemory>
        ensures { IfOk result (λ _. self.new.tokens ≡ self.old.tokens ++ spell_expr expr.now) }
    {
        match expr {
            Expr::Name { name, .. } => self.name(name),
            Expr::Number { kind, value, .. } => self.token(TokenKind::Number(*kind, *value)),
            Expr::Char { value, .. } => self.token(TokenKind::Char(*value)),
            Expr::Str { bytes, .. } => self.string(bytes),
            Expr::Paren { of, .. } => self.expr_in_parens(of.get()),
            Expr::Index { base, index, .. } => self.index(base.get(), index.get()),
            Expr::Call { name, args, .. } => self.call(args, name),
            Expr::Post { op, of, .. } => self.postfix(of.get(), *op),
            Expr::Pre { op, of, .. } | Expr::Unary { op, of, .. } => self.behind(of.get(), *op),
            Expr::SizeofExpr { of, .. } => self.sizeof_expr(of.get()),
            Expr::SizeofType { specs, stars, .. } => self.sizeof_type(specs, stars),
            Expr::Cast {
                specs,
                stars,
                of,
                ..
            } => self.cast(of.get(), specs, stars),
            Expr::Binary {
                op,
                left,
                right,
                ..
            }
            | Expr::Assign {
                op,
                left,
                right,
                ..
            } => self.joined(left.get(), *op, right.get()),
            Expr::Cond {
                test,
                then,
                other,
                ..
            } => self.conditional(test.get(), then.get(), other.get()),
            Expr::Comma { left, right, .. } => self.joined(left.get(), Mark::Comma, right.get()),
        }
    }

    /// Writes an expression, and an index in brackets behind it.
    #[cycle(expressions)]
    fn index(&mut self, base: &Expr, index: &Expr) -> Result<(), NoMemory>
        ensures { IfOk result (λ _. self.new.tokens ≡ self.old.tokens ++ (spell_expr base.now ++ (the_mark mark.LeftBracket ++ (spell_expr index.now ++ the_mark mark.RightBracket)))) }
    {
        self.expr(base)?;
        self.behind(index, Mark::LeftBracket)?;
        self.mark(Mark::RightBracket)
    }

    /// Writes the call of a function.
    #[cycle(expressions)]
    fn call(&mut self, args: &Seq<Expr>, name: &Text) -> Result<(), NoMemory>
        ensures { IfOk result (λ _. self.new.tokens ≡ self.old.tokens ++ (the_name name.now ++ in_parens (with_commas (map spell_expr args.now)))) }
    {
        self.name(name)?;
        self.mark(Mark::LeftParen)?;
        self.args(args)?;
        self.mark(Mark::RightParen)
    }

    /// Writes an expression, and an operator behind it.
    #[cycle(expressions)]
    fn postfix(&mut self, of: &Expr, op: Mark) -> Result<(), NoMemory>
        ensures { IfOk result (λ _. self.new.tokens ≡ self.old.tokens ++ (spell_expr of.now ++ the_mark op)) }
    {
        self.expr(of)?;
        self.mark(op)
    }

    /// Writes an operator, and an expression behind it.
    #[cycle(expressions)]
    fn behind(&mut self, of: &Expr, op: Mark) -> Result<(), NoMemory>
        ensures { IfOk result (λ _. self.new.tokens ≡ self.old.tokens ++ (the_mark op ++ spell_expr of.now)) }
    {
        self.mark(op)?;
        self.expr(of)
    }

    /// Writes `sizeof`, and an expression behind it.
    #[cycle(expressions)]
    fn sizeof_expr(&mut self, of: &Expr) -> Result<(), NoMemory>
        ensures { IfOk result (λ _. self.new.tokens ≡ self.old.tokens ++ (the_word word.Sizeof ++ spell_expr of.now)) }
    {
        self.word(Word::Sizeof)?;
        self.expr(of)
    }

    /// Writes `sizeof`, and the name of a type in parentheses behind it.
    fn sizeof_type(&mut self, specs: &Seq<Word>, stars: &Seq<bool>) -> Result<(), NoMemory>
        ensures { IfOk result (λ _. self.new.tokens ≡ self.old.tokens ++ (the_word word.Sizeof ++ in_parens (spell_type specs.now stars.now))) }
    {
        self.word(Word::Sizeof)?;
        self.type_in_parens(specs, stars)
    }

    /// Writes the name of a type in parentheses, and an expression behind it.
    #[cycle(expressions)]
    fn cast(&mut self, of: &Expr, specs: &Seq<Word>, stars: &Seq<bool>) -> Result<(), NoMemory>
        ensures { IfOk result (λ _. self.new.tokens ≡ self.old.tokens ++ (in_parens (spell_type specs.now stars.now) ++ spell_expr of.now)) }
    {
        self.type_in_parens(specs, stars)?;
        self.expr(of)
    }

    /// Writes two expressions, and an operator between them.
    #[cycle(expressions)]
    fn joined(&mut self, left: &Expr, op: Mark, right: &Expr) -> Result<(), NoMemory>
        ensures { IfOk result (λ _. self.new.tokens ≡ self.old.tokens ++ (spell_expr left.now ++ (the_mark op ++ spell_expr right.now))) }
    {
        self.expr(left)?;
        self.behind(right, op)
    }

    /// Writes a conditional expression.
    #[cycle(expressions)]
    fn conditional(&mut self, test: &Expr, then: &Expr, other: &Expr) -> Result<(), NoMemory>
        ensures { IfOk result (λ _. self.new.tokens ≡ self.old.tokens ++ (spell_expr test.now ++ (the_mark mark.Question ++ (spell_expr then.now ++ (the_mark mark.Colon ++ spell_expr other.now))))) }
    {
        self.expr(test)?;
        self.behind(then, Mark::Question)?;
        self.behind(other, Mark::Colon)
    }

    /// Writes an expression in parentheses.
    #[cycle(expressions)]
    pub fn expr_in_parens(&mut self, expr: &Expr) -> Result<(), NoMemory>
        ensures { IfOk result (λ _. self.new.tokens ≡ self.old.tokens ++ in_parens (spell_expr expr.now)) }
    {
        self.mark(Mark::LeftParen)?;
        self.expr(expr)?;
        self.mark(Mark::RightParen)
    }

    /// Writes arguments with commas between them.
    #[cycle(expressions)]
    fn args(&mut self, args: &Seq<Expr>) -> Result<(), NoMemory>
        ensures { IfOk result (λ _. self.new.tokens ≡ self.old.tokens ++ with_commas (map spell_expr args.now)) }
    {
        let Some((first, rest)) = args.as_slice().split_first() else {
            return Ok(());
        };
        self.expr(first)?;
        for arg in rest {
            self.mark(Mark::Comma)?;
            self.expr(arg)?;
        }
        Ok(())
    }

    /// Writes an expression, if there is one.
    pub fn optional(&mut self, expr: &Option<Box<Expr>>) -> Result<(), NoMemory>
        ensures { IfOk result (λ _. self.new.tokens ≡ self.old.tokens ++ spell_option expr.now) }
    {
        match expr {
            None => Ok(()),
            Some(expr) => self.expr(expr.get()),
        }
    }
}

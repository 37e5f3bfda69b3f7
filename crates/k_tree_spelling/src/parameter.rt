//! Parameters as tokens.
ghost use Rattle.std.specs.Prelude.{◌≡◌, ◌++◌, IfOk, map};
ghost use Rattle.k_tree.specs.Spelling.{with_commas, spell_optional_name, spell_param, spell_params};

use crate::printer::Printer;
use k_num::{NoMemory, Seq, Text};
use k_tree::{Mark, Param, Params, Word};

impl Printer {
    /// Writes what stands between the parentheses of a head.
    pub fn params(&mut self, params: &Params) -> Result<(), NoMemory>
        ensures { IfOk result (λ _. self.new.tokens ≡ self.old.tokens ++ spell_params params.now) }
    {
        match params {
            Params::Empty => Ok(()),
            Params::Void => self.word(Word::Void),
            Params::List(list) => self.param_list(list),
        }
    }

    /// Writes parameters with commas between them.
    fn param_list(&mut self, list: &Seq<Param>) -> Result<(), NoMemory>
        ensures { IfOk result (λ _. self.new.tokens ≡ self.old.tokens ++ with_commas (map spell_param list.now)) }
    {
        let Some((first, rest)) = list.as_slice().split_first() else {
            return Ok(());
        };
        self.param(first)?;
        for param in rest {
            self.mark(Mark::Comma)?;
            self.param(param)?;
        }
        Ok(())
    }

    /// Writes a parameter.
    fn param(&mut self, param: &Param) -> Result<(), NoMemory>
        ensures { IfOk result (λ _. self.new.tokens ≡ self.old.tokens ++ spell_param param.now) }
    {
        self.specs(&param.specs)?;
        self.stars(&param.stars)?;
        self.optional_name(&param.name)?;
        self.dims(&param.dims)
    }

    /// Writes a name, if there is one.
    fn optional_name(&mut self, name: &Option<Text>) -> Result<(), NoMemory>
        ensures { IfOk result (λ _. self.new.tokens ≡ self.old.tokens ++ spell_optional_name name.now) }
    {
        match name {
            None => Ok(()),
            Some(name) => self.name(name),
        }
    }
}

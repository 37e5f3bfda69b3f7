//! Tests and steps, which may be left out (C17 6.8.5.3).
ghost use Rattle.std.specs.Prelude.{◌≡◌, IfOk};
ghost use Rattle.std.specs.Option.{option_copied};
ghost use Rattle.k_lower_code.specs.Loops.{step_or_none as step_or_none_meant, test_or_one as test_or_one_meant};
ghost use Rattle.k_lower_expressions.specs.Arounds.{inside_of};
ghost use Rattle.k_lower_expressions.specs.Emits.{Emits};

use k_code::{Arg, Instr};
use k_lower_expressions::{Around, value};
use k_lower_extents::extent_of;
use k_lower_statements::{drop_value, temporary};
use k_num::{Box, NoMemory};
use k_types_meaning::TExpr;

/// How many instructions a test has.
pub(crate) fn test_size(test: Option<&Box<TExpr>>, around: &Around<'_>) -> Result<u32, NoMemory>
    ensures { IfOk result (λ n. n ≡ (test_or_one_meant (inside_of around.now) (option_copied test.entry)).size) }
{
    match test {
        None => Ok(0),
        Some(e) => Ok(extent_of(e.get(), around.variables)?.used),
    }
}

/// How many instructions a step has.
pub(crate) fn step_size(step: Option<&Box<TExpr>>, around: &Around<'_>) -> Result<u32, NoMemory>
    ensures { IfOk result (λ n. n ≡ (step_or_none_meant (inside_of around.now) (option_copied step.entry)).size) }
{
    match step {
        None => Ok(0),
        Some(e) => Ok(extent_of(e.get(), around.variables)?.unused),
    }
}

/// Emits a test: one that is left out tests 1.
pub(crate) fn test_or_one(
    test: Option<&Box<TExpr>>,
    around: &Around<'_>,
    out: &mut Vec<Instr>,
) -> Result<Arg, NoMemory>
    ensures { Emits result (test_or_one_meant (inside_of around.now) (option_copied test.entry)) out.old.items out.new.items }
{
    match test {
        None => Ok(Arg::Number(1)),
        Some(e) => {
            let r = temporary(around)?;
            value(e.get(), true, r, around, out)
        }
    }
}

/// Emits a step.
pub(crate) fn step_or_none(
    step: Option<&Box<TExpr>>,
    around: &Around<'_>,
    out: &mut Vec<Instr>,
) -> Result<(), NoMemory>
    ensures { Emits result (step_or_none_meant (inside_of around.now) (option_copied step.entry)) out.old.items out.new.items }
{
    match step {
        None => Ok(()),
        Some(e) => drop_value(e.get(), around, out),
    }
}

//! How what a macro is replaced by is written out: a list of steps, in which an earlier macro is one step. Steps
//! that give nothing are left out, and a macro of one step lends that step to those that use it, so that at
//! least two steps stand behind each macro that is a step, and writing takes at most twice as many steps as tokens.
ghost use Rattle.std.specs.Prelude.{◌≡◌, ℕ, ◌+◌, ◌-◌, ◌^◌, min, [], ◌∷◌, ◌++◌, reverse, OnOk};
ghost use Rattle.k_lex_macros.specs.Steps as spec;

use k_num::{NoMemory, Seq};
use std::alloc::Global;

/// One step of writing out.
#[derive(Clone, Copy, Debug, PartialEq, Eq)]
pub enum Step {
    /// The token at this place of the body of the macro of this number.
    Token { number: usize, at: usize },
    /// All that the macro of this number is replaced by.
    Whole(usize),
}

/// The steps, and how many tokens and bytes of their spellings they give. No count goes beyond the greatest number.
#[derive(Debug, Drop)]
pub struct Plan {
    pub steps: Seq<Step>,
    pub count: usize,
    pub bytes: usize,
}

/// The step that stands for a macro of these steps, if they give anything.
fn step_of(number: usize, steps: &[Step]) -> Option<Step>
    ensures { result ≡ spec.step_of number steps.now }
{
    match steps {
        [] => None,
        [step] => Some(*step),
        _ => Some(Step::Whole(number)),
    }
}

/// Puts the steps on the stack, the first one on top.
pub fn push_steps(stack: &mut Vec<Step>, steps: &[Step]) -> Result<(), NoMemory>
    ensures { OnOk result (stack.new.items ≡ stack.old.items ++ reverse steps.now) }
{
    let mut rest = steps;
    while let Some((step, before)) = rest.split_last() {
        stack.push(*step)?;
        rest = before;
    }
    Ok(())
}

impl Plan {
    /// No steps.
    pub fn new(alloc: Global) -> Plan
        ensures { result ≡ record { steps = []; count = 0; bytes = 0 } }
    {
        Plan {
            steps: Seq::new(alloc),
            count: 0,
            bytes: 0,
        }
    }

    /// Adds the token at a place of a body.
    pub fn add_token(&mut self, number: usize, at: usize, size: usize) -> Result<(), NoMemory>
        ensures { OnOk result (self.new ≡ spec.with_token self.old number at size) }
    {
        self.steps.push(Step::Token { number, at })?;
        self.count = self.count.saturating_add(1);
        self.bytes = self.bytes.saturating_add(size);
        Ok(())
    }

    /// Adds what another macro is replaced by.
    pub fn add_macro(&mut self, number: usize, other: &Plan) -> Result<(), NoMemory>
        ensures { OnOk result (self.new ≡ spec.with_macro self.old number other.now) }
    {
        if let Some(step) = step_of(number, other.steps.as_slice()) {
            self.steps.push(step)?;
        }
        self.count = self.count.saturating_add(other.count);
        self.bytes = self.bytes.saturating_add(other.bytes);
        Ok(())
    }
}

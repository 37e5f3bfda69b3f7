//! What an instruction says of itself.
ghost use Rattle.std.specs.Prelude.{ℕ, ◌≡◌, List, Option};
ghost use Rattle.k_code.specs.declared.instruction.Arg.{Arg as ArgValue};
ghost use Rattle.k_code.specs.declared.instruction.Do.TheVariants as act;
ghost use Rattle.k_code.specs.Named.{register_set};
ghost use Rattle.k_hcpa_steps.specs.Kinds.{kind_of as kind_meant, writes as writes_meant};

use k_code::{Arg, Do};

/// Instructions by what they do to the parts of a machine.
#[derive(Clone, Copy, Debug, PartialEq, Eq)]
pub enum Kind {
    /// An operation is made by which the call goes on.
    Operation,
    /// No operation is made, and no instance is entered or left.
    Silent,
    /// An instance is entered.
    Enter,
    /// The innermost instance is left.
    Exit,
    /// A function is called.
    Call,
    /// The newest call returns.
    Return,
}

/// The kind of an instruction.
#[tactic(auto, unfolding(crate::specs::Kinds::kind_of))]
#[inline(always)]
pub(crate) fn kind_of(what: &Do) -> Kind
    ensures { result ≡ kind_meant what.now }
{
    match what {
        Do::Jump { .. } => Kind::Silent,
        Do::FallOff => Kind::Silent,
        Do::Address { .. } => Kind::Silent,
        Do::ObjectOpen { .. } => Kind::Silent,
        Do::ObjectsClose { .. } => Kind::Silent,
        Do::Fill { .. } => Kind::Silent,
        Do::Forget { .. } => Kind::Silent,
        Do::Save => Kind::Silent,
        Do::Keep => Kind::Silent,
        Do::Back => Kind::Silent,
        Do::Restore => Kind::Silent,
        Do::Enter { .. } => Kind::Enter,
        Do::Exit => Kind::Exit,
        Do::Call { .. } => Kind::Call,
        Do::Return { .. } => Kind::Return,
        _ => Kind::Operation,
    }
}

/// The register that an instruction sets, if it does.
#[tactic(auto, unfolding(k_code::specs::Named::register_set))]
#[inline(always)]
pub(crate) fn register_of(what: &Do) -> Option<u32>
    ensures { result ≡ register_set what.now }
{
    match what {
        Do::Binary { to, .. } => Some(*to),
        Do::Unary { to, .. } => Some(*to),
        Do::Convert { to, .. } => Some(*to),
        Do::Move { to, .. } => Some(*to),
        Do::Offset { to, .. } => Some(*to),
        Do::PtrCompare { to, .. } => Some(*to),
        Do::PtrDistance { to, .. } => Some(*to),
        Do::Load { to, .. } => Some(*to),
        Do::Store { to, .. } => *to,
        Do::Input { to } => Some(*to),
        Do::Output { to, .. } => Some(*to),
        Do::Test { to, .. } => *to,
        Do::Address { to, .. } => Some(*to),
        Do::Forget { register } => Some(*register),
        Do::Call { to, .. } => *to,
        _ => None,
    }
}

/// The region that is entered.
#[inline(always)]
pub(crate) fn region_of(what: &Do) -> u32
    ensures { (region : ℕ) → what.now ≡ act.Enter region → result ≡ region }
{
    match what {
        Do::Enter { region } => *region,
        _ => 0,
    }
}

/// The number of the function that is called.
pub(crate) fn function_of(what: &Do) -> u32
    ensures { (func : ℕ) (args : List ArgValue) (to : Option ℕ) → what.now ≡ act.Call func args to → result ≡ func }
{
    match what {
        Do::Call { func, .. } => *func,
        _ => 0,
    }
}

/// The operands of a call.
pub(crate) fn arguments_of(what: &Do) -> &[Arg]
    ensures { (func : ℕ) (args : List ArgValue) (to : Option ℕ) → what.now ≡ act.Call func args to → result.now ≡ args }
{
    match what {
        Do::Call { args, .. } => args.as_slice(),
        _ => &[],
    }
}

/// The operand of a return, if there is one.
pub(crate) fn value_of(what: &Do) -> Option<Arg>
    ensures { (value : Option ArgValue) → what.now ≡ act.Return value → result ≡ value }
{
    match what {
        Do::Return { value } => *value,
        _ => None,
    }
}

/// Whether an instruction writes output.
#[inline(always)]
pub(crate) fn writes(what: &Do) -> bool
    ensures { result ≡ writes_meant what.now }
{
    match what {
        Do::Output { .. } => true,
        _ => false,
    }
}

//! On what an operation depends beside the control source, and where what it gives is held.
ghost use Rattle.std.specs.Prelude.{◌≡◌, ℕ, ◌+◌, ◌*◌, ◌^◌, ◌<◌, [], ◌∷◌, IfSome, length};
ghost use Rattle.k_code.specs.Named.{operands, returned_operands};
ghost use Rattle.k_code.specs.Steps.{operation_of};
ghost use Rattle.k_hcpa_meaning.specs.Locations.{operand_locations, element_location, register_location};
ghost use Rattle.k_hcpa_meaning.specs.Timings.{raised_all, given_to_all};
ghost use Rattle.k_hcpa_times.specs.Seen.{AreBelow, Keeps, levels, made};
ghost use Rattle.k_hcpa_instructions.specs.Kinds.{HaveRoom, effects_of, hidden_of};

use k_code::{Arg, Do};
use k_hcpa_times::Timed;
use k_shadow::Steps;
use std::sync::ledger::Ledger;

/// The operation depends on two operands, but for those whose dependence is broken.
fn raise_two<T: Timed, L: Ledger>(times: &mut T, first: u32, a: Arg, b: Arg, steps: &mut Steps<L>)
    requires { AreBelow first (T.seen times.old).registers (a ∷ b ∷ []) }
    ensures raised { T.seen times.new ≡ made (raised_all (operand_locations first (a ∷ b ∷ []))) (T.seen times.old) }
    ensures kept { Keeps (T.room times.old) (T.room times.new) }
    ensures steps { steps.new ≡ steps.old + length (operand_locations first (a ∷ b ∷ [])) * levels (T.seen times.old) }
{
    times.raise_arg(first, a, steps);
    times.raise_arg(first, b, steps);
}

/// The operation depends on the registers that its instruction names, but for those whose dependence is broken.
#[tactic(auto, unfolding(k_code::specs::Named::operands))]
pub(crate) fn raise_operands<T: Timed, L: Ledger>(
    times: &mut T,
    first: u32,
    act: &Do,
    steps: &mut Steps<L>,
)
    requires { AreBelow first (T.seen times.old).registers (operands act.now) }
    ensures raised { T.seen times.new ≡ made (raised_all (operand_locations first (operands act.now))) (T.seen times.old) }
    ensures kept { Keeps (T.room times.old) (T.room times.new) }
    ensures steps { steps.new ≡ steps.old + length (operand_locations first (operands act.now)) * levels (T.seen times.old) }
{
    match act {
        Do::Binary { a, b, .. } => raise_two(times, first, *a, *b, steps),
        Do::Unary { a, .. } => times.raise_arg(first, *a, steps),
        Do::Convert { a, .. } => times.raise_arg(first, *a, steps),
        Do::Move { a, .. } => times.raise_arg(first, *a, steps),
        Do::Offset { at, by, .. } => raise_two(times, first, *at, *by, steps),
        Do::PtrCompare { a, b, .. } => raise_two(times, first, *a, *b, steps),
        Do::PtrDistance { a, b, .. } => raise_two(times, first, *a, *b, steps),
        Do::Load { at, .. } => times.raise_arg(first, *at, steps),
        Do::Store { at, a, .. } => raise_two(times, first, *at, *a, steps),
        Do::Output { args, .. } => times.raise_all(first, args.as_slice(), steps),
        Do::Test { a, .. } => times.raise_arg(first, *a, steps),
        Do::Call { args, .. } => times.raise_all(first, args.as_slice(), steps),
        Do::Return { value } => raise_returned(times, first, *value, steps),
        _ => {}
    }
}

/// The operation depends on what is returned, if it is a value.
fn raise_returned<T: Timed, L: Ledger>(
    times: &mut T,
    first: u32,
    value: Option<Arg>,
    steps: &mut Steps<L>,
)
    requires { AreBelow first (T.seen times.old).registers (returned_operands value) }
    ensures raised { T.seen times.new ≡ made (raised_all (operand_locations first (returned_operands value))) (T.seen times.old) }
    ensures kept { Keeps (T.room times.old) (T.room times.new) }
    ensures steps { steps.new ≡ steps.old + length (operand_locations first (returned_operands value)) * levels (T.seen times.old) }
{
    if let Some(a) = value {
        times.raise_arg(first, a, steps);
    }
}

/// The operation depends on an element, if it reads one.
fn raise_element<T: Timed, L: Ledger>(times: &mut T, element: Option<u32>, steps: &mut Steps<L>)
    requires { IfSome element (λ e. e < (T.seen times.old).elements) }
    ensures raised { T.seen times.new ≡ made (raised_all (element_location element)) (T.seen times.old) }
    ensures kept { Keeps (T.room times.old) (T.room times.new) }
    ensures steps { steps.new ≡ steps.old + length (element_location element) * levels (T.seen times.old) }
{
    if let Some(element) = element {
        times.raise_element(element, steps);
    }
}

/// The operation depends on the element that it loads, or on the cell IN or OUT.
#[tactic(auto, unfolding(k_code::specs::Steps::operation_of, k_hcpa_meaning::specs::Locations::hidden_locations))]
pub(crate) fn raise_hidden<T: Timed, L: Ledger>(
    times: &mut T,
    act: &Do,
    element: Option<u32>,
    steps: &mut Steps<L>,
)
    requires { IfSome element (λ e. e < (T.seen times.old).elements) }
    ensures raised { T.seen times.new ≡ made (raised_all (hidden_of (operation_of act.now) element)) (T.seen times.old) }
    ensures kept { Keeps (T.room times.old) (T.room times.new) }
    ensures steps { steps.new ≡ steps.old + length (hidden_of (operation_of act.now) element) * levels (T.seen times.old) }
{
    match act {
        Do::Load { .. } => raise_element(times, element, steps),
        Do::Input { .. } => times.raise_input(steps),
        Do::Output { .. } => times.raise_output(steps),
        _ => {}
    }
}

/// An element holds what the operation gave, if it writes one.
fn give_element<T: Timed>(times: &mut T, element: Option<u32>)
    requires below { IfSome element (λ e. e < (T.seen times.old).elements) }
    requires room { HaveRoom (T.room times.old) (element_location element) }
    ensures given { T.seen times.new ≡ made (given_to_all (element_location element)) (T.seen times.old) }
    ensures kept { Keeps (T.room times.old) (T.room times.new) }
{
    if let Some(element) = element {
        times.give_element(element);
    }
}

/// The element that it stores, the cell IN or OUT, or the control source holds what the operation gave.
#[tactic(auto, unfolding(k_code::specs::Steps::operation_of, k_hcpa_meaning::specs::Locations::effect_locations))]
pub(crate) fn give_effect<T: Timed>(times: &mut T, act: &Do, element: Option<u32>)
    requires below { IfSome element (λ e. e < (T.seen times.old).elements) }
    requires room { HaveRoom (T.room times.old) (effects_of (operation_of act.now) element) }
    ensures given { T.seen times.new ≡ made (given_to_all (effects_of (operation_of act.now) element)) (T.seen times.old) }
    ensures kept { Keeps (T.room times.old) (T.room times.new) }
{
    match act {
        Do::Store { .. } => give_element(times, element),
        Do::Input { .. } => times.give_input(),
        Do::Output { .. } => times.give_output(),
        Do::Test { .. } => times.give_control(),
        _ => {}
    }
}

/// A register of the call, whose registers are numbered from `first` on, holds what the operation gave, if the instruction sets one.
pub(crate) fn give_register<T: Timed>(times: &mut T, first: u32, to: Option<u32>)
    requires below { IfSome to (λ r. first + r < (T.seen times.old).registers) }
    requires few { IfSome to (λ r. first + r < 2 ^ 32) }
    requires room { HaveRoom (T.room times.old) (register_location first to) }
    ensures given { T.seen times.new ≡ made (given_to_all (register_location first to)) (T.seen times.old) }
    ensures kept { Keeps (T.room times.old) (T.room times.new) }
{
    if let Some(to) = to {
        times.give_register(first + to);
    }
}

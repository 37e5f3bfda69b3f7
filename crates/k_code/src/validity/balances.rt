//! Whether a function is balanced. What is open before an instruction is known once an earlier one leads to it, and each later one
//! that leads to it has to agree, so that one pass decides.
ghost use Rattle.std.specs.Prelude.{ℕ, ◌≡◌, ◌+◌, ◌-◌, ◌∷◌, ◌<◌, ◌≤◌, ◌^◌, ◌↔◌, length, replicate, slice_get, true, IsTrue, IfOk, None, Some};
ghost use Rattle.k_code.specs.Balances.{IsBelow, jumps_to, left_open, nothing_open};
ghost use Rattle.k_code.specs.Decides.{Adds, Agrees, Follows, HasBalance, IsOpen, JumpsAreWithin, Knows, Settles};

use super::ranges::goes_on;
use crate::{Balance, Do, Instr};
use k_num::NoMemory;
use std::alloc::Global;

/// Whether the instructions of a function, the first of which has the number `entry`, are balanced.
pub(super) fn is_balanced(alloc: Global, entry: usize, instrs: &[Instr]) -> Result<bool, NoMemory>
    requires few { length instrs.now + 1 < 2 ^ 64 }
    requires within { JumpsAreWithin entry instrs.now }
    ensures { IfOk result (λ b. IsTrue b ↔ HasBalance entry instrs.now) }
{
    let mut before = at_entry(alloc, instrs.len())?;
    Ok(all_settled(entry, instrs, before.as_mut_slice()))
}

/// What is known at first: at the entry nothing is open.
fn at_entry(alloc: Global, count: usize) -> Result<Vec<Option<Balance>>, NoMemory>
    ensures { IfOk result (λ list. list.items ≡ Some nothing_open ∷ replicate count None) }
{
    let mut list = Vec::new(alloc);
    list.push(Some(Balance::nothing()))?;
    for k in 0..count {
        list.push(None)?;
    }
    Ok(list)
}

/// Goes through the instructions, one after another.
fn all_settled(entry: usize, instrs: &[Instr], before: &mut [Option<Balance>]) -> bool
    requires few { length instrs.now + 1 < 2 ^ 64 }
    requires within { JumpsAreWithin entry instrs.now }
    requires known { Knows entry instrs.now 0 before.old }
    ensures { IsTrue result ↔ HasBalance entry instrs.now }
{
    for k in 0..instrs.len() {
        if !settle(entry, instrs, k, before) {
            return false;
        }
    }
    true
}

/// Whether an instruction finds what it takes away, and those that it leads to agree.
fn settle(entry: usize, instrs: &[Instr], k: usize, before: &mut [Option<Balance>]) -> bool
    requires few { length instrs.now + 1 < 2 ^ 64 }
    requires place { k < length instrs.now }
    requires within { JumpsAreWithin entry instrs.now }
    requires known { Knows entry instrs.now k before.old }
    ensures { Settles result entry instrs.now k before.new }
{
    let act = &instrs[k].act;
    let Some(balance) = known(before, k) else {
        return false;
    };
    if !balance.meets(act) {
        return false;
    }
    if !jumps_agree(entry, act, balance, before) {
        return false;
    }
    next_agrees(k, act, balance, before)
}

/// Whether the targets of an instruction agree with what is open before it.
fn jumps_agree(entry: usize, act: &Do, balance: Balance, before: &mut [Option<Balance>]) -> bool
    requires { (to : ℕ) → jumps_to act.now to ≡ true → (entry ≤ to) × (to < entry + length before.old) }
    ensures { Agrees result (λ t. jumps_to act.now (entry + t) ≡ true) balance before.old before.new }
{
    match act {
        Do::Test { then, other, .. } => {
            agrees(*then as usize - entry, balance, before)
                && agrees(*other as usize - entry, balance, before)
        }
        Do::Jump { to } => agrees(*to as usize - entry, balance, before),
        _ => true,
    }
}

/// Whether the next instruction agrees with what this one leaves, if it goes on.
fn next_agrees(k: usize, act: &Do, balance: Balance, before: &mut [Option<Balance>]) -> bool
    requires place { k + 1 < length before.old }
    requires below { IsBelow (2 ^ 64) (left_open act.now balance) }
    ensures { Follows result k act.now balance before.old before.new }
{
    if goes_on(act) {
        return agrees(k + 1, balance.after(act), before);
    }
    pass(k + 1, balance, before);
    true
}

/// What is known of the balance before an instruction.
fn known(before: &[Option<Balance>], k: usize) -> Option<Balance>
    requires { k < length before.now }
    ensures { slice_get before.now k ≡ Some result }
{
    before[k]
}

/// Whether an instruction has this balance before it. Where none is known, it is known from now on.
fn agrees(k: usize, balance: Balance, before: &mut [Option<Balance>]) -> bool
    requires { k < length before.old }
    ensures { Agrees result (λ t. t ≡ k) balance before.old before.new }
{
    match known(before, k) {
        Some(other) => is_same(other, balance),
        None => {
            before[k] = Some(balance);
            true
        }
    }
}

/// Whether two balances are equal.
fn is_same(a: Balance, b: Balance) -> bool
    ensures { IsTrue result ↔ (a ≡ b) }
{
    a.saved == b.saved && a.objects == b.objects && a.regions == b.regions
}

/// Where no balance is known before an instruction, it is this one.
fn pass(k: usize, balance: Balance, before: &mut [Option<Balance>])
    requires { k < length before.old }
    ensures { Adds (λ t. (t ≡ k) × IsOpen before.old t) balance before.old before.new }
{
    if known(before, k).is_none() {
        before[k] = Some(balance);
    }
}

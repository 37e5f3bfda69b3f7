//! For each operation those that it is a source of.
ghost use Rattle.std.specs.Prelude.{◌≡◌, ◌<◌, [], ◌∷◌, ℕ, IfOk, OnOk, length, slice_index_or, replicate};
ghost use Rattle.std.specs.List.{All, Contains};
ghost use Rattle.k_replay_record.specs.Records.{AreEarlier, IsEarlier};
ghost use Rattle.k_replay.specs.Kept.{AreUsers, NamesBelow, Notes};

use k_num::{NoMemory, Seq};
use k_replay_record::{Operand, Step};
use std::alloc::Global;

/// For each step the numbers of those that it is a source of.
pub(crate) fn users(alloc: Global, steps: &[Step]) -> Result<Vec<Seq<u64>>, NoMemory>
    requires { AreEarlier 0 steps.now }
    ensures lists { IfOk result (λ users. length users.items ≡ length steps.now) }
    ensures users { IfOk result (λ users. AreUsers users.items steps.now) }
    ensures named { IfOk result (λ users. NamesBelow users.items (length steps.now)) }
{
    let mut users = no_users(alloc, steps.len())?;
    for (k, step) in steps.iter().enumerate() {
        note(&mut users, step.operands.as_slice(), k as u64)?;
    }
    Ok(users)
}

/// So many empty lists.
fn no_users(alloc: Global, count: usize) -> Result<Vec<Seq<u64>>, NoMemory>
    ensures { IfOk result (λ users. users.items ≡ replicate count []) }
{
    let mut users = Vec::with_capacity(alloc, count)?;
    for _k in 0..count {
        users.push(Seq::new(alloc))?;
    }
    Ok(users)
}

/// Notes a step for each of its sources.
fn note(users: &mut Vec<Seq<u64>>, operands: &[Operand], k: u64) -> Result<(), NoMemory>
    requires earlier { All (IsEarlier k) operands.now }
    requires within { k < length users.old.items }
    ensures { OnOk result (Notes users.old.items users.new.items operands.now k) }
{
    for operand in operands {
        note_one(users, operand, k)?;
    }
    Ok(())
}

/// Notes a step for one of its sources.
fn note_one(users: &mut Vec<Seq<u64>>, operand: &Operand, k: u64) -> Result<(), NoMemory>
    requires earlier { IsEarlier k operand.now }
    requires within { k < length users.old.items }
    ensures { OnOk result (Notes users.old.items users.new.items (operand.now ∷ []) k) }
{
    if let Operand::From(j) = operand {
        let list = &mut users[*j as usize];
        list.push(k)?;
    }
    Ok(())
}

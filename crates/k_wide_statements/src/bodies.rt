//! The body of a loop: the jumps that lead out of it, and its last statement.
ghost use Rattle.std.specs.Prelude.{◌≡◌, map, IfOk};
ghost use Rattle.std.specs.Option.{option_copied};
ghost use Rattle.k_wide_meaning.specs.Contents.{seen, member, last_action, last_of};

use k_marks_jumps::jumps_of;
use k_marks_meaning::Jumps;
use k_num::NoMemory;
use k_types_meaning::{TExpr, TStmt};
use std::alloc::Global;

/// The jumps that lead out of a statement.
#[tactic(auto, using(crate::proofs::JumpLaws::same_jumps))]
pub fn jumps_out_of(alloc: Global, stmt: &TStmt) -> Result<Jumps, NoMemory>
    ensures { IfOk result (λ jumps. jumps ≡ (seen stmt.now).jumps) }
{
    Ok(jumps_of(alloc, stmt)?)
}

/// The expression of an expression statement.
fn action_of(stmt: &TStmt) -> Option<&TExpr>
    ensures { option_copied result ≡ (seen stmt.now).action }
{
    match stmt {
        TStmt::Expr { value, .. } => Some(value.get()),
        _ => None,
    }
}

/// The last of these statements, where it is an expression statement.
#[tactic(auto, using(crate::proofs::MemberLaws::last_behind))]
fn last_among(stmts: &[TStmt]) -> Option<&TExpr>
    ensures { option_copied result ≡ last_action (map member (map seen stmts.now)) }
{
    match stmts.split_last() {
        None => None,
        Some((last, _before)) => action_of(last),
    }
}

/// The last statement of the block that is a body, where it is an expression statement.
pub fn last_of(body: &TStmt) -> Option<&TExpr>
    ensures { option_copied result ≡ last_of (seen body.now).members }
{
    match body {
        TStmt::Block { parts, .. } => last_among(parts.as_slice()),
        _ => None,
    }
}

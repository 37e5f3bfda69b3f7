//! Where a statement stands once it is lowered: what is emitted for it as a whole, as its end, stands at this place of the source.
ghost use Rattle.std.specs.Prelude.{◌≡◌, map};
ghost use Rattle.k_types_meaning.specs.declared.tree.statement.TStmt.{out-TStmt};
ghost use Rattle.k_lower_blocks.specs.Places.{place_by};
ghost use Rattle.k_lower_code.specs.Declarations.{declares_all, starts_with};
ghost use Rattle.k_lower_code.specs.Statements.{lowered};
ghost use Rattle.k_lower_code.specs.Stretches.{Inside, in_order};

use k_num::{Place, Seq};
use k_types_meaning::{TDeclarator, TFirst, TStmt};

/// Where declarators stand: at the first, or at this place where there is none.
fn list_place(list: &Seq<TDeclarator>, place: Place) -> Place
    ensures { (w : Inside) → result ≡ (declares_all w place list.now).place }
{
    match list.as_slice().split_first() {
        Some((d, _)) => d.place,
        None => place,
    }
}

/// Where the first part of a `for` stands, at this place.
fn start_place(first: &TFirst, place: Place) -> Place
    ensures { (w : Inside) → result ≡ (starts_with w place first.now).place }
{
    match first {
        TFirst::Nothing | TFirst::Value(_) => place,
        TFirst::Declare(list) => list_place(list, place),
    }
}

/// Where the statements of a block stand: where the first does, or at this place where there is none.
#[cycle(places)]
fn block_place(parts: &Seq<TStmt>, place: Place) -> Place
    ensures { (w : Inside) → result ≡ (in_order w.program place (map (lowered w) parts.now)).place }
{
    match parts.as_slice().split_first() {
        Some((first, _)) => place_of(first),
        None => place,
    }
}

/// Where a statement stands, by what it is.
#[cycle(places)]
fn place_in(stmt: &TStmt) -> Place
    ensures { (w : Inside) → result ≡ place_by w (out-TStmt stmt.now) }
{
    match stmt {
        TStmt::Block { spot, parts } => block_place(parts, spot.place),
        TStmt::For { spot, first, .. } => start_place(first, spot.place),
        TStmt::Declare { spot, list } => list_place(list, spot.place),
        TStmt::Expr { spot, .. }
        | TStmt::Empty { spot }
        | TStmt::If { spot, .. }
        | TStmt::While { spot, .. }
        | TStmt::DoWhile { spot, .. }
        | TStmt::Switch { spot, .. }
        | TStmt::Break { spot }
        | TStmt::Continue { spot }
        | TStmt::Return { spot, .. } => spot.place,
    }
}

/// Where a statement stands once it is lowered.
#[cycle(places)]
pub fn place_of(stmt: &TStmt) -> Place
    ensures { (w : Inside) → result ≡ (lowered w stmt.now).place }
{
    place_in(stmt)
}

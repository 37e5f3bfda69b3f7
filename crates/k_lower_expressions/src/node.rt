//! What the text of an expression tells: its type, and its bytes where it is a string.
ghost use Rattle.std.specs.Prelude.{◌≡◌, List, IfOk};
ghost use Rattle.k_types_meaning.specs.declared.tree.unit.TVariable.{TVariable};
ghost use Rattle.k_evaluation.specs.States.{Program};
ghost use Rattle.k_lower_code.specs.Expressions.{lowered};

use k_num::{Box, NoMemory, Seq};
use k_types_meaning::{TExpr, TType, node_of};
use std::alloc::Global;

/// The type of the value of an expression.
pub fn type_of(e: &Box<TExpr>) -> TType
    ensures { (program : Program) (vs : List TVariable) → result ≡ (lowered program vs e.now).node.of }
{
    node_of(e.get()).of
}

/// The bytes of an expression that is a string; another one has none.
#[tactic(auto, unfolding(k_lower_code::specs::Places::number, k_lower_code::specs::Places::string, k_lower_code::specs::Places::object, k_lower_code::specs::Places::variable, k_lower_code::specs::Places::index, k_lower_code::specs::Places::deref, k_lower_code::specs::Places::address, k_lower_code::specs::Places::forward, k_lower_code::specs::Places::back, k_lower_code::specs::Places::onto, k_lower_code::specs::Operators::plus, k_lower_code::specs::Operators::unary, k_lower_code::specs::Operators::convert, k_lower_code::specs::Operators::cast, k_lower_code::specs::Operators::binary, k_lower_code::specs::Operators::compare, k_lower_code::specs::Operators::distance, k_lower_code::specs::Operators::both, k_lower_code::specs::Operators::either, k_lower_code::specs::Operators::cond, k_lower_code::specs::Operators::comma, k_lower_code::specs::Assignments::assign, k_lower_code::specs::Assignments::assign_by, k_lower_code::specs::Assignments::pre, k_lower_code::specs::Assignments::post, k_lower_code::specs::Library::getchar, k_lower_code::specs::Library::putchar, k_lower_code::specs::Library::puts, k_lower_code::specs::Library::printf, k_lower_code::specs::Library::call))]
pub fn text_of(alloc: Global, e: &TExpr) -> Result<Seq<u8>, NoMemory>
    ensures { IfOk result (λ text. (program : Program) (vs : List TVariable) → text ≡ (lowered program vs e.now).text) }
{
    match e {
        TExpr::Str { bytes, .. } => Seq::copy_of(alloc, bytes.as_slice()),
        TExpr::Number { .. }
        | TExpr::Object { .. }
        | TExpr::Variable { .. }
        | TExpr::Index { .. }
        | TExpr::Call { .. }
        | TExpr::Getchar { .. }
        | TExpr::Putchar { .. }
        | TExpr::Puts { .. }
        | TExpr::Printf { .. }
        | TExpr::Post { .. }
        | TExpr::Pre { .. }
        | TExpr::Address { .. }
        | TExpr::Deref { .. }
        | TExpr::Plus { .. }
        | TExpr::Unary { .. }
        | TExpr::Convert { .. }
        | TExpr::Cast { .. }
        | TExpr::Binary { .. }
        | TExpr::Both { .. }
        | TExpr::Either { .. }
        | TExpr::Forward { .. }
        | TExpr::Onto { .. }
        | TExpr::Back { .. }
        | TExpr::PtrCompare { .. }
        | TExpr::PtrDistance { .. }
        | TExpr::Cond { .. }
        | TExpr::Assign { .. }
        | TExpr::AssignBy { .. }
        | TExpr::Comma { .. } => Ok(Seq::new(alloc)),
    }
}

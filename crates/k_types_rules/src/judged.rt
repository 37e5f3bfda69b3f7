//! What judging an expression gives, and how it is refused.
ghost use Rattle.std.specs.Prelude.{◌≡◌};
ghost use Rattle.k_types_meaning.specs.declared.fault.TypeFault.TheVariants as fault;

use crate::view::TypeView;
use k_num::{Box, Place};
use k_types_meaning::{TExpr, TypeFault};

/// A judged expression: its tree, whose nodes have no numbers yet; its type; and, where it is a place of a
/// number or a pointer variable, whether that is const.
#[derive(Drop)]
pub struct TypedExpr<'a> {
    pub tree: Box<TExpr>,
    pub of: TypeView<'a>,
    pub place: Option<bool>,
}

/// The operand is of a wrong kind.
pub(crate) fn wrong<'a>(place: Place, of: TypedExpr<'_>) -> Result<TypedExpr<'a>, TypeFault>
    ensures { result ≡ Err (fault.Kinds place) }
{
    drop(of);
    Err(TypeFault::Kinds(place))
}

/// One of two operands is of a wrong kind.
pub(crate) fn wrong_pair<'a>(
    place: Place,
    left: TypedExpr<'_>,
    right: TypedExpr<'_>,
) -> Result<TypedExpr<'a>, TypeFault>
    ensures { result ≡ Err (fault.Kinds place) }
{
    drop(left);
    drop(right);
    Err(TypeFault::Kinds(place))
}

/// One of three operands is of a wrong kind.
pub(crate) fn wrong_three<'a>(
    place: Place,
    test: TypedExpr<'_>,
    first: TypedExpr<'_>,
    second: TypedExpr<'_>,
) -> Result<TypedExpr<'a>, TypeFault>
    ensures { result ≡ Err (fault.Kinds place) }
{
    drop(test);
    drop(first);
    drop(second);
    Err(TypeFault::Kinds(place))
}

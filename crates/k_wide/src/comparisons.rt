//! Comparisons with a scalar, by which a choice keeps the least or the greatest.
ghost use Rattle.std.specs.Prelude.{◌≡◌, option_map};
ghost use Rattle.std.specs.Option.{option_copied};
ghost use Rattle.k_types_meaning.specs.declared.tree.expression.TExpr.{out-TExpr};
ghost use Rattle.k_wide.specs.Lent.{compared_as};
ghost use Rattle.k_wide_meaning.specs.Reductions.{kept_by, turned, other, before_conversion, value_beside, compared_with, either_compared, compared};

use crate::actions::again;
use k_num::Bin;
use k_types_meaning::TExpr;
use k_wide_meaning::{ScalarRead, WideGroup};

/// A comparison with a scalar: the scalar as it is read there, the value that it is compared with, and which of the two
/// is kept where the value is taken.
#[derive(Clone, Copy)]
pub(crate) struct Comparison<'a> {
    pub(crate) read: ScalarRead,
    pub(crate) value: &'a TExpr,
    pub(crate) kept: WideGroup,
}

/// Which of two is kept by `value op scalar`, where the value is taken.
fn kept_by(op: Bin) -> Option<WideGroup>
    ensures { result ≡ kept_by op }
{
    match op {
        Bin::Lt | Bin::Le => Some(WideGroup::Least),
        Bin::Gt | Bin::Ge => Some(WideGroup::Greatest),
        _ => None,
    }
}

/// The operator with its operands exchanged.
fn turned(op: Bin) -> Bin
    ensures { result ≡ turned op }
{
    match op {
        Bin::Lt => Bin::Gt,
        Bin::Le => Bin::Ge,
        Bin::Gt => Bin::Lt,
        Bin::Ge => Bin::Le,
        _ => op,
    }
}

/// The other choice.
pub(crate) fn other(kept: WideGroup) -> WideGroup
    ensures { result ≡ other kept }
{
    match kept {
        WideGroup::Least => WideGroup::Greatest,
        WideGroup::Greatest => WideGroup::Least,
        WideGroup::By(group) => WideGroup::By(group),
    }
}

/// What is converted, and a number as it is.
fn before_conversion(value: &TExpr) -> Option<&TExpr>
    ensures { option_copied result ≡ before_conversion value.now (out-TExpr value.now) }
{
    match value {
        TExpr::Convert { of, .. } => Some(of.get()),
        TExpr::Number { .. } => Some(value),
        _ => None,
    }
}

/// The value that stands beside a scalar: before its conversion, where the scalar is converted.
pub(crate) fn value_beside<'a>(value: &'a TExpr, side: &TExpr) -> Option<&'a TExpr>
    ensures { option_copied result ≡ value_beside value.now (out-TExpr side.now) }
{
    match side {
        TExpr::Convert { .. } => before_conversion(value),
        _ => Some(value),
    }
}

/// The comparison `value op side`, where the side is this scalar.
fn compared_with<'a>(
    read: Option<ScalarRead>,
    op: Bin,
    value: &'a TExpr,
    side: &TExpr,
) -> Option<Comparison<'a>>
    ensures { option_map compared_as result ≡ compared_with read op value.now side.now }
{
    match again(read, side) {
        None => None,
        Some(read) => match value_beside(value, side) {
            None => None,
            Some(value) => match kept_by(op) {
                None => None,
                Some(kept) => Some(Comparison { read, value, kept }),
            },
        },
    }
}

/// The first of two comparisons that there is.
fn either_compared<'a>(
    first: Option<Comparison<'a>>,
    second: Option<Comparison<'a>>,
) -> Option<Comparison<'a>>
    ensures { option_map compared_as result ≡ either_compared (option_map compared_as first.entry) (option_map compared_as second.entry) }
{
    match first {
        None => second,
        Some(found) => Some(found),
    }
}

/// The comparison with this scalar that a test is, if it is one.
pub(crate) fn compared(read: Option<ScalarRead>, test: &TExpr) -> Option<Comparison<'_>>
    ensures { option_map compared_as result ≡ compared read test.now }
{
    match test {
        TExpr::Binary {
            op,
            left,
            right,
            ..
        } => either_compared(
            compared_with(read, *op, left.get(), right.get()),
            compared_with(read, turned(*op), right.get(), left.get()),
        ),
        _ => None,
    }
}

//! The calls in expressions (C17 6.5.2.2).
ghost use Rattle.std.specs.Prelude.{◌≡◌, ◌++◌, map, OnOk};
ghost use Rattle.k_types_meaning.specs.Called.{all_calls, expr_calls, option_calls};
ghost use Rattle.k_types_calls.specs.Noting.{call_calls, seen};

use crate::source::Call;
use k_num::{Box, NoMemory, Place, Seq, Text};
use k_tree::Expr;

/// Notes the calls of an expression: a call goes before those in its arguments.
#[cycle(expressions)]
pub(crate) fn note_expr<'a>(expr: &'a Expr, calls: &mut Vec<Call<'a>>) -> Result<(), NoMemory>
    ensures { OnOk result (map seen calls.new.items ≡ map seen calls.old.items ++ expr_calls expr.now) }
{
    match expr {
        Expr::Name { .. }
        | Expr::Number { .. }
        | Expr::Char { .. }
        | Expr::Str { .. }
        | Expr::SizeofType { .. } => Ok(()),
        Expr::Paren { of, .. }
        | Expr::Post { of, .. }
        | Expr::Pre { of, .. }
        | Expr::Unary { of, .. }
        | Expr::SizeofExpr { of, .. }
        | Expr::Cast { of, .. } => note_expr(of.get(), calls),
        Expr::Index {
            base: left,
            index: right,
            ..
        }
        | Expr::Binary { left, right, .. }
        | Expr::Assign { left, right, .. }
        | Expr::Comma { left, right, .. } => {
            note_expr(left.get(), calls)?;
            note_expr(right.get(), calls)
        }
        Expr::Cond {
            test,
            then,
            other,
            ..
        } => {
            note_expr(test.get(), calls)?;
            note_expr(then.get(), calls)?;
            note_expr(other.get(), calls)
        }
        Expr::Call { place, name, args } => note_call(*place, name, args, calls),
    }
}

/// Notes a call, and then those in its arguments.
#[cycle(expressions)]
fn note_call<'a>(
    place: Place,
    name: &'a Text,
    args: &'a Seq<Expr>,
    calls: &mut Vec<Call<'a>>,
) -> Result<(), NoMemory>
    ensures { OnOk result (map seen calls.new.items ≡ map seen calls.old.items ++ call_calls place name.now args.now) }
{
    calls.push(Call { name, place })?;
    note_args(args, calls)
}

/// Notes the calls in the arguments of a call.
#[cycle(expressions)]
fn note_args<'a>(args: &'a Seq<Expr>, calls: &mut Vec<Call<'a>>) -> Result<(), NoMemory>
    ensures { OnOk result (map seen calls.new.items ≡ map seen calls.old.items ++ all_calls (map expr_calls args.now)) }
{
    for arg in args.as_slice() {
        note_expr(arg, calls)?;
    }
    Ok(())
}

/// Notes the calls of an expression that may be left out.
pub(crate) fn note_option<'a>(
    expr: &'a Option<Expr>,
    calls: &mut Vec<Call<'a>>,
) -> Result<(), NoMemory>
    ensures { OnOk result (map seen calls.new.items ≡ map seen calls.old.items ++ option_calls expr.now) }
{
    match expr {
        None => Ok(()),
        Some(expr) => note_expr(expr, calls),
    }
}

/// Notes the calls of an expression in a box that may be left out.
pub(crate) fn note_boxed<'a>(
    expr: &'a Option<Box<Expr>>,
    calls: &mut Vec<Call<'a>>,
) -> Result<(), NoMemory>
    ensures { OnOk result (map seen calls.new.items ≡ map seen calls.old.items ++ option_calls expr.now) }
{
    match expr {
        None => Ok(()),
        Some(expr) => note_expr(expr.get(), calls),
    }
}

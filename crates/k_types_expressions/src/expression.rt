//! The judge of expressions: an operand is judged before the expression that it stands in (C17 6.5).
ghost use Rattle.std.specs.Prelude.{◌≡◌, true, map, IfOk, IfErr};
ghost use Rattle.k_types_meaning.specs.Expressions as spec;
ghost use Rattle.k_types_meaning.specs.Made.{all_made};
ghost use Rattle.k_types_expressions.specs.Arguments.{GivesAll};
ghost use Rattle.k_types_expressions.specs.Forms.{has_operator, has_infix};
ghost use Rattle.k_types_expressions.specs.Results.{Gives};
ghost use Rattle.k_types_rules.specs.Views.{Refuses};

use crate::arguments::add;
use crate::call::call_rule;
use crate::name::name_rule;
use crate::named_type::{cast_rule, sizeof_type_rule};
use k_num::{NoMemory, Seq};
use k_tree::Expr;
use k_types_meaning::TypeFault;
use k_types_names::Scopes;
use k_types_rules::{
    TypedExpr, assign_rule, binary_rule, char_rule, comma_rule, cond_rule, index_rule, number_rule,
    post_rule, pre_rule, sizeof_rule, string_rule, unary_rule,
};
use std::alloc::Global;
use std::collections::VecDeque;

/// An expression where these names are known: its tree and its type, or its first fault. The variables to which
/// `&` is applied in it are put behind those in `taken`.
#[cycle(expressions)]
pub fn judge<'a>(
    alloc: Global,
    names: &'a Scopes,
    expr: &Expr,
    taken: &mut Seq<u32>,
) -> Result<TypedExpr<'a>, TypeFault>
    ensures { Gives result taken.old taken.new (spec.judge names.now expr.now) }
{
    match expr {
        Expr::Name { place, name } => name_rule(alloc, names, *place, name),
        Expr::Number { place, kind, value } => number_rule(alloc, *place, *kind, *value),
        Expr::Char { place, value } => char_rule(alloc, *place, *value),
        Expr::Str { place, bytes } => string_rule(alloc, *place, bytes),
        Expr::SizeofType {
            place,
            specs,
            stars,
        } => sizeof_type_rule(alloc, *place, specs, stars),
        Expr::Paren { of, .. } => judge(alloc, names, of.get(), taken),
        Expr::Call { place, name, args } => {
            let args = judge_all(alloc, names, args, taken)?;
            call_rule(alloc, names, *place, name, args)
        }
        _ => judge_operator(alloc, names, expr, taken),
    }
}

/// The same where an operator on operands stands outermost: those that stand behind or before their operand are judged here.
#[cycle(expressions)]
fn judge_operator<'a>(
    alloc: Global,
    names: &'a Scopes,
    expr: &Expr,
    taken: &mut Seq<u32>,
) -> Result<TypedExpr<'a>, TypeFault>
    requires { has_operator expr.now ≡ true }
    ensures { Gives result taken.old taken.new (spec.judge names.now expr.now) }
{
    match expr {
        Expr::Index { place, base, index } => {
            let base = judge(alloc, names, base.get(), taken)?;
            let index = judge(alloc, names, index.get(), taken)?;
            index_rule(alloc, *place, base, index)
        }
        Expr::Post { place, op, of } => {
            let of = judge(alloc, names, of.get(), taken)?;
            post_rule(alloc, *place, *op, of)
        }
        Expr::Pre { place, op, of } => {
            let of = judge(alloc, names, of.get(), taken)?;
            pre_rule(alloc, *place, *op, of)
        }
        Expr::Unary { place, op, of } => {
            let of = judge(alloc, names, of.get(), taken)?;
            unary_rule(alloc, *place, *op, of, taken)
        }
        Expr::SizeofExpr { place, of } => {
            let of = judge(alloc, names, of.get(), taken)?;
            sizeof_rule(alloc, *place, of)
        }
        Expr::Cast {
            place,
            specs,
            stars,
            of,
        } => {
            let of = judge(alloc, names, of.get(), taken)?;
            cast_rule(alloc, *place, specs, stars, of)
        }
        _ => judge_infix(alloc, names, expr, taken),
    }
}

/// The same where an operator stands between operands.
#[cycle(expressions)]
fn judge_infix<'a>(
    alloc: Global,
    names: &'a Scopes,
    expr: &Expr,
    taken: &mut Seq<u32>,
) -> Result<TypedExpr<'a>, TypeFault>
    requires { has_infix expr.now ≡ true }
    ensures { Gives result taken.old taken.new (spec.judge names.now expr.now) }
{
    match expr {
        Expr::Binary {
            place,
            op,
            left,
            right,
        } => {
            let left = judge(alloc, names, left.get(), taken)?;
            let right = judge(alloc, names, right.get(), taken)?;
            binary_rule(alloc, *place, *op, left, right)
        }
        Expr::Cond {
            place,
            test,
            then: first,
            other: second,
        } => {
            let test = judge(alloc, names, test.get(), taken)?;
            let first = judge(alloc, names, first.get(), taken)?;
            let second = judge(alloc, names, second.get(), taken)?;
            cond_rule(alloc, *place, test, first, second)
        }
        Expr::Assign {
            place,
            op,
            left,
            right,
        } => {
            let left = judge(alloc, names, left.get(), taken)?;
            let right = judge(alloc, names, right.get(), taken)?;
            assign_rule(alloc, *place, *op, left, right)
        }
        Expr::Comma { place, left, right } => {
            let left = judge(alloc, names, left.get(), taken)?;
            let right = judge(alloc, names, right.get(), taken)?;
            comma_rule(alloc, *place, left, right)
        }
        _ => unreachable!(),
    }
}

/// The arguments of a call, from left to right.
#[cycle(expressions)]
fn judge_all<'a>(
    alloc: Global,
    names: &'a Scopes,
    exprs: &Seq<Expr>,
    taken: &mut Seq<u32>,
) -> Result<VecDeque<TypedExpr<'a>>, TypeFault>
    ensures ok { IfOk result (λ all. GivesAll all.items taken.old taken.new (all_made (map (spec.judge names.now) exprs.now))) }
    ensures err { IfErr result (λ f. Refuses f (all_made (map (spec.judge names.now) exprs.now))) }
{
    let mut all = VecDeque::new(alloc);
    for expr in exprs.as_slice() {
        let judged = judge(alloc, names, expr, taken)?;
        if let Err(NoMemory) = add(&mut all, judged) {
            return Err(TypeFault::Memory);
        }
    }
    Ok(all)
}

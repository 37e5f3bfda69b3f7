//! Node counts of expressions.
ghost use Rattle.std.specs.Prelude.{◌≡◌, ◌+◌, ◌^◌, ◌<◌, map, sum};
ghost use Rattle.k_tree.specs.Count.{expr_count, option_count};

use k_num::{Box, Seq};
use k_tree::Expr;

/// An expression and the expressions in it.
#[cycle(expressions)]
pub fn expr_nodes(expr: &Expr) -> u64
    requires { expr_count expr.now < 2 ^ 64 }
    ensures { result ≡ expr_count expr.now }
{
    match expr {
        Expr::Name { .. }
        | Expr::Number { .. }
        | Expr::Char { .. }
        | Expr::Str { .. }
        | Expr::SizeofType { .. } => 1,
        Expr::Paren { of, .. }
        | Expr::Post { of, .. }
        | Expr::Pre { of, .. }
        | Expr::Unary { of, .. }
        | Expr::SizeofExpr { of, .. }
        | Expr::Cast { of, .. } => 1 + expr_nodes(of.get()),
        Expr::Index { base, index, .. } => 1 + expr_nodes(base.get()) + expr_nodes(index.get()),
        Expr::Call { args, .. } => 1 + args_nodes(args),
        Expr::Binary { left, right, .. }
        | Expr::Assign { left, right, .. }
        | Expr::Comma { left, right, .. } => 1 + expr_nodes(left.get()) + expr_nodes(right.get()),
        Expr::Cond {
            test,
            then,
            other,
            ..
        } => 1 + expr_nodes(test.get()) + expr_nodes(then.get()) + expr_nodes(other.get()),
    }
}

/// The arguments of a call.
#[cycle(expressions)]
fn args_nodes(args: &Seq<Expr>) -> u64
    requires { sum (map expr_count args.now) < 2 ^ 64 }
    ensures { result ≡ sum (map expr_count args.now) }
{
    let mut nodes = 0;
    for arg in args.as_slice() {
        nodes += expr_nodes(arg);
    }
    nodes
}

/// An expression, if there is one.
pub fn option_nodes(expr: &Option<Box<Expr>>) -> u64
    requires { option_count expr.now < 2 ^ 64 }
    ensures { result ≡ option_count expr.now }
{
    match expr {
        None => 0,
        Some(expr) => expr_nodes(expr.get()),
    }
}

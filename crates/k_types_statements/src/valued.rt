//! Expressions in statements (C17 6.8p4): their trees, and whether they are numbers.
ghost use Rattle.std.specs.Prelude.{◌≡◌};
ghost use Rattle.k_types_meaning.specs.Statements as spec;
ghost use Rattle.k_types_declarations.specs.Results.{seen};
ghost use Rattle.k_types_statements.specs.Results.{judged_at, valued_of, valued_option, tree_option, RunsAs};

use k_num::{Box, Kind};
use k_tree::Expr;
use k_types_declarations::Known;
use k_types_expressions::judge;
use k_types_meaning::{TExpr, TypeFault};
use k_types_rules::kind_of;
use std::alloc::Global;

/// A judged expression: its tree, and its kind where it is a number.
#[derive(Drop)]
pub(crate) struct Valued {
    pub(crate) tree: Box<TExpr>,
    pub(crate) kind: Option<Kind>,
}

/// Judges an expression.
pub(crate) fn judge_value(
    alloc: Global,
    known: &mut Known,
    expr: &Expr,
) -> Result<Valued, TypeFault>
    ensures { RunsAs valued_of result (seen known.old) (seen known.new) (judged_at (seen known.old) expr.now) }
{
    let judged = judge(alloc, &known.names, expr, &mut known.taken)?;
    let kind = kind_of(judged.of);
    Ok(Valued {
        tree: judged.tree,
        kind,
    })
}

/// Judges an expression that may be left out.
pub(crate) fn judge_option(
    alloc: Global,
    known: &mut Known,
    expr: &Option<Box<Expr>>,
) -> Result<Option<Valued>, TypeFault>
    ensures { RunsAs valued_option result (seen known.old) (seen known.new) (spec.option_judged (seen known.old) expr.now) }
{
    match expr {
        None => Ok(None),
        Some(expr) => {
            let found = judge_value(alloc, known, expr.get())?;
            Ok(Some(found))
        }
    }
}

/// The tree of an expression that may be left out.
pub(crate) fn tree_option(expr: Option<Valued>) -> Option<Box<TExpr>>
    ensures { result ≡ tree_option expr }
{
    match expr {
        None => None,
        Some(expr) => Some(expr.tree),
    }
}

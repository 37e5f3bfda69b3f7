//! An operand put into the construct that awaits it.
ghost use Rattle.std.specs.Prelude.{◌≡◌, IfOk, cond};
ghost use Rattle.k_parse_steps.specs.Expressions as spec;
ghost use Rattle.k_parse_steps.specs.Operators.{is_step_mark};
ghost use Rattle.k_parse_steps.specs.Level.{above as above_of};
ghost use Rattle.k_tree.specs.declared.tree.expression.Expr.TheVariants as expr;

use k_num::{Box, NoMemory, Place, Seq};
use k_parse_steps::expression::plug::Plugged;
use k_parse_steps::expression::{Open, Term};
use k_parse_steps::level::above;
use k_parse_steps::operators::{is_step, own_rank};
use k_tree::{Expr, Mark, Word};
use std::alloc::Global;

#[tactic(auto, unfolding(k_parse_steps::specs::Expressions::infix_made))]
fn infix(alloc: Global, place: Place, op: Mark, left: Term, right: Term) -> Result<Term, NoMemory>
    ensures { IfOk result (λ term. term ≡ spec.infix_made place op left right) }
{
    let height = above(left.height, right.height)?;
    let rank = own_rank(op);
    let tree = infix_tree(rank, place, op, left.tree, right.tree);
    Ok(Term {
        tree: Box::new(alloc, tree)?,
        rank,
        height,
    })
}

/// The tree of an operator of this rank between its operands.
fn infix_tree(rank: u8, place: Place, op: Mark, left: Box<Expr>, right: Box<Expr>) -> Expr
    ensures { result ≡ spec.infix_tree rank place op left right }
{
    match rank {
        0 => Expr::Comma { place, left, right },
        1 => Expr::Assign {
            place,
            op,
            left,
            right,
        },
        _ => Expr::Binary {
            place,
            op,
            left,
            right,
        },
    }
}

fn conditional(
    alloc: Global,
    place: Place,
    test: Term,
    then: Term,
    other: Term,
) -> Result<Term, NoMemory>
    ensures { IfOk result (λ term. term ≡ spec.conditional place test «then» other) }
{
    let height = above(test.height, then.height.max(other.height))?;
    let tree = Expr::Cond {
        place,
        test: test.tree,
        then: then.tree,
        other: other.tree,
    };
    Ok(Term {
        tree: Box::new(alloc, tree)?,
        rank: 2,
        height,
    })
}

/// The tree of an operator before its operand.
fn prefix_tree(place: Place, op: Mark, of: Box<Expr>) -> Expr
    ensures { result ≡ cond (is_step_mark op) (expr.Pre place op of) (expr.Unary place op of) }
{
    if is_step(op) {
        Expr::Pre { place, op, of }
    } else {
        Expr::Unary { place, op, of }
    }
}

#[tactic(auto, unfolding(k_parse_steps::specs::Expressions::prefixed))]
fn prefixed(alloc: Global, place: Place, op: Mark, term: Term) -> Result<Term, NoMemory>
    ensures { IfOk result (λ made. made ≡ spec.prefixed place op term) }
{
    let height = above(term.height, 0)?;
    Ok(Term {
        tree: Box::new(alloc, prefix_tree(place, op, term.tree))?,
        rank: 14,
        height,
    })
}

fn cast(
    alloc: Global,
    place: Place,
    specs: Seq<Word>,
    stars: Seq<bool>,
    term: Term,
) -> Result<Term, NoMemory>
    ensures { IfOk result (λ made. made ≡ spec.term (expr.Cast place specs stars term.tree) 13 (above_of term.height 0)) }
{
    let height = above(term.height, 0)?;
    let tree = Expr::Cast {
        place,
        specs,
        stars,
        of: term.tree,
    };
    Ok(Term {
        tree: Box::new(alloc, tree)?,
        rank: 13,
        height,
    })
}

fn sizeof(alloc: Global, place: Place, term: Term) -> Result<Term, NoMemory>
    ensures { IfOk result (λ made. made ≡ spec.term (expr.SizeofExpr place term.tree) 14 (above_of term.height 0)) }
{
    let height = above(term.height, 0)?;
    let of = term.tree;
    Ok(Term {
        tree: Box::new(alloc, Expr::SizeofExpr { place, of })?,
        rank: 14,
        height,
    })
}

/// Puts an operand that ends into the construct around it.
#[tactic(auto, unfolding(k_parse_steps::specs::Expressions::plug))]
pub fn plug(alloc: Global, around: Open, term: Term) -> Result<Plugged, NoMemory>
    ensures { IfOk result (λ made. made ≡ spec.plug around term) }
{
    match around {
        Open::Infix { place, op, left } => {
            let term = infix(alloc, place, op, left, term)?;
            Ok(Plugged::Whole { term })
        }
        Open::Other { place, test, then } => {
            let term = conditional(alloc, place, test, then, term)?;
            Ok(Plugged::Whole { term })
        }
        Open::Cast {
            place,
            specs,
            stars,
        } => {
            let term = cast(alloc, place, specs, stars, term)?;
            Ok(Plugged::Whole { term })
        }
        Open::Prefix { place, op } => {
            let term = prefixed(alloc, place, op, term)?;
            Ok(Plugged::Whole { term })
        }
        Open::Sizeof { place } => {
            let term = sizeof(alloc, place, term)?;
            Ok(Plugged::Whole { term })
        }
        around => Ok(Plugged::Part { around, term }),
    }
}

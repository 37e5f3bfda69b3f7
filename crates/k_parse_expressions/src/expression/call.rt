//! The arguments of a call (C17 6.5.2.2).
ghost use Rattle.std.specs.Prelude.{◌≡◌, IfOk};
ghost use Rattle.k_parse_steps.specs.Expressions as spec;

use crate::expression::goes;
use k_num::{Box, NoMemory, Stack};
use k_parse_steps::expression::call::Called;
use k_parse_steps::expression::{ExpressionStage, Fed, Open, Site, Term};
use k_parse_steps::level::plus;
use k_parse_steps::turn::Turn;
use k_tree::{Expr, Mark};
use std::alloc::Global;

/// The mark behind an argument.
#[tactic(auto, unfolding(k_parse_steps::specs::Expressions::argued))]
pub fn argued(
    alloc: Global,
    site: Site,
    mut opens: Stack<Open>,
    called: Called,
    mark: Mark,
) -> Result<Fed, NoMemory>
    ensures { IfOk result (λ fed. fed ≡ spec.argued site opens called mark) }
{
    let Called {
        place,
        name,
        args,
        height,
    } = called;
    match mark {
        Mark::Comma => {
            opens.push(Open::Call {
                place,
                name,
                args,
                height,
            })?;
            Ok(goes(site, opens, ExpressionStage::Operand, 0))
        }
        Mark::RightParen => {
            let height = plus(height, 1)?;
            let term = Term {
                tree: Box::new(alloc, Expr::Call { place, name, args })?,
                rank: 15,
                height,
            };
            Ok(goes(site, opens, ExpressionStage::Value { term }, 0))
        }
        _ => Ok(Turn::Refused),
    }
}

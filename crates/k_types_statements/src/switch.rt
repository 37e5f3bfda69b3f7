//! What a switch and its labels come to (C17 6.8.4.2).
ghost use Rattle.std.specs.Prelude.{◌≡◌, IfOk};
ghost use Rattle.k_types_meaning.specs.Made.{Finds};
ghost use Rattle.k_types_meaning.specs.Statements as spec;
ghost use Rattle.k_types_declarations.specs.Results.{seen};
ghost use Rattle.k_types_statements.specs.Labels.{case_value, without_type, Holds, PartRuns, Adds};

use crate::rules::spot;
use crate::valued::{Valued, judge_value};
use k_num::{Box, Kind, NoMemory, Place, Seq, convert, promote};
use k_tree::Expr;
use k_types_declarations::Known;
use k_types_meaning::{TExpr, TPart, TStmt, TypeFault};
use k_types_objects::constant;
use k_types_rules::in_kind;
use std::alloc::Global;
use std::collections::BTreeSet;

/// The labels of a switch so far: the values of its cases, and whether it had a default.
#[derive(Drop)]
pub(crate) struct Labels {
    cases: BTreeSet<i128>,
    defaulted: bool,
}

/// No label yet.
pub(crate) fn no_labels(alloc: Global) -> Labels
    ensures { Holds result spec.no_labels }
{
    Labels {
        cases: BTreeSet::new(alloc),
        defaulted: false,
    }
}

/// Puts the value of a case among the labels, and says whether it was not there yet.
fn add_case(labels: &mut Labels, value: i128) -> Result<bool, NoMemory>
    ensures { Adds result labels.old labels.new value }
{
    match labels.cases.insert(value) {
        Ok(added) => Ok(added),
        Err(refused) => {
            drop(refused);
            Err(NoMemory)
        }
    }
}

/// The value of an expression that is an integer constant expression (C17 6.6p6), converted to a kind.
fn case_value(value: Box<TExpr>, kind: Kind) -> Result<Option<i128>, NoMemory>
    ensures { IfOk result (λ value_found. value_found ≡ case_value kind value) }
{
    match constant(value.get())? {
        None => Ok(None),
        Some(z) => Ok(Some(convert(kind, z))),
    }
}

/// A `case`: its expression is an integer constant expression, whose value in the kind of the switch differs
/// from those of the cases before it (C17 6.8.4.2p3).
#[tactic(auto, unfolding(k_types_meaning::specs::Statements::case_rule))]
pub(crate) fn case_rule(
    alloc: Global,
    known: &mut Known,
    place: Place,
    kind: Kind,
    labels: &mut Labels,
    value: &Expr,
) -> Result<TPart, TypeFault>
    ensures { (around : spec.Around) (older : spec.Labels) → Holds labels.old older → PartRuns result (seen known.old) (seen known.new) labels.new (spec.case_rule place value.now around kind older (seen known.old)) }
{
    let value = judge_value(alloc, known, value)?;
    let Some(value) = case_value(value.tree, kind)? else {
        return Err(TypeFault::Kinds(place));
    };
    if !add_case(labels, value)? {
        return Err(TypeFault::CaseAgain(place));
    }
    Ok(TPart::Case { place, value })
}

/// A `default`: there is no other before it (C17 6.8.4.2p3).
#[tactic(auto, unfolding(k_types_meaning::specs::Statements::default_rule))]
pub(crate) fn default_rule(place: Place, labels: &mut Labels) -> Result<TPart, TypeFault>
    ensures { (around : spec.Around) (kind : Kind) (older : spec.Labels) (known : spec.Known) → Holds labels.old older → PartRuns result known known labels.new (spec.default_rule place around kind older known) }
{
    if labels.defaulted {
        return Err(TypeFault::CaseAgain(place));
    }
    labels.defaulted = true;
    Ok(TPart::Default { place })
}

/// The promoted kind, or int.
pub(crate) fn promoted_or_int(kind: Option<Kind>) -> Kind
    ensures { result ≡ spec.promoted_or_int kind }
{
    match kind {
        None => Kind::I32,
        Some(kind) => promote(kind),
    }
}

/// A switch of which this is judged: it is on a number, which is promoted (C17 6.8.4.2p1, p5).
pub(crate) fn switched(
    alloc: Global,
    place: Place,
    on: Valued,
    parts: Seq<TPart>,
) -> Result<Box<TStmt>, TypeFault>
    ensures { Finds result (spec.switched place (without_type on.tree) parts on.kind) }
{
    let Some(kind) = on.kind else {
        drop(on);
        drop(parts);
        return Err(TypeFault::Kinds(place));
    };
    let to = promote(kind);
    let on = in_kind(alloc, kind, to, on.tree)?;
    let spot = spot(place);
    let stmt = Box::new(
        alloc,
        TStmt::Switch {
            spot,
            kind: to,
            on,
            parts,
        },
    )?;
    Ok(stmt)
}

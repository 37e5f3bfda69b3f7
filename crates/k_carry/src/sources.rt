//! The operations whose values an operation uses: those of its operands whose dependence is not broken.
ghost use Rattle.std.specs.Prelude.{◌≡◌, ◌++◌, [], ◌∷◌, OnOk, IfOk};
ghost use Rattle.k_code.specs.Named.{operands, returned_operands};
ghost use Rattle.k_hcpa_store.specs.Kept.{configuration_of};
ghost use Rattle.k_carry.specs.Sources.{cited_numbers, one_number, operand_numbers};

use crate::cited::{Cited, Spot};
use k_code::{Arg, Do};
use k_hcpa_store::Store;
use k_num::NoMemory;

/// Cites what an operand reads, if its dependence is not broken.
fn cite_one(
    cited: &mut Vec<Cited>,
    store: &Store<'_>,
    first: u32,
    arg: &Arg,
) -> Result<(), NoMemory>
    ensures { OnOk result (cited_numbers cited.new.items ≡ cited_numbers cited.old.items ++ operand_numbers (configuration_of store.now) (arg.now ∷ [])) }
{
    match arg {
        Arg::Number(_) => Ok(()),
        Arg::Reg(_, true) => Ok(()),
        Arg::Reg(r, false) => {
            let spot = Spot::Register(first as usize + *r as usize);
            cite(cited, store.source(arg), spot)
        }
    }
}

/// Cites a source, if there is one.
pub fn cite(cited: &mut Vec<Cited>, source: Option<u64>, spot: Spot) -> Result<(), NoMemory>
    ensures { OnOk result (cited_numbers cited.new.items ≡ cited_numbers cited.old.items ++ one_number source) }
{
    if let Some(number) = source {
        cited.push(Cited { number, spot })?;
    }
    Ok(())
}

/// Cites what operands read.
fn cite_all(
    cited: &mut Vec<Cited>,
    store: &Store<'_>,
    first: u32,
    args: &[Arg],
) -> Result<(), NoMemory>
    ensures { OnOk result (cited_numbers cited.new.items ≡ cited_numbers cited.old.items ++ operand_numbers (configuration_of store.now) args.now) }
{
    let mut rest = args;
    while let Some((arg, later)) = rest.split_first() {
        cite_one(cited, store, first, arg)?;
        rest = later;
    }
    Ok(())
}

/// Cites what the operand of a return reads, if it has one.
fn cite_returned(
    cited: &mut Vec<Cited>,
    store: &Store<'_>,
    first: u32,
    value: &Option<Arg>,
) -> Result<(), NoMemory>
    ensures { OnOk result (cited_numbers cited.new.items ≡ cited_numbers cited.old.items ++ operand_numbers (configuration_of store.now) (returned_operands value.now)) }
{
    match value {
        Some(a) => cite_all(cited, store, first, &[*a]),
        None => Ok(()),
    }
}

/// Cites what the operands of an instruction read, in a call whose registers are numbered from `first` on.
#[tactic(auto, unfolding(k_code::specs::Named::operands))]
pub fn cite_operands(
    cited: &mut Vec<Cited>,
    store: &Store<'_>,
    first: u32,
    act: &Do,
) -> Result<(), NoMemory>
    ensures { OnOk result (cited_numbers cited.new.items ≡ cited_numbers cited.old.items ++ operand_numbers (configuration_of store.now) (operands act.now)) }
{
    match act {
        Do::Binary { a, b, .. } => cite_all(cited, store, first, &[*a, *b]),
        Do::Unary { a, .. } => cite_all(cited, store, first, &[*a]),
        Do::Convert { a, .. } => cite_all(cited, store, first, &[*a]),
        Do::Move { a, .. } => cite_all(cited, store, first, &[*a]),
        Do::Offset { at, by, .. } => cite_all(cited, store, first, &[*at, *by]),
        Do::PtrCompare { a, b, .. } => cite_all(cited, store, first, &[*a, *b]),
        Do::PtrDistance { a, b, .. } => cite_all(cited, store, first, &[*a, *b]),
        Do::Load { at, .. } => cite_all(cited, store, first, &[*at]),
        Do::Store { at, a, .. } => cite_all(cited, store, first, &[*at, *a]),
        Do::Output { args, .. } => cite_all(cited, store, first, args.as_slice()),
        Do::Test { a, .. } => cite_all(cited, store, first, &[*a]),
        Do::Call { args, .. } => cite_all(cited, store, first, args.as_slice()),
        Do::Return { value } => cite_returned(cited, store, first, value),
        _ => Ok(()),
    }
}

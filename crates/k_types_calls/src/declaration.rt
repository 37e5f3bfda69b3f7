//! The calls in declarations and parameters (C17 6.7).
ghost use Rattle.std.specs.Prelude.{◌≡◌, ◌++◌, map, OnOk};
ghost use Rattle.k_types_meaning.specs.Called.{all_calls, declarator_calls, declarators_calls, dims_calls, init_calls, params_calls, start_calls};
ghost use Rattle.k_types_calls.specs.Noting.{param_calls, seen};

use crate::expression::{note_expr, note_option};
use crate::source::Call;
use k_num::{NoMemory, Seq};
use k_tree::{Declarator, Expr, Init, Param, Params};

/// Notes the calls of declarators.
pub(crate) fn note_declarators<'a>(
    list: &'a Seq<Declarator>,
    calls: &mut Vec<Call<'a>>,
) -> Result<(), NoMemory>
    ensures { OnOk result (map seen calls.new.items ≡ map seen calls.old.items ++ declarators_calls list.now) }
{
    for declarator in list.as_slice() {
        note_declarator(declarator, calls)?;
    }
    Ok(())
}

/// Notes the calls of a declarator: those of its dimensions, then those of its initialiser.
fn note_declarator<'a>(
    declarator: &'a Declarator,
    calls: &mut Vec<Call<'a>>,
) -> Result<(), NoMemory>
    ensures { OnOk result (map seen calls.new.items ≡ map seen calls.old.items ++ declarator_calls declarator.now) }
{
    note_dims(&declarator.dims, calls)?;
    note_start(&declarator.init, calls)
}

/// Notes the calls of dimensions.
fn note_dims<'a>(dims: &'a Seq<Option<Expr>>, calls: &mut Vec<Call<'a>>) -> Result<(), NoMemory>
    ensures { OnOk result (map seen calls.new.items ≡ map seen calls.old.items ++ dims_calls dims.now) }
{
    for dim in dims.as_slice() {
        note_option(dim, calls)?;
    }
    Ok(())
}

/// Notes the calls of an initialiser that may be left out.
fn note_start<'a>(init: &'a Option<Init>, calls: &mut Vec<Call<'a>>) -> Result<(), NoMemory>
    ensures { OnOk result (map seen calls.new.items ≡ map seen calls.old.items ++ start_calls init.now) }
{
    match init {
        None => Ok(()),
        Some(init) => note_init(init, calls),
    }
}

/// Notes the calls of an initialiser.
#[cycle(initialisers)]
fn note_init<'a>(init: &'a Init, calls: &mut Vec<Call<'a>>) -> Result<(), NoMemory>
    ensures { OnOk result (map seen calls.new.items ≡ map seen calls.old.items ++ init_calls init.now) }
{
    match init {
        Init::One { value, .. } => note_expr(value, calls),
        Init::List { items, .. } => note_inits(items, calls),
    }
}

/// Notes the calls of the initialisers in braces.
#[cycle(initialisers)]
fn note_inits<'a>(items: &'a Seq<Init>, calls: &mut Vec<Call<'a>>) -> Result<(), NoMemory>
    ensures { OnOk result (map seen calls.new.items ≡ map seen calls.old.items ++ all_calls (map init_calls items.now)) }
{
    for item in items.as_slice() {
        note_init(item, calls)?;
    }
    Ok(())
}

/// Notes the calls of what stands between the parentheses of a head.
pub(crate) fn note_params<'a>(params: &'a Params, calls: &mut Vec<Call<'a>>) -> Result<(), NoMemory>
    ensures { OnOk result (map seen calls.new.items ≡ map seen calls.old.items ++ params_calls params.now) }
{
    match params {
        Params::Empty | Params::Void => Ok(()),
        Params::List(list) => note_each(list, calls),
    }
}

/// Notes the calls of parameters.
fn note_each<'a>(list: &'a Seq<Param>, calls: &mut Vec<Call<'a>>) -> Result<(), NoMemory>
    ensures { OnOk result (map seen calls.new.items ≡ map seen calls.old.items ++ all_calls (map param_calls list.now)) }
{
    for param in list.as_slice() {
        note_dims(&param.dims, calls)?;
    }
    Ok(())
}

//! Names of declarators and of parameters.
ghost use Rattle.std.specs.Prelude.{◌≡◌, ◌++◌, IfOk, OnOk};
ghost use Rattle.k_pragma_written.specs.Names as spec;

use k_num::{NoMemory, Seq, Text};
use k_tree::{Declarator, First, Param, Params};
use std::alloc::Global;

/// Adds the names of declarators.
pub(crate) fn push_declared(
    alloc: Global,
    list: &Seq<Declarator>,
    names: &mut Seq<Text>,
) -> Result<(), NoMemory>
    ensures { OnOk result (names.new ≡ names.old ++ spec.declared list.now) }
{
    for declarator in list.as_slice() {
        names.push(Text::copy_of(alloc, declarator.name.as_str())?)?;
    }
    Ok(())
}

/// Adds the names that the first part of a `for` declares.
pub(crate) fn push_first(
    alloc: Global,
    first: &First,
    names: &mut Seq<Text>,
) -> Result<(), NoMemory>
    ensures { OnOk result (names.new ≡ names.old ++ spec.first_declared first.now) }
{
    match first {
        First::Nothing | First::Value(_) => Ok(()),
        First::Declare(_, list) => push_declared(alloc, list, names),
    }
}

/// The name of a parameter, which is empty where it has none.
fn param_name(alloc: Global, name: &Option<Text>) -> Result<Text, NoMemory>
    ensures { IfOk result (λ text. text ≡ spec.param_name name.now) }
{
    match name {
        None => Text::copy_of(alloc, ""),
        Some(name) => Text::copy_of(alloc, name.as_str()),
    }
}

/// Adds the names of parameters.
fn push_list(alloc: Global, list: &Seq<Param>, names: &mut Seq<Text>) -> Result<(), NoMemory>
    ensures { OnOk result (names.new ≡ names.old ++ spec.param_names list.now) }
{
    for param in list.as_slice() {
        names.push(param_name(alloc, &param.name)?)?;
    }
    Ok(())
}

/// Adds the names of the parameters of a head.
pub(crate) fn push_params(
    alloc: Global,
    params: &Params,
    names: &mut Seq<Text>,
) -> Result<(), NoMemory>
    ensures { OnOk result (names.new ≡ names.old ++ spec.params_declared params.now) }
{
    match params {
        Params::Empty | Params::Void => Ok(()),
        Params::List(list) => push_list(alloc, list, names),
    }
}

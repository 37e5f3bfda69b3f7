//! Node counts of declarators, parameters and initialisers.
ghost use Rattle.std.specs.Prelude.{◌≡◌, ◌+◌, ◌^◌, ◌<◌, map, sum};
ghost use Rattle.k_tree.specs.Count.{option_count, dims_count, init_count, initialised_count};
ghost use Rattle.k_tree.specs.Count.{declarator_count, declarators_count, param_count, params_count};

use crate::expression::expr_nodes;
use k_num::Seq;
use k_tree::{Declarator, Expr, Init, Param, Params};

/// Declarators, with their dimensions and initialisers.
pub fn declarators_nodes(list: &Seq<Declarator>) -> u64
    requires { declarators_count list.now < 2 ^ 64 }
    ensures { result ≡ declarators_count list.now }
{
    let mut nodes = 0;
    for declarator in list.as_slice() {
        nodes += declarator_nodes(declarator);
    }
    nodes
}

/// A declarator, with its dimensions and its initialiser.
fn declarator_nodes(declarator: &Declarator) -> u64
    requires { declarator_count declarator.now < 2 ^ 64 }
    ensures { result ≡ declarator_count declarator.now }
{
    1 + dims_nodes(&declarator.dims) + initialised_nodes(&declarator.init)
}

/// The initialiser of a declarator, if it has one.
fn initialised_nodes(init: &Option<Init>) -> u64
    requires { initialised_count init.now < 2 ^ 64 }
    ensures { result ≡ initialised_count init.now }
{
    match init {
        None => 0,
        Some(init) => init_nodes(init),
    }
}

/// An initialiser and what is in it.
#[cycle(initialisers)]
fn init_nodes(init: &Init) -> u64
    requires { init_count init.now < 2 ^ 64 }
    ensures { result ≡ init_count init.now }
{
    match init {
        Init::One { value, .. } => 1 + expr_nodes(value),
        Init::List { items, .. } => 1 + inits_nodes(items),
    }
}

/// The initialisers in braces.
#[cycle(initialisers)]
fn inits_nodes(items: &Seq<Init>) -> u64
    requires { sum (map init_count items.now) < 2 ^ 64 }
    ensures { result ≡ sum (map init_count items.now) }
{
    let mut nodes = 0;
    for item in items.as_slice() {
        nodes += init_nodes(item);
    }
    nodes
}

/// The sizes of dimensions.
fn dims_nodes(dims: &Seq<Option<Expr>>) -> u64
    requires { dims_count dims.now < 2 ^ 64 }
    ensures { result ≡ dims_count dims.now }
{
    let mut nodes = 0;
    for size in dims.as_slice() {
        nodes += dim_nodes(size);
    }
    nodes
}

/// The size of a dimension, if it has one.
fn dim_nodes(size: &Option<Expr>) -> u64
    requires { option_count size.now < 2 ^ 64 }
    ensures { result ≡ option_count size.now }
{
    match size {
        None => 0,
        Some(size) => expr_nodes(size),
    }
}

/// The parameters of a head.
pub fn params_nodes(params: &Params) -> u64
    requires { params_count params.now < 2 ^ 64 }
    ensures { result ≡ params_count params.now }
{
    match params {
        Params::Empty | Params::Void => 0,
        Params::List(list) => param_list_nodes(list),
    }
}

/// Parameters, with their dimensions.
fn param_list_nodes(list: &Seq<Param>) -> u64
    requires { sum (map param_count list.now) < 2 ^ 64 }
    ensures { result ≡ sum (map param_count list.now) }
{
    let mut nodes = 0;
    for param in list.as_slice() {
        nodes += 1 + dims_nodes(&param.dims);
    }
    nodes
}

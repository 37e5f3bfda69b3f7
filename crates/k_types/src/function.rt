//! Definitions of functions (C17 6.9.1).
ghost use Rattle.std.specs.Prelude.{◌≡◌, length, IfOk, OnOk};
ghost use Rattle.k_types_statements.specs.Results.{Runs};
ghost use Rattle.k_types_declarations.specs.Results.{seen};
ghost use Rattle.k_tree.specs.Count.{item_count};
ghost use Rattle.k_tree.specs.declared.tree.unit.Item.TheVariants as item;
ghost use Rattle.k_types_meaning.specs.Declarations.{type_or_int};
ghost use Rattle.k_types_meaning.specs.Functions as rules;
ghost use Rattle.k_types_meaning.specs.Statements as statements;
ghost use Rattle.k_types_meaning.specs.Types as types;
ghost use Rattle.k_types.specs.Functions.{GivesFunction, entered_function, variables_named};
ghost use Rattle.k_types.specs.Heads.{IsFile};

use crate::defined::Defined;
use crate::head::{judge_head, name_function, standing_of};
use crate::parameter::{name_variable, params_of};
use crate::signature::result_or_int;
use crate::variables::variables_of;
use k_num::{NoMemory, Place, Seq, Text};
use k_tree::{Head, Param, Stmt};
use k_types_declarations::{Known, Variable};
use k_types_meaning::{Signature, TFunc, TStmt, TType, TypeFault};
use k_types_names::Scopes;
use k_types_rules::{lent, told};
use k_types_statements::{Around, judge_body};
use std::alloc::Global;

/// A definition of a function, lent, with the count of its nodes.
#[derive(Clone, Copy)]
pub(crate) struct Definition<'a> {
    pub place: Place,
    pub head: &'a Head,
    pub body: &'a Seq<Stmt>,
    pub close: Place,
    pub nodes: u32,
}

/// A definition: its parameters are judged, then its block, then its name and type. The name is known behind its
/// head. `again` says whether an earlier item defines it.
pub(crate) fn function(
    alloc: Global,
    defined: &Defined,
    again: bool,
    known: &mut Known,
    definition: &Definition<'_>,
) -> Result<TFunc, TypeFault>
    requires file { IsFile known.old.names }
    requires nodes { definition.now.nodes ≡ item_count (item.Function definition.now.place definition.now.head.now definition.now.body.now definition.now.close) }
    ensures { GivesFunction result known.new.names (rules.function_judged defined.now again known.old.names definition.now.place definition.now.head.now definition.now.body.now definition.now.close) (rules.names_behind_head defined.now known.old.names definition.now.head.now) }
{
    let head = definition.head;
    let signature = judge_head(alloc, true, defined, known, head)?;
    known.names.close();
    let standing = standing_of(alloc, &known.names, again, head, &signature);
    enter(alloc, known, head, signature)?;
    let body = judge_block(alloc, known, head, definition.body)?;
    known.names.close();
    standing.test(alloc, definition.place, head.name.as_str())?;
    let tree = tree_of(alloc, known, definition, body)?;
    Ok(tree)
}

/// Declares the name of a function at file scope, and its parameters again in a scope above it.
fn enter(
    alloc: Global,
    known: &mut Known,
    head: &Head,
    signature: Signature,
) -> Result<(), NoMemory>
    ensures { OnOk result (seen known.new ≡ entered_function (seen known.old) head.now signature) }
{
    name_function(alloc, &mut known.names, head, signature)?;
    known.names.open()?;
    name_variables(
        alloc,
        &mut known.names,
        params_of(&head.params),
        known.variables.as_slice(),
    )?;
    Ok(())
}

/// Declares parameters as variables of these types, from the first on.
fn name_variables(
    alloc: Global,
    names: &mut Scopes,
    params: &[Param],
    variables: &[Variable],
) -> Result<(), NoMemory>
    ensures { OnOk result (names.new ≡ variables_named 0 params.now variables.now names.old) }
{
    let mut number = 0u32;
    let mut rest = variables;
    for param in params {
        let Some((variable, more)) = rest.split_first() else {
            return Ok(());
        };
        name_variable(alloc, names, param, number, &variable.of)?;
        let Some(next) = number.checked_add(1) else {
            return Err(NoMemory);
        };
        number = next;
        rest = more;
    }
    Ok(())
}

/// Judges the block of a function.
fn judge_block(
    alloc: Global,
    known: &mut Known,
    head: &Head,
    body: &Seq<Stmt>,
) -> Result<Seq<TStmt>, TypeFault>
    ensures { Runs result (seen known.old) (seen known.new) (statements.judge_body (rules.in_function head.now) (seen known.old) body.now) }
{
    let of = result_or_int(alloc, head);
    let around = Around {
        in_loop: false,
        in_switch: false,
        result: lent(&of),
    };
    let body = judge_body(alloc, around, known, body);
    drop(of);
    body
}

/// The typed tree of a function whose statements are these.
fn tree_of(
    alloc: Global,
    known: &Known,
    definition: &Definition<'_>,
    body: Seq<TStmt>,
) -> Result<TFunc, NoMemory>
    requires { definition.now.nodes ≡ item_count (item.Function definition.now.place definition.now.head.now definition.now.body.now definition.now.close) }
    ensures { IfOk result (λ f. f ≡ rules.function_tree definition.now.place definition.now.head.now definition.now.body.now definition.now.close (type_or_int (rules.result_type definition.now.head.now)) (length (rules.params_of definition.now.head.now.params)) (seen known.now) body) }
{
    let Ok(params) = u32::try_from(params_of(&definition.head.params).len()) else {
        return Err(NoMemory);
    };
    let result = told_result(alloc, definition.head)?;
    let variables = variables_of(alloc, known.taken.as_slice(), known.variables.as_slice())?;
    let name = Text::copy_of(alloc, definition.head.name.as_str())?;
    Ok(TFunc {
        name,
        place: definition.head.name_place,
        close: definition.close,
        nodes: definition.nodes,
        loops: 0,
        result,
        params,
        variables,
        body,
    })
}

/// What a run has to know of the result of a function.
fn told_result(alloc: Global, head: &Head) -> Result<TType, NoMemory>
    ensures { IfOk result (λ known. known ≡ types.told (type_or_int (rules.result_type head.now))) }
{
    let of = result_or_int(alloc, head);
    let result = told(lent(&of));
    drop(of);
    result
}

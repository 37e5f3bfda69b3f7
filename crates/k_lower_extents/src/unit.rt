//! The extents of a whole program.
ghost use Rattle.std.specs.Prelude.{◌≡◌, ℕ, List, ◌+◌, ◌++◌, map, take, IfOk, OnOk};
ghost use Rattle.k_lower_extents.specs.Extents.{HasExtents};
ghost use Rattle.k_lower_extents.specs.StatementSums.{function_size, function_within, functions_within, served_size as served_meant};

use crate::extent::{Extent, NumberedExtent};
use crate::statement::list_stmts;
use crate::sums::{size_by, sum, sum_of_three};
use crate::table::table_of;
use k_marks_meaning::Marks;
use k_num::{NoMemory, Seq};
use k_types_meaning::{TFunc, TUnit, TVariable};
use std::alloc::Global;

/// The extents of the statements of a program by their numbers, and the sizes of its functions in their order.
#[derive(Drop)]
pub struct Extents {
    pub statements: Seq<Option<Extent>>,
    pub functions: Seq<u32>,
}

/// The first variables, so many of them.
#[tactic(auto, using(crate::proofs::Followed::all_taken))]
fn first(variables: &[TVariable], count: u32) -> &[TVariable]
    ensures { result.now ≡ take count variables.now }
{
    let count = count as usize;
    if count < variables.len() {
        &variables[..count]
    } else {
        variables
    }
}

/// The size of what parameters do that are memory: an object, its address, the store of the argument, and the address that is held.
fn served_size(params: &[TVariable]) -> Result<u32, NoMemory>
    ensures { IfOk result (λ n. n ≡ served_meant params.now) }
{
    let mut size = 0;
    for variable in params {
        size = sum(size, size_by(variable.elements, 0, 4))?;
    }
    Ok(size)
}

/// Lists the extents of the statements of a function, and answers its size.
fn list_function(
    function: &TFunc,
    counted: &[bool],
    alloc: Global,
    found: &mut Vec<NumberedExtent>,
) -> Result<u32, NoMemory>
    ensures size { IfOk result (λ n. n ≡ function_size counted.now function.now) }
    ensures found { OnOk result (found.new.items ≡ found.old.items ++ function_within counted.now function.now) }
{
    let variables = function.variables.as_slice();
    let body = list_stmts(&function.body, variables, counted, alloc, found)?;
    let served = served_size(first(variables, function.params))?;
    sum_of_three(served, body.size, 1)
}

/// The same of functions: their sizes are listed too.
fn list_functions(
    functions: &[TFunc],
    counted: &[bool],
    alloc: Global,
    found: &mut Vec<NumberedExtent>,
    sizes: &mut Vec<u32>,
) -> Result<(), NoMemory>
    ensures sizes { OnOk result (sizes.new.items ≡ sizes.old.items ++ map (function_size counted.now) functions.now) }
    ensures found { OnOk result (found.new.items ≡ found.old.items ++ functions_within counted.now functions.now) }
{
    for function in functions {
        let size = list_function(function, counted, alloc, found)?;
        sizes.push(size)?;
    }
    Ok(())
}

/// The extents of the program that a source with these marks is, whatever its latencies. Where the numbers of statements don't tell them
/// apart, or a text has more instructions than a `u32` can count, no memory is found for them.
pub fn extents_of(alloc: Global, unit: &TUnit, marks: &Marks) -> Result<Extents, NoMemory>
    ensures { IfOk result (λ x. (latencies : List ℕ) → HasExtents (record { unit = unit.now; marks = marks.now; latencies = latencies }) x) }
{
    let counted = marks.counted.as_slice();
    let mut found = Vec::new(alloc);
    let mut sizes = Vec::new(alloc);
    list_functions(
        unit.functions.as_slice(),
        counted,
        alloc,
        &mut found,
        &mut sizes,
    )?;
    let table = table_of(alloc, unit.nodes, found.as_slice())?;
    Ok(Extents {
        statements: Seq::from_vec(table),
        functions: Seq::from_vec(sizes),
    })
}

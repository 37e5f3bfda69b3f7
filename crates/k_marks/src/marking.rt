//! The marks of a source.
ghost use Rattle.std.specs.Prelude.{◌≡◌, ◌++◌, length, map, replicate, IfOk, OnOk};
ghost use Rattle.k_marks_meaning.specs.Loops.{is_counted, broken_by_all};
ghost use Rattle.k_marks.specs.Found.{seen};
ghost use Rattle.k_marks.specs.Known.{blank, IsFresh};
ghost use Rattle.k_marks_meaning.specs.Marking.{function_inside, counted_in, broken_in, flags as flags_meant, left_among as left_meant, left_at, marks_of, statements_in};

use crate::flags::flags;
use crate::found::{Turns, find_stmts};
use crate::known::{Entry, How, Occurrence};
use crate::loops::mark_loop;
use k_marks_jumps::{any, statements_of};
use k_marks_meaning::{Marks, StatementJumps};
use k_num::{NoMemory, Seq};
use k_types_meaning::{TFunc, TUnit, TVariable};
use std::alloc::Global;

/// A table for so many variables, which says nothing yet.
fn new_table(alloc: Global, count: usize) -> Result<Vec<Entry>, NoMemory>
    ensures { IfOk result (λ table. table.items ≡ replicate count blank) }
{
    let mut table = Vec::new(alloc);
    for index in 0..count {
        table.push(Entry {
            turn: 0,
            known: Occurrence {
                assigned: false,
                how: How::Nowhere,
            },
        })?;
    }
    Ok(table)
}

/// Marks loops, one behind another.
#[tactic(auto, using(crate::proofs::TableLaws::fresh_start))]
fn mark_loops(
    alloc: Global,
    variables: &[TVariable],
    loops: &[Turns<'_>],
    counted: &mut Vec<bool>,
    broken: &mut Vec<u32>,
) -> Result<(), NoMemory>
    ensures counted { OnOk result (counted.new.items ≡ counted.old.items ++ map (is_counted variables.now) (map seen loops.now)) }
    ensures broken { OnOk result (broken.new.items ≡ broken.old.items ++ broken_by_all variables.now (map seen loops.now)) }
{
    let mut table = new_table(alloc, variables.len())?;
    let mut turn = 0;
    for turns in loops {
        turn += 1;
        mark_loop(alloc, variables, &mut table, turn, *turns, counted, broken)?;
    }
    Ok(())
}

/// Marks a function.
fn mark_function(
    alloc: Global,
    function: &TFunc,
    counted: &mut Vec<bool>,
    broken: &mut Vec<u32>,
) -> Result<(), NoMemory>
    ensures counted { OnOk result (counted.new.items ≡ counted.old.items ++ map (is_counted function.now.variables) (function_inside function.now).loops) }
    ensures broken { OnOk result (broken.new.items ≡ broken.old.items ++ broken_by_all function.now.variables (function_inside function.now).loops) }
{
    let mut loops = Vec::new(alloc);
    find_stmts(&function.body, &mut loops)?;
    mark_loops(
        alloc,
        function.variables.as_slice(),
        loops.as_slice(),
        counted,
        broken,
    )
}

/// Marks functions, one behind another.
fn mark_functions(
    alloc: Global,
    functions: &[TFunc],
    counted: &mut Vec<bool>,
    broken: &mut Vec<u32>,
) -> Result<(), NoMemory>
    ensures counted { OnOk result (counted.new.items ≡ counted.old.items ++ counted_in functions.now) }
    ensures broken { OnOk result (broken.new.items ≡ broken.old.items ++ broken_in functions.now) }
{
    for function in functions {
        mark_function(alloc, function, counted, broken)?;
    }
    Ok(())
}

/// Lists the number of a statement whose text holds a leaving jump.
fn note_left(statement: &StatementJumps, numbers: &mut Vec<u32>) -> Result<(), NoMemory>
    ensures { OnOk result (numbers.new.items ≡ numbers.old.items ++ left_at statement.now) }
{
    if any(statement.itself) {
        numbers.push(statement.number)?;
    }
    Ok(())
}

/// The numbers of the statements whose text holds a leaving jump.
fn left_among(alloc: Global, statements: &[StatementJumps]) -> Result<Vec<u32>, NoMemory>
    ensures { IfOk result (λ numbers. numbers.items ≡ left_meant statements.now) }
{
    let mut numbers = Vec::new(alloc);
    for statement in statements {
        note_left(statement, &mut numbers)?;
    }
    Ok(numbers)
}

/// Of the numbers of nodes, whether each is that of a statement whose text holds a leaving jump.
fn leaves(alloc: Global, unit: &TUnit) -> Result<Seq<bool>, NoMemory>
    ensures { IfOk result (λ leaves. leaves ≡ flags_meant unit.now.nodes (left_meant (statements_in unit.now.functions))) }
{
    let statements = statements_of(alloc, unit.functions.as_slice())?;
    let numbers = left_among(alloc, statements.as_slice())?;
    flags(alloc, unit.nodes, numbers.as_slice())
}

/// The marks of a source.
#[tactic(auto, unfolding(k_marks_meaning::specs::Marking::marks_of))]
pub fn mark(alloc: Global, unit: &TUnit) -> Result<Marks, NoMemory>
    ensures { IfOk result (λ marks. marks ≡ marks_of unit.now) }
{
    let mut counted = Vec::new(alloc);
    let mut broken = Vec::new(alloc);
    mark_functions(alloc, unit.functions.as_slice(), &mut counted, &mut broken)?;
    let broken = flags(alloc, unit.nodes, broken.as_slice())?;
    let leaves = leaves(alloc, unit)?;
    Ok(Marks {
        counted: Seq::from_vec(counted),
        broken,
        leaves,
    })
}

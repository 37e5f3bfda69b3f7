//! Outputs and calls, once their arguments are there (C17 6.5.2.2, 7.21).
ghost use Rattle.std.specs.Prelude.{◌≡◌, map, IfOk};
ghost use Rattle.k_evaluation.specs.Library.{chunk_of as chunk_of_meant};
ghost use Rattle.k_lower_code.specs.Library.{calls_with as calls_with_meant, outputs as outputs_meant, puts_byte as puts_byte_meant, returned_to as returned_to_meant, value_returned as value_returned_meant};
ghost use Rattle.k_lower_expressions.specs.Arounds.{program_of};
ghost use Rattle.k_lower_expressions.specs.Emits.{Emits};

use crate::around::Around;
use crate::instructions::{does, if_used, sets};
use k_code::{Arg, Do, Instr};
use k_num::{NoMemory, Place, Seq};
use k_types_meaning::{Node, Piece, TType, Written};
use k_world::{Chunk, Out};
use std::alloc::Global;

/// A piece of a format, as it is written.
fn chunk_of(alloc: Global, piece: &Piece) -> Result<Chunk, NoMemory>
    ensures { IfOk result (λ chunk. chunk ≡ chunk_of_meant piece.now) }
{
    match piece {
        Piece::Bytes(bytes) => Ok(Chunk::Bytes(Seq::copy_of(alloc, bytes.as_slice())?)),
        Piece::Argument(Written::Byte) => Ok(Chunk::Byte),
        Piece::Argument(Written::Decimal) => Ok(Chunk::Decimal),
        Piece::Argument(Written::Hex) => Ok(Chunk::Hex),
    }
}

/// The pieces of a format, as they are written.
pub fn chunks_of(alloc: Global, format: &Seq<Piece>) -> Result<Seq<Chunk>, NoMemory>
    ensures { IfOk result (λ chunks. chunks ≡ map chunk_of_meant format.now) }
{
    let mut chunks = Seq::new(alloc);
    for piece in format.as_slice() {
        chunks.push(chunk_of(alloc, piece)?)?;
    }
    Ok(chunks)
}

/// An output of these arguments.
pub fn output(
    around: &Around<'_>,
    place: Place,
    what: Out,
    r: u32,
    args: Seq<Arg>,
    out: &mut Vec<Instr>,
) -> Result<Arg, NoMemory>
    ensures { Emits result (outputs_meant (program_of around.now) place what r args) out.old.items out.new.items }
{
    sets(around, place, Do::Output { what, args, to: r }, r, out)
}

/// An output of one argument as a byte.
pub fn put_byte(
    around: &Around<'_>,
    place: Place,
    r: u32,
    a: Arg,
    out: &mut Vec<Instr>,
) -> Result<Arg, NoMemory>
    ensures { Emits result (puts_byte_meant (program_of around.now) place r a) out.old.items out.new.items }
{
    let mut args = Seq::new(around.alloc);
    args.push(a)?;
    output(around, place, Out::Byte, r, args, out)
}

/// The register to which what a call returns goes: of void there is none.
fn returned_to(of: TType, used: bool, r: u32) -> Option<u32>
    ensures { result ≡ returned_to_meant of used r }
{
    match of {
        TType::Void => None,
        TType::Number(_) => if_used(used, r),
        TType::Pointer(_) => if_used(used, r),
    }
}

/// The value of a call: of void there is none.
fn value_returned(of: TType, r: u32) -> Arg
    ensures { result ≡ value_returned_meant of r }
{
    match of {
        TType::Void => Arg::Number(0),
        TType::Number(_) => Arg::Reg(r, false),
        TType::Pointer(_) => Arg::Reg(r, false),
    }
}

/// A call behind its arguments: the caller gets its control source back.
pub fn call_with(
    around: &Around<'_>,
    node: &Node,
    function: u32,
    used: bool,
    r: u32,
    args: Seq<Arg>,
    out: &mut Vec<Instr>,
) -> Result<Arg, NoMemory>
    ensures { Emits result (calls_with_meant (program_of around.now) node.now function used r args) out.old.items out.new.items }
{
    let to = returned_to(node.of, used, r);
    does(around, node.place, Do::Save, out)?;
    let act = Do::Call {
        func: function,
        args,
        to,
    };
    does(around, node.place, act, out)?;
    does(around, node.place, Do::Back, out)?;
    Ok(value_returned(node.of, r))
}

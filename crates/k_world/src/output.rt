//! The bytes that outputs write.
ghost use Rattle.std.specs.Prelude.{◌≡◌, [], ◌∷◌, ◌++◌, true, false, OnOk};
ghost use Rattle.std.specs.Fmt.{digits as digits_of, signed_decimal};
ghost use Rattle.k_num.specs.Kind.{remainder};
ghost use Rattle.k_num.specs.declared.numbers.Kind.TheVariants.{U8, U64};
ghost use Rattle.k_world.specs.Acts.{argument_before, behind_value, bytes_before, conversion_bytes, first_number as first_number_in, formatted, output_value, written};
ghost use Rattle.k_world.specs.Answers.{Writes};
ghost use Rattle.k_world.specs.declared.act.Out.TheVariants.{Byte};
ghost use Rattle.k_world.specs.Operands.{are_set, values_of};

use crate::answer::Refusal;
use crate::operands::first_number;
use crate::{Chunk, Out, Read, Value};
use itoa::Buffer;
use k_ending::Trap;
use k_num::NoMemory;
use std::alloc::Global;

/// The bytes that an output writes, in place of those that stand there.
pub fn write(alloc: Global, bytes: &mut Vec<u8>, what: &Out, reads: &[Read]) -> Result<(), Refusal>
    requires { are_set reads.now ≡ true }
    ensures { Writes (written what.now (values_of reads.now)) result bytes.new.items }
{
    bytes.clear();
    match what {
        Out::Byte => write_next(alloc, bytes, &Chunk::Byte, reads),
        Out::Line(line) => Ok(write_line(bytes, line.as_slice())?),
        Out::Format(chunks) => write_format(alloc, bytes, chunks.as_slice(), reads),
    }
}

/// The value of an output that writes these bytes.
pub fn value(what: &Out, bytes: &[u8]) -> Value
    ensures { result ≡ output_value what.now bytes.now }
{
    match what {
        Out::Byte => first_byte(bytes),
        Out::Line(_) => Value::Number(0),
        Out::Format(_) => Value::Number(bytes.len() as i128),
    }
}

/// The value of an output of one byte.
fn first_byte(bytes: &[u8]) -> Value
    ensures { result ≡ output_value Byte bytes.now }
{
    match bytes {
        [byte, ..] => Value::Number(i128::from(*byte)),
        [] => Value::Number(0),
    }
}

/// The bytes of a line.
fn write_line(bytes: &mut Vec<u8>, line: &[u8]) -> Result<(), NoMemory>
    ensures { OnOk result (bytes.new.items ≡ bytes.old.items ++ line.now ++ 10 ∷ []) }
{
    bytes.extend_from_slice(line)?;
    bytes.push(b'\n')?;
    Ok(())
}

/// The bytes of a format behind others.
fn write_format(
    alloc: Global,
    bytes: &mut Vec<u8>,
    chunks: &[Chunk],
    reads: &[Read],
) -> Result<(), Refusal>
    requires { are_set reads.now ≡ true }
    ensures { Writes (bytes_before bytes.old.items (formatted chunks.now (values_of reads.now))) result bytes.new.items }
{
    let mut rest = reads;
    for chunk in chunks {
        match chunk {
            Chunk::Bytes(more) => bytes.extend_from_slice(more.as_slice())?,
            conversion => {
                write_next(alloc, bytes, conversion, rest)?;
                rest = behind(rest);
            }
        }
    }
    Ok(())
}

/// The operands behind the first.
fn behind(reads: &[Read]) -> &[Read]
    requires { are_set reads.now ≡ true }
    ensures values { values_of result.now ≡ behind_value (values_of reads.now) }
    ensures set { are_set result.now ≡ true }
{
    match reads {
        [_, rest @ ..] => rest,
        [] => reads,
    }
}

/// The bytes of a conversion of the first operand, behind others.
fn write_next(
    alloc: Global,
    bytes: &mut Vec<u8>,
    conversion: &Chunk,
    reads: &[Read],
) -> Result<(), Refusal>
    requires { are_set reads.now ≡ true }
    ensures { Writes (bytes_before bytes.old.items (argument_before conversion.now (first_number_in (values_of reads.now)) (Ok []))) result bytes.new.items }
{
    match first_number(reads) {
        Some(number) => {
            write_number(alloc, bytes, conversion, number)?;
            Ok(())
        }
        None => Err(Refusal::Trapped(Trap::Uninit)),
    }
}

/// The bytes that a conversion writes for a number, behind others.
fn write_number(
    alloc: Global,
    bytes: &mut Vec<u8>,
    conversion: &Chunk,
    number: i128,
) -> Result<(), NoMemory>
    ensures { OnOk result (bytes.new.items ≡ bytes.old.items ++ conversion_bytes conversion.now number) }
{
    match conversion {
        Chunk::Bytes(more) => bytes.extend_from_slice(more.as_slice())?,
        Chunk::Byte => bytes.push(low_byte(number))?,
        Chunk::Decimal => write_decimal(bytes, number)?,
        Chunk::Hex => write_hexadecimal(alloc, bytes, low_word(number))?,
    }
    Ok(())
}

/// A number modulo 256.
fn low_byte(number: i128) -> u8
    ensures { result ≡ remainder U8 number }
{
    number.rem_euclid(1 << 8) as u8
}

/// A number modulo 2^64.
fn low_word(number: i128) -> u64
    ensures { result ≡ remainder U64 number }
{
    number.rem_euclid(1 << 64) as u64
}

/// A number in decimal, with its sign, behind other bytes.
fn write_decimal(bytes: &mut Vec<u8>, number: i128) -> Result<(), NoMemory>
    ensures { OnOk result (bytes.new.items ≡ bytes.old.items ++ signed_decimal number) }
{
    let mut buffer = Buffer::new();
    bytes.extend_from_slice(buffer.format(number).as_bytes())?;
    Ok(())
}

/// A number in hexadecimal behind other bytes.
fn write_hexadecimal(alloc: Global, bytes: &mut Vec<u8>, number: u64) -> Result<(), NoMemory>
    ensures { OnOk result (bytes.new.items ≡ bytes.old.items ++ digits_of 16 false number) }
{
    let text = format!(in alloc; "{number:x}")?;
    bytes.extend_from_slice(text.as_bytes())?;
    Ok(())
}

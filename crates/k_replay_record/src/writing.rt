//! The bytes that acts write.
ghost use Rattle.std.specs.Prelude.{◌≡◌, ◌++◌, true, false, IfOk, OnOk};
ghost use Rattle.std.specs.Fmt.{digits as digits_of, signed_decimal};
ghost use Rattle.k_num.specs.Kind.{remainder};
ghost use Rattle.k_num.specs.declared.numbers.Kind.TheVariants.{U8, U64};
ghost use Rattle.k_replay_record.specs.Acts.{as_byte, bytes_on, number_at as number_in, piece_bytes, text_of, written};

use crate::values::number_at;
use crate::{Act, Datum, Piece};
use itoa::Buffer;
use k_num::NoMemory;
use std::alloc::Global;

/// Puts the bytes that an act writes for the values of its operands in place of those that stand there.
#[tactic(auto, unfolding(crate::specs::Acts::written))]
pub fn write(
    alloc: Global,
    act: &Act,
    values: &[Datum],
    bytes: &mut Vec<u8>,
) -> Result<(), NoMemory>
    ensures { OnOk result (bytes.new.items ≡ written act.now values.now) }
{
    bytes.clear();
    match act {
        Act::Put => write_byte(bytes, values, 0)?,
        Act::Print(pieces) => write_text(alloc, bytes, pieces.as_slice(), values)?,
        Act::Puts(line) => bytes.extend_from_slice(line.as_slice())?,
        _ => {}
    }
    Ok(())
}

/// The bytes of pieces behind others.
fn write_text(
    alloc: Global,
    bytes: &mut Vec<u8>,
    pieces: &[Piece],
    values: &[Datum],
) -> Result<(), NoMemory>
    ensures { OnOk result (bytes.new.items ≡ bytes.old.items ++ text_of pieces.now values.now) }
{
    for piece in pieces {
        write_piece(alloc, bytes, piece, values)?;
    }
    Ok(())
}

/// The bytes of a piece behind others.
#[tactic(auto, unfolding(crate::specs::Acts::piece_bytes))]
fn write_piece(
    alloc: Global,
    bytes: &mut Vec<u8>,
    piece: &Piece,
    values: &[Datum],
) -> Result<(), NoMemory>
    ensures { OnOk result (bytes.new.items ≡ bytes.old.items ++ piece_bytes piece.now values.now) }
{
    match piece {
        Piece::Bytes(more) => bytes.extend_from_slice(more.as_slice())?,
        Piece::Byte(n) => write_byte(bytes, values, *n as usize)?,
        Piece::Decimal(n) => write_decimal(bytes, values, *n as usize)?,
        Piece::Hex(n) => write_hexadecimal(alloc, bytes, values, *n as usize)?,
    }
    Ok(())
}

/// An operand modulo 256, as a byte, behind others.
fn write_byte(bytes: &mut Vec<u8>, values: &[Datum], n: usize) -> Result<(), NoMemory>
    ensures { OnOk result (bytes.new.items ≡ bytes.old.items ++ bytes_on as_byte (number_in values.now n)) }
{
    if let Some(number) = number_at(values, n) {
        bytes.push(low_byte(number))?;
    }
    Ok(())
}

/// An operand in decimal, with its sign, behind other bytes.
fn write_decimal(bytes: &mut Vec<u8>, values: &[Datum], n: usize) -> Result<(), NoMemory>
    ensures { OnOk result (bytes.new.items ≡ bytes.old.items ++ bytes_on signed_decimal (number_in values.now n)) }
{
    if let Some(number) = number_at(values, n) {
        let mut buffer = Buffer::new();
        bytes.extend_from_slice(buffer.format(number).as_bytes())?;
    }
    Ok(())
}

/// An operand modulo 2^64, in hexadecimal, behind other bytes.
fn write_hexadecimal(
    alloc: Global,
    bytes: &mut Vec<u8>,
    values: &[Datum],
    n: usize,
) -> Result<(), NoMemory>
    ensures { OnOk result (bytes.new.items ≡ bytes.old.items ++ bytes_on (λ a. digits_of 16 false (remainder U64 a)) (number_in values.now n)) }
{
    if let Some(number) = number_at(values, n) {
        write_digits(alloc, bytes, low_word(number))?;
    }
    Ok(())
}

/// A number in hexadecimal behind other bytes.
fn write_digits(alloc: Global, bytes: &mut Vec<u8>, number: u64) -> Result<(), NoMemory>
    ensures { OnOk result (bytes.new.items ≡ bytes.old.items ++ digits_of 16 false number) }
{
    let text = format!(in alloc; "{number:x}")?;
    bytes.extend_from_slice(text.as_bytes())?;
    Ok(())
}

/// A number modulo 256.
pub(crate) fn low_byte(number: i128) -> u8
    ensures { result ≡ remainder U8 number }
{
    number.rem_euclid(1 << 8) as u8
}

/// A number modulo 2^64.
pub(crate) fn low_word(number: i128) -> u64
    ensures { result ≡ remainder U64 number }
{
    number.rem_euclid(1 << 64) as u64
}

//! Texts, numbers and places at the end of a text.
ghost use Rattle.std.specs.Prelude.{◌≡◌, ◌++◌, OnOk};
ghost use Rattle.k_text.specs.Texts.{head_text, named_line, place_text};

use itoa::{Buffer, Integer};
use k_num::{NoMemory, Place};

/// A text at the end of another.
pub fn push(text: &mut Vec<u8>, more: &str) -> Result<(), NoMemory>
    ensures { OnOk result (text.new.items ≡ text.old.items ++ more.now) }
{
    text.extend_from_slice(more.as_bytes())?;
    Ok(())
}

/// A number in decimal.
pub fn push_number<I: Integer>(text: &mut Vec<u8>, number: I) -> Result<(), NoMemory>
    ensures { OnOk result (text.new.items ≡ text.old.items ++ I.text number) }
{
    let mut buffer = Buffer::new();
    push(text, buffer.format(number))
}

/// A word and a number behind it.
pub fn push_named<I: Integer>(text: &mut Vec<u8>, name: &str, number: I) -> Result<(), NoMemory>
    ensures { OnOk result (text.new.items ≡ text.old.items ++ name.now ++ I.text number) }
{
    push(text, name)?;
    push_number(text, number)
}

/// The line of a word and a number behind it.
pub fn push_line<I: Integer>(text: &mut Vec<u8>, name: &str, number: I) -> Result<(), NoMemory>
    ensures { OnOk result (text.new.items ≡ text.old.items ++ named_line name.now (I.text number)) }
{
    push(text, name)?;
    push_number(text, number)?;
    push(text, "\n")
}

/// A first text, and the lines of what main returned and of how many operations were made.
pub fn push_head(text: &mut Vec<u8>, first: &str, exit: i32, ops: u64) -> Result<(), NoMemory>
    ensures { OnOk result (text.new.items ≡ text.old.items ++ head_text first.now exit ops) }
{
    push(text, first)?;
    push_line(text, "exit ", exit)?;
    push_line(text, "ops ", ops)
}

/// A place as `line:column`.
pub fn push_place(text: &mut Vec<u8>, place: Place) -> Result<(), NoMemory>
    ensures { OnOk result (text.new.items ≡ text.old.items ++ place_text place) }
{
    push_number(text, place.line)?;
    push_named(text, ":", place.column)
}

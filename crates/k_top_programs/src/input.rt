//! The input of a program, which is read where the program calls `getchar`.
ghost use Rattle.k_types_calls.specs.Getchar.{calls_getchar};
ghost use Rattle.k_top_lemmas.specs.Parts.{ReadsWhere, ReadsWhole};

use k_edge::{Source, read_all};
use k_top_answers::Failure;
use k_types::TUnit;
use k_types_calls::calls_getchar;
use std::alloc::Global;

/// How many bytes the input may have.
const INPUT_LIMIT: u64 = 16_777_216;

/// All bytes of the input.
fn read_whole<S: Source>(alloc: Global, input: &mut S) -> Result<Vec<u8>, Failure>
    ensures { ReadsWhole result (S.seen input.old) (S.seen input.new) }
{
    let bytes = read_all(alloc, input, INPUT_LIMIT)?;
    Ok(bytes)
}

/// The input of a program: all bytes where the program calls `getchar`, and else none, and the input is not touched.
pub(crate) fn input_of<S: Source>(
    alloc: Global,
    typed: &TUnit,
    input: &mut S,
) -> Result<Vec<u8>, Failure>
    ensures { ReadsWhere (calls_getchar typed.now) result (S.seen input.old) (S.seen input.new) }
{
    if calls_getchar(typed) {
        read_whole(alloc, input)
    } else {
        Ok(Vec::new(alloc))
    }
}

//! The elements of all live objects, in one list of cells. A cell is None where its element is unset.
ghost use Rattle.std.specs.Prelude.{◌≡◌, ◌+◌, ◌<◌, ◌≤◌, ◌^◌, ◌++◌, length, map, slice_get, get_or, pos, vec_len, OnOk, OnErr};
ghost use Rattle.std.specs.Int.{w8, cast_signed};
ghost use Rattle.k_mem.specs.Calls.{HasLength, elements_at, with_values};
ghost use Rattle.k_mem.specs.Layout.{cells_set};

use crate::Start;
use k_num::NoMemory;

/// The cell at that place.
#[inline(always)]
pub fn cell_at(cells: &[Option<i128>], at: usize) -> Option<i128>
    requires { at < length cells.now }
    ensures { slice_get cells.now at ≡ Some result }
{
    cells[at]
}

/// Sets as many cells from `first` on to the values, and to 0 beyond them.
pub fn set_part(cells: &mut [Option<i128>], first: usize, count: usize, values: &[i128])
    requires { first + count ≤ length cells.old }
    ensures { cells.new ≡ cells_set values.now cells.old first count }
{
    set_cells(&mut cells[first..first + count], values);
}

/// Sets the cells to the values, and to 0 beyond them.
fn set_cells(cells: &mut [Option<i128>], values: &[i128])
    ensures { cells.new ≡ with_values values.now cells.old }
{
    for at in 0..cells.len() {
        cells[at] = Some(value_or_zero(values, at));
    }
}

/// The value at a place, or 0 beyond the last.
fn value_or_zero(values: &[i128], at: usize) -> i128
    ensures { result ≡ get_or values.now at (pos 0) }
{
    match values.get(at) {
        Some(value) => *value,
        None => 0,
    }
}

/// Adds the elements that a new object has. A refusal leaves the cells as they were.
pub fn append_elements(
    cells: &mut Vec<Option<i128>>,
    elements: u32,
    start: Start<'_>,
) -> Result<(), NoMemory>
    requires literal { HasLength start elements }
    requires room { vec_len cells.old + elements < 2 ^ 64 }
    ensures ok { OnOk result (cells.new.items ≡ cells.old.items ++ elements_at start.entry elements) }
    ensures err { OnErr result (cells.new.items ≡ cells.old.items) }
{
    let len = cells.len() + elements as usize;
    match start {
        Start::Unset => cells.resize(len, None)?,
        Start::Zero => cells.resize(len, Some(0))?,
        Start::Literal(bytes) => append_bytes(cells, bytes)?,
    }
    Ok(())
}

/// Adds bytes as signed 8-bit numbers. A refusal leaves the cells as they were.
fn append_bytes(cells: &mut Vec<Option<i128>>, bytes: &[u8]) -> Result<(), NoMemory>
    ensures ok { OnOk result (cells.new.items ≡ cells.old.items ++ map (λ byte. Some (cast_signed w8 byte)) bytes.now) }
    ensures err { OnErr result (cells.new.items ≡ cells.old.items) }
{
    cells.reserve(bytes.len())?;
    for byte in bytes {
        cells.push_reserved(Some(i128::from(byte.cast_signed())));
    }
    Ok(())
}

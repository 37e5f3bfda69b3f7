//! The ranges of an instruction's numbers.
ghost use Rattle.std.specs.Prelude.{◌≡◌, ◌+◌, ◌<◌, ◌≤◌, ◌^◌, ◌↔◌, length, nat_le, sum_by, IsTrue};
ghost use Rattle.k_code.specs.Balances.{goes_on as goes_on_by};
ghost use Rattle.k_code.specs.Decides.{AreInRange};
ghost use Rattle.k_code.specs.Named.{chunk_bytes, is_there as is_there_of, object_is_there as object_is_there_of, out_is_short as out_is_short_of, text_is_short as text_is_short_of};
ghost use Rattle.k_code.specs.Valid.{class_fits as class_fits_by, is_in_range as is_in_range_of, is_of_tests as is_of_tests_in, is_within as is_within_of, stays_within as stays_within_of};

use crate::{Chunk, Code, Do, Home, Instr, Out};
use k_optab::Class;

/// The most bytes of a line, and the most parts of a format, which have together at most as many bytes.
const MOST: usize = 4_194_304;

/// The greatest latency.
const GREATEST_LATENCY: u64 = 10_000;

/// Whether the instructions of a function are in their ranges, but for their registers and what they find open. The first of
/// them has the number `entry`.
pub(super) fn all_in_range(code: &Code, entry: usize, instrs: &[Instr]) -> bool
    requires { entry + length instrs.now < 2 ^ 64 }
    ensures { IsTrue result ↔ AreInRange code.now entry instrs.now }
{
    for (k, instr) in instrs.iter().enumerate() {
        if !is_in_range(code, entry, instrs.len(), k, instr) {
            return false;
        }
    }
    true
}

/// Whether an instruction is.
fn is_in_range(code: &Code, entry: usize, count: usize, k: usize, instr: &Instr) -> bool
    requires sum { entry + count < 2 ^ 64 }
    requires place { k < count }
    ensures { result ≡ is_in_range_of code.now entry count k instr.now }
{
    instr.latency <= GREATEST_LATENCY
        && is_there(code, &instr.act)
        && text_is_short(&instr.act)
        && class_fits(&instr.act)
        && stays_within(entry, count, k, &instr.act)
}

/// Whether what an instruction names of the program is there.
#[tactic(auto, unfolding(crate::specs::Named::is_there))]
fn is_there(code: &Code, act: &Do) -> bool
    ensures { result ≡ is_there_of code.now act.now }
{
    match act {
        Do::Enter { region } => (*region as usize) < code.regions.len(),
        Do::Call { func, .. } => (*func as usize) < code.funcs.len(),
        Do::Address { home, .. } => object_is_there(code.objects.len(), *home),
        _ => true,
    }
}

/// Whether an object of the program is there.
fn object_is_there(objects: usize, home: Home) -> bool
    ensures { result ≡ object_is_there_of objects home }
{
    match home {
        Home::File(number) => (number as usize) < objects,
        Home::Local(_) => true,
    }
}

/// Whether what an instruction writes is short enough.
fn text_is_short(act: &Do) -> bool
    ensures { result ≡ text_is_short_of act.now }
{
    match act {
        Do::Output { what, .. } => out_is_short(what),
        _ => true,
    }
}

/// Whether an output is short enough.
#[tactic(auto, unfolding(crate::specs::Named::out_is_short))]
fn out_is_short(what: &Out) -> bool
    ensures { result ≡ out_is_short_of what.now }
{
    match what {
        Out::Byte => true,
        Out::Line(bytes) => bytes.len() <= MOST,
        Out::Format(chunks) => chunks.len() <= MOST && bytes_are_few(chunks.as_slice()),
    }
}

/// Whether the parts of a format have few enough bytes.
fn bytes_are_few(chunks: &[Chunk]) -> bool
    ensures { result ≡ nat_le (sum_by chunk_bytes chunks.now) 4194304 }
{
    let mut room = MOST;
    for chunk in chunks {
        let bytes = bytes_of(chunk);
        if room < bytes {
            return false;
        }
        room -= bytes;
    }
    true
}

/// The bytes of a part of a format.
fn bytes_of(chunk: &Chunk) -> usize
    ensures { result ≡ chunk_bytes chunk.now }
{
    match chunk {
        Chunk::Bytes(bytes) => bytes.len(),
        Chunk::Byte | Chunk::Decimal | Chunk::Hex => 0,
    }
}

/// Whether the class that an instruction names is one of tests.
#[tactic(auto, unfolding(crate::specs::Valid::class_fits))]
fn class_fits(act: &Do) -> bool
    ensures { result ≡ class_fits_by act.now }
{
    match act {
        Do::Test { class, .. } => is_of_tests(*class),
        _ => true,
    }
}

/// Whether the class is one of tests.
fn is_of_tests(class: Class) -> bool
    ensures { result ≡ is_of_tests_in class }
{
    match class {
        Class::Test | Class::Select => true,
        _ => false,
    }
}

/// Whether an instruction leads to its function's alone. So many stand before it.
#[tactic(auto, unfolding(crate::specs::Valid::stays_within))]
fn stays_within(entry: usize, count: usize, k: usize, act: &Do) -> bool
    requires sum { entry + count < 2 ^ 64 }
    requires place { k < count }
    ensures { result ≡ stays_within_of entry count k act.now }
{
    match act {
        Do::Test { then, other, .. } => {
            is_within(entry, count, *then) && is_within(entry, count, *other)
        }
        Do::Jump { to } => entry + k < *to as usize && (*to as usize) < entry + count,
        _ => !goes_on(act) || k + 1 < count,
    }
}

/// Whether the number is one of so many from the entry on.
fn is_within(entry: usize, count: usize, number: u32) -> bool
    requires { entry + count < 2 ^ 64 }
    ensures { result ≡ is_within_of entry count number }
{
    entry <= number as usize && (number as usize) < entry + count
}

/// Whether the next instruction follows.
#[tactic(auto, unfolding(crate::specs::Balances::goes_on))]
pub(super) fn goes_on(act: &Do) -> bool
    ensures { result ≡ goes_on_by act.now }
{
    match act {
        Do::Test { .. } => false,
        Do::Jump { .. } => false,
        Do::FallOff => false,
        Do::Return { .. } => false,
        _ => true,
    }
}

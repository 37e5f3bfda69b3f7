//! The top call over the outside in memory. Of what is made for a call each part is made by a function of its own, which lends it to the next.
mod asked;
mod noted;
mod short;
mod told;

use k_edge::{Files, Sink, Source};
use k_num::NoMemory;
use k_top::kremlin;
use short::Short;
use std::alloc::Global;

/// A program that returns 0. Its report has 84 bytes.
const RETURN_ZERO: &str = "int main(void){return 0;}";

/// A program that writes 70,000 bytes `x`.
const MANY: &str =
    "#include <stdio.h>\nint main(void){int i; for(i=0;i<70000;i++) putchar('x'); return 0;}";

/// How many calls of `reserve` pass in the shadow of registers and in that of elements.
type Passes = (u64, u64);

/// As many as no run here makes.
const ALL: Passes = (1_000_000, 1_000_000);

/// Words that are parted by blanks.
fn words_of(alloc: Global, text: &str) -> Result<Vec<String>, NoMemory> {
    let mut words = Vec::new(alloc);
    for word in text.split_whitespace() {
        words.push(String::from_str(alloc, word)?)?;
    }
    Ok(words)
}

/// The status of the call.
fn status_of<F: Files, S: Source, K: Sink>(
    alloc: Global,
    words: &[String],
    files: &mut F,
    input: &mut S,
    out: &mut K,
    err: &mut K,
    passes: Passes,
) -> u8 {
    let (regs, pages) = passes;
    kremlin(
        alloc,
        words,
        files,
        input,
        out,
        err,
        Short::new(alloc, regs),
        Short::new(alloc, pages),
    )
}

/// Whether these are all `x`.
fn are_x(bytes: &[u8]) -> bool {
    bytes.iter().all(|byte| *byte == b'x')
}

//! The machine from instruction to instruction: each live level has the work and the path that the history of its run says, and each location the times that
//! it says.
//!
//! Standard input has sources, a line each; behind "< " stands the input of the next one, and lines that begin with another mark are passed over. Each source
//! is run with its instances tracked below each of some depths. It prints how the run ends, or that something differs from the history. Behind these it does
//! the same with objects that find no room, and with a loop that each small number of operations ends.
#![tactic(auto)]

mod history;
mod levels;
mod watched;

use k_edge::{StdSource, read_all};
use k_ending::{End, name as trap_name};
use levels::{Given, end_of};
use std::alloc::Global;
use std::io;
use std::str::from_utf8;

/// The greatest size of the input.
const MOST_BYTES: u64 = 1 << 20;

/// The depths below which instances are tracked.
static DEPTHS: [u32; 7] = [24, 1, 2, 3, 5, 31, 32];

/// One of them.
static ONE_DEPTH: [u32; 1] = [24];

/// How many operations are made at most.
const MANY: u64 = 10_000;

/// Objects of more elements than may live.
const FULL: &str = "char a[4194304],b; int main(void){return b;}";

/// A loop without an end.
const SPIN: &str = "int main(void){int x=1; while(1) x=x*3&255;}";

/// Prints how the run of a source ends.
fn tell(rt: &HostRuntime, source: &str, given: Given) -> io::Result<()> {
    let Some(end) = end_of(rt.alloc(), source, given) else {
        return println!(rt; "differs");
    };
    match end {
        End::Returned(exit) => println!(rt; "{exit}"),
        End::Trapped(trap, _) => println!(rt; "{}", trap_name(trap)),
        End::OutOfSteps => println!(rt; "out of steps"),
    }
}

/// Whether a line is no source: it is empty, or begins with a mark.
fn is_passed_over(line: &str) -> bool {
    line.is_empty() || line.starts_with('#') || line.starts_with('>') || line.starts_with('!')
}

/// Runs each source of a text.
fn tell_all(rt: &HostRuntime, text: &str) -> io::Result<()> {
    let mut input = "";
    for line in text.lines() {
        if let Some(given) = line.strip_prefix("< ") {
            input = given;
        } else if !is_passed_over(line) {
            let given = Given {
                input: input.as_bytes(),
                budget: MANY,
                depths: &DEPTHS,
            };
            tell(rt, line, given)?;
            input = "";
        }
    }
    Ok(())
}

/// Whether each small number of operations ends the loop.
fn each_budget_ends(alloc: Global) -> bool {
    for budget in 1..40 {
        let given = Given {
            input: &[],
            budget,
            depths: &ONE_DEPTH,
        };
        if end_of(alloc, SPIN, given) != Some(End::OutOfSteps) {
            return false;
        }
    }
    true
}

fn main(rt: HostRuntime) -> io::Result<()> {
    let mut input = StdSource::new(rt.stdin());
    match read_all(rt.alloc(), &mut input, MOST_BYTES) {
        Ok(bytes) => match from_utf8(bytes.as_slice()) {
            Ok(text) => tell_all(&rt, text)?,
            Err(_) => println!(rt; "no text")?,
        },
        Err(_) => println!(rt; "no input")?,
    }
    let given = Given {
        input: &[],
        budget: MANY,
        depths: &ONE_DEPTH,
    };
    tell(&rt, FULL, given)?;
    println!(rt; "each budget {}", each_budget_ends(rt.alloc()))
}

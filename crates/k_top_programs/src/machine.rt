//! A program is run on the machine: it is lowered to flat code, and the code is run.
ghost use Rattle.std.specs.Prelude.{◌≡◌, ◌<◌};
ghost use Rattle.k_code.specs.Valid.{IsValid};
ghost use Rattle.k_hcpa.specs.Profiles.{RunsHeld};
ghost use Rattle.k_top_lemmas.specs.Parts.{IsFit, IsFresh, RunsProgram, dict_of, put_result, running_of};

use k_code::Code;
use k_dict_entries::Dict;
use k_edge::{PutFault, Sink};
use k_hcpa::{Profile, RunFault, Summary, run_held};
use k_lower::lower;
use k_num::NoMemory;
use k_shadow::{Shadow, Steps};
use k_top_lemmas::Ready;
use std::alloc::Global;
use std::marker::Brand;
use std::sync::ledger::{Blank, Ledger};

/// The run of a program's code, whose reads of times are counted in a new ledger.
fn run_counted<K: Sink, R: Shadow, P: Shadow, L: Ledger>(
    alloc: Global,
    ready: &Ready,
    code: &Code,
    depth: u32,
    regs: R,
    pages: P,
    out: &mut K,
    blank: Blank,
) -> Result<Profile, RunFault>
    requires fit { IsFit ready.now depth }
    requires code { IsValid code.now }
    requires registers { IsFresh 2097152 (R.content regs) }
    requires pages { IsFresh 4194304 (P.content pages) }
    requires name { blank.name ≡ L.name }
    requires parts { blank.parts ≡ L.parts }
    requires some { 0 < blank.parts }
    ensures { RunsHeld code.now ready.now.input ready.now.steps depth result (K.seen out.old) (K.seen out.new) }
{
    let mut steps = Steps::<L>::new(blank);
    let input = ready.input.as_slice();
    run_held(
        alloc,
        code,
        input,
        ready.steps,
        depth,
        regs,
        pages,
        out,
        &mut steps,
    )
}

/// A run's fault as one of the puts of its output.
fn put_result(ran: Result<Profile, RunFault>) -> Result<Profile, PutFault>
    ensures { result ≡ put_result ran }
{
    match ran {
        Ok(profile) => Ok(profile),
        Err(RunFault::Write) => Err(PutFault::Failed),
        Err(RunFault::Memory) => Err(PutFault::Memory),
    }
}

/// The run of a program on the machine, which keeps times in these two shadows and tracks the instances below a depth. What is put on `out` is a front of
/// the program's output, and the rest is in the profile.
pub fn run_program<K: Sink, R: Shadow, P: Shadow>(
    alloc: Global,
    ready: &Ready,
    depth: u32,
    regs: R,
    pages: P,
    out: &mut K,
) -> Result<Profile, PutFault>
    requires fit { IsFit ready.now depth }
    requires registers { IsFresh 2097152 (R.content regs) }
    requires pages { IsFresh 4194304 (P.content pages) }
    ensures { RunsProgram (running_of ready.now) depth result (K.seen out.old) (K.seen out.new) }
{
    let program = &ready.program;
    match lower(alloc, &program.typed, &program.marks, &program.latencies) {
        Ok(code) => {
            let blank = Blank::new(1);
            put_result(run_counted::<K, R, P, Brand>(
                alloc, ready, &code, depth, regs, pages, out, blank,
            ))
        }
        Err(NoMemory) => {
            drop(regs);
            drop(pages);
            Err(PutFault::Memory)
        }
    }
}

/// The dictionary that is told, if one is.
pub fn dict_of(summary: Summary) -> Option<Dict>
    ensures { result ≡ dict_of summary }
{
    match summary {
        Summary::Whole(dict) => Some(dict),
        Summary::Large | Summary::Missing => None,
    }
}

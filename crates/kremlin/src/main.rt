//! The program: it gives the top call the words of the command line, the host's files, the standard streams and the shadows of registers
//! and of elements, and ends with the status that is answered.
#![tactic(auto)]

use k_edge::{HostFiles, Sink, StdSink, StdSource};
use k_num::NoMemory;
use k_spage::ShadowPages;
use k_sreg::ShadowRegs;
use k_top::kremlin;
use std::env;
use std::io::ErrorKind;
use std::process::ExitCode;

/// The words behind the program's own name. Words that the system can't give as text count as no words at all.
fn words(rt: &HostRuntime) -> Result<Vec<String>, NoMemory> {
    match env::args(rt) {
        Ok(args) => Ok(args.skip(1).collect(rt.alloc())?),
        Err(error) if error.kind() == ErrorKind::OutOfMemory => Err(NoMemory),
        Err(_) => Ok(Vec::new(rt.alloc())),
    }
}

/// The status of the top call over the host.
fn answer(rt: &HostRuntime) -> Result<u8, NoMemory> {
    let words = words(rt)?;
    let mut input = StdSource::new(rt.stdin());
    let mut out = StdSink::new(rt.stdout());
    let mut err = StdSink::new(rt.stderr());
    let mut files = HostFiles::new(rt.clone()?);
    Ok(kremlin(
        rt.alloc(),
        words.as_slice(),
        &mut files,
        &mut input,
        &mut out,
        &mut err,
        ShadowRegs::new(rt.alloc()),
        ShadowPages::new(rt.alloc()),
    ))
}

fn main(rt: HostRuntime) -> ExitCode {
    match answer(&rt) {
        Ok(status) => ExitCode::from(status),
        Err(NoMemory) => {
            // (a fault on standard error changes no status)
            let _ = StdSink::new(rt.stderr()).put(b"kremlin: no memory\n");
            ExitCode::from(8)
        }
    }
}

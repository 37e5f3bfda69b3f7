//! The whole run.
ghost use Rattle.std.specs.Prelude.{Ok, Err, IfOk};
ghost use Rattle.k_code.specs.Runs.{HasOutcome};
ghost use Rattle.k_code.specs.Valid.{IsValid};
ghost use Rattle.k_hcpa_store.specs.Leads.{Starts};
ghost use Rattle.k_plain.specs.Running.{HasEnded, Stands, Stepped};

use crate::advance::{advance, function_at};
use crate::log::{Log, note_enter};
use crate::setting::Setting;
use k_code::Code;
use k_ending::{End, Listing};
use k_hcpa_store::Store;
use k_num::{NoMemory, Seq};
use k_world::Stop;
use std::alloc::Global;

/// The listing of a run of valid code on an input, of at most `budget` operations.
pub fn listing_of_code(
    alloc: Global,
    code: &Code,
    input: &[u8],
    budget: u64,
) -> Result<Listing, NoMemory>
    requires { IsValid code.now }
    ensures { IfOk result (λ listing. HasOutcome code.now input.now budget listing.events listing.output listing.end) }
{
    let setting = Setting {
        alloc,
        code,
        input,
        budget,
    };
    match Store::start(alloc, code, input, budget) {
        Ok(store) => listing_from(&setting, store),
        Err(stop) => stopped_at_once(&setting, stop),
    }
}

/// The listing of a run that has ended at once, if memory was found.
fn stopped_at_once(setting: &Setting<'_>, stop: Stop) -> Result<Listing, NoMemory>
    requires { Starts setting.now.code.now setting.now.input.now setting.now.budget (Err stop) }
    ensures { IfOk result (λ listing. HasOutcome setting.now.code.now setting.now.input.now setting.now.budget listing.events listing.output listing.end) }
{
    match stop {
        Stop::Ended(end) => Ok(Listing {
            events: Seq::new(setting.alloc),
            output: Seq::new(setting.alloc),
            end,
        }),
        Stop::Memory => Err(NoMemory),
    }
}

/// The listing of a run that begins with main's instance.
fn listing_from<'a>(setting: &Setting<'a>, store: Store<'a>) -> Result<Listing, NoMemory>
    requires code { IsValid setting.now.code.now }
    requires starts { Starts setting.now.code.now setting.now.input.now setting.now.budget (Ok store) }
    ensures { IfOk result (λ listing. HasOutcome setting.now.code.now setting.now.input.now setting.now.budget listing.events listing.output listing.end) }
{
    let mut store = store;
    let mut log = Log {
        events: Seq::new(setting.alloc),
        reads: Vec::new(setting.alloc),
    };
    let main = function_at(setting.code.funcs.as_slice(), setting.code.main);
    note_enter(&mut log, main.region)?;
    let end = run(setting, &mut store, &mut log)?;
    let output = Seq::copy_of(setting.alloc, store.pending())?;
    let Log { events, .. } = log;
    Ok(Listing {
        events,
        output,
        end,
    })
}

/// Runs a program to its end.
fn run<'a>(setting: &Setting<'a>, store: &mut Store<'a>, log: &mut Log) -> Result<End, NoMemory>
    requires code { IsValid setting.now.code.now }
    requires stands { Stands setting.now store.old log.old.events }
    ensures { IfOk result (λ end. HasEnded setting.now store.new log.new.events end) }
{
    loop {
        if let Some(end) = walk(setting, store, log)? {
            return Ok(end);
        }
    }
}

/// Does the instruction that is next.
fn walk<'a>(
    setting: &Setting<'a>,
    store: &mut Store<'a>,
    log: &mut Log,
) -> Result<Option<End>, NoMemory>
    requires code { IsValid setting.now.code.now }
    requires stands { Stands setting.now store.old log.old.events }
    ensures { IfOk result (λ end. Stepped setting.now store.old end store.new log.new.events) }
{
    let instr = store.instruction();
    advance(setting.alloc, store, log, instr)
}

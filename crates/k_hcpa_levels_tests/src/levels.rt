//! A machine does a source's instructions one by one, and is compared with the history after each. Now and then no room is found: then it is as before, and
//! goes on.
ghost use Rattle.std.specs.Prelude.{◌≡◌, ◌<◌, ◌≤◌};
ghost use Rattle.k_code.specs.Valid.{IsValid};
ghost use Rattle.k_shadow.specs.Content.{empty};

use crate::history::History;
use crate::watched::{Puts, Watched};
use k_code::Code;
use k_ending::{End, Listing};
use k_hcpa::{Machine, Turn};
use k_marks_meaning::Marks;
use k_num::NoMemory;
use k_optab::{Event, count_operations};
use k_plain::listing_of_code;
use k_shadow::{Shadow, Steps};
use k_sources::{Reader, read_source};
use k_spage::ShadowPages;
use k_sreg::ShadowRegs;
use k_types_meaning::TUnit;
use std::alloc::Global;
use std::cell::RefCell;
use std::marker::Brand;
use std::sync::ledger::{Blank, Ledger};

/// How many instructions are run at most.
const MOST: u32 = 1_000_000;

/// A run: its input, how many operations it may make, the depth below which instances are tracked, and what happens.
#[derive(Clone, Copy)]
struct Listed<'a> {
    input: &'a [u8],
    budget: u64,
    depth: u32,
    events: &'a [Event],
}

/// Whether nothing is noted.
fn is_nothing(puts: Option<&Puts>) -> bool {
    match puts {
        None => true,
        Some(puts) => match puts.try_borrow() {
            Ok(list) => list.is_empty(),
            Err(_) => false,
        },
    }
}

/// Whether the history of what a machine did, and what was put, is as it was before it found no room, with so many bytes of output.
fn is_as_before<'a, R: Shadow, P: Shadow>(
    machine: &Machine<'a, R, P>,
    history: &History,
    puts: Option<&Puts>,
    pending: usize,
) -> bool {
    is_nothing(puts) && history.is_told(machine) && machine.pending().len() == pending
}

/// Does an instruction, in a second try where the first finds no room. Nothing where the machine is not as before the first, or the second finds none.
fn turn<'a, R: Shadow, P: Shadow, L: Ledger>(
    machine: &mut Machine<'a, R, P>,
    history: &History,
    puts: Option<&Puts>,
    steps: &mut Steps<L>,
) -> Option<Turn> {
    let pending = machine.pending().len();
    match machine.step(steps) {
        Ok(turn) => Some(turn),
        Err(NoMemory) => {
            if is_as_before(machine, history, puts, pending) {
                machine.step(steps).ok()
            } else {
                None
            }
        }
    }
}

/// How a machine ends, where each instruction leads to where the history of these events comes, at last behind all operations.
fn run_all<'a, R: Shadow, P: Shadow, L: Ledger>(
    alloc: Global,
    machine: &mut Machine<'a, R, P>,
    events: &[Event],
    puts: Option<&Puts>,
    steps: &mut Steps<L>,
    depth: u32,
) -> Option<End> {
    let mut history = History::new(alloc, depth);
    let mut rest = history.reach(alloc, machine, puts, events)?;
    for _ in 0..MOST {
        let turn = turn(machine, &history, puts, steps)?;
        rest = history.reach(alloc, machine, puts, rest)?;
        if let Turn::Ended(end) = turn {
            return if count_operations(rest) == 0 {
                Some(end)
            } else {
                None
            };
        }
    }
    None
}

/// How a machine over these shadows ends on valid code, where it is like the history of these events, as what they note in this list, if they note.
fn run_over<R: Shadow, P: Shadow, L: Ledger>(
    alloc: Global,
    code: &Code,
    run: Listed,
    regs: R,
    pages: P,
    puts: Option<&Puts>,
    steps: &mut Steps<L>,
) -> Option<End>
    requires code { IsValid code.now }
    requires few { run.budget ≤ 1000000000 }
    requires tracks { 1 ≤ run.depth }
    requires shallow { run.depth ≤ 32 }
    requires registers { R.content regs ≡ empty (R.content regs).limit }
    requires register_limit { 2097152 ≤ (R.content regs).limit }
    requires pages { P.content pages ≡ empty (P.content pages).limit }
    requires page_limit { 4194304 ≤ (P.content pages).limit }
{
    let Listed {
        input,
        budget,
        depth,
        events,
    } = run;
    let mut machine = Machine::start(alloc, code, input, budget, depth, regs, pages).ok()?;
    run_all(alloc, &mut machine, events, puts, steps, depth)
}

/// How a machine ends on valid code, where it is like the history of these events: over plain maps, which note what is put and refuse room now and then, as
/// over the shadows of registers and of pages.
fn run_counted<L: Ledger>(alloc: Global, code: &Code, run: Listed, blank: Blank) -> Option<End>
    requires code { IsValid code.now }
    requires few { run.budget ≤ 1000000000 }
    requires tracks { 1 ≤ run.depth }
    requires shallow { run.depth ≤ 32 }
    requires name { blank.name ≡ L.name }
    requires parts { blank.parts ≡ L.parts }
    requires some { 0 < blank.parts }
{
    let mut steps = Steps::<L>::new(blank);
    let puts = RefCell::new(Vec::new(alloc));
    let regs = Watched::new(alloc, &puts);
    let pages = Watched::new(alloc, &puts);
    let end = run_over(alloc, code, run, regs, pages, Some(&puts), &mut steps)?;
    let regs = ShadowRegs::new(alloc);
    let pages = ShadowPages::new(alloc);
    let same = run_over(alloc, code, run, regs, pages, None, &mut steps)?;
    if same == end { Some(end) } else { None }
}

/// The same with a ledger of its own.
fn run_listed(alloc: Global, code: &Code, run: Listed) -> Option<End>
    requires { IsValid code.now }
{
    if run.budget > 1_000_000_000 || run.depth == 0 || run.depth > 32 {
        return None;
    }
    run_counted::<Brand>(alloc, code, run, Blank::new(1))
}

/// How a run is made: its input, how many operations it may make, and the depths below which instances are tracked.
#[derive(Clone, Copy)]
pub struct Given<'a> {
    pub input: &'a [u8],
    pub budget: u64,
    pub depths: &'a [u32],
}

/// How the run of code ends by this listing of it, where a machine is like that from instruction to instruction at each depth, and ends so.
fn end_like(alloc: Global, code: &Code, given: Given, listing: &Listing) -> Option<End>
    requires { IsValid code.now }
{
    for depth in given.depths {
        let run = Listed {
            input: given.input,
            budget: given.budget,
            depth: *depth,
            events: listing.events.as_slice(),
        };
        if run_listed(alloc, code, run) != Some(listing.end) {
            return None;
        }
    }
    Some(listing.end)
}

/// A source that is run as given, and how that ended, if the machine was like the history.
#[derive(Drop)]
struct Watching<'a> {
    alloc: Global,
    given: Given<'a>,
    end: Option<End>,
}

impl Reader for Watching<'_> {
    fn take(&mut self, _unit: &TUnit, _marks: &Marks, code: &Code) {
        let given = self.given;
        if let Ok(listing) = listing_of_code(self.alloc, code, given.input, given.budget) {
            self.end = end_like(self.alloc, code, given, &listing);
            drop(listing);
        }
    }
}

/// How the run of a source ends by its history, where a machine is like that. Nothing, too, where memory is wanting, or the source is refused.
pub fn end_of(alloc: Global, text: &str, given: Given) -> Option<End> {
    let mut watching = Watching {
        alloc,
        given,
        end: None,
    };
    if read_source(alloc, text.as_bytes(), &mut watching) {
        watching.end
    } else {
        None
    }
}

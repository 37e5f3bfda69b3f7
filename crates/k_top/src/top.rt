//! The top call.
ghost use Rattle.std.specs.Prelude.{◌≡◌, ◌≤◌, map, string_bytes};
ghost use Rattle.k_shadow.specs.Content.{empty};
ghost use Rattle.k_top_answers.specs.Clauses.{Keeps};
ghost use Rattle.k_top_lemmas.specs.Parts.{EndsAs, IsFresh, PutsText, Tells, failed};
ghost use Rattle.k_top_lemmas.specs.Streams.{Performs};

use crate::asked::answer;
use crate::output::deliver;
use k_edge::{Files, PutFault, Sink, Source};
use k_num::NoMemory;
use k_shadow::Shadow;
use k_top_answers::{Answer, Failure};
use k_top_lemmas::Ending;
use std::alloc::Global;

/// Does what the words ask for, and answers the exit status: 0 where that was done, and for `run`, `graph`, `carried` and `demo` the
/// program's main returned; 1 where the run trapped, 2 where it would make more operations than it may, 3 where the source is refused, 4 where the
/// words are no command, 5 where there is no such file, 6 where a read failed, 7 where a write failed, also where the run would end in a
/// trap, 8 where no memory was found, 9 where the input is too long, 10 where the table of latencies is refused, 11 where the saved profile
/// is, 12 where a file is too long. What is asked for goes to `out`; a line that says why, on every status but 0, goes to `err`, and so does
/// what `check` tells of a source that is refused, behind that line.
///
/// The shadows keep the times of registers and of elements of a program that `run` and `demo` run; no other command touches them.
pub fn kremlin<F: Files, S: Source, K: Sink, E: Sink, R: Shadow, P: Shadow>(
    alloc: Global,
    words: &[String],
    files: &mut F,
    input: &mut S,
    out: &mut K,
    err: &mut E,
    regs: R,
    pages: P,
) -> u8
    // The shadows have no level yet, and room for the registers and the elements of every program.
    requires registers { R.content regs ≡ empty (R.content regs).limit }
    requires register_limit { 2097152 ≤ (R.content regs).limit }
    requires pages { P.content pages ≡ empty (P.content pages).limit }
    requires page_limit { 4194304 ≤ (P.content pages).limit }
    // The outside holds something, and at most one thing went wrong there, such that each clause of `Keeps` is so.
    ensures { Keeps (map string_bytes words.now) result
        (record { files = F.seen files.old; input = S.seen input.old; out = K.seen out.old; err = E.seen err.old })
        (record { files = F.seen files.new; input = S.seen input.new; out = K.seen out.new; err = E.seen err.new }) }
{
    let ending = perform(alloc, words, files, input, out, regs, pages);
    let status = tell(alloc, &ending, err);
    drop(ending);
    status
}

/// Finds the answer to the words, of which the output of a program is put while it runs, and delivers the rest.
fn perform<F: Files, S: Source, K: Sink, R: Shadow, P: Shadow>(
    alloc: Global,
    words: &[String],
    files: &mut F,
    input: &mut S,
    out: &mut K,
    regs: R,
    pages: P,
) -> Ending
    requires registers { IsFresh 2097152 (R.content regs) }
    requires pages { IsFresh 4194304 (P.content pages) }
    ensures { Performs result (map string_bytes words.now)
        (record { files = F.seen files.old; input = S.seen input.old }) (record { files = F.seen files.new; input = S.seen input.new })
        (K.seen out.old) (K.seen out.new) }
{
    match answer(alloc, words, files, input, out, regs, pages) {
        Ok(answer) => {
            let delivered = deliver(alloc, &answer, files, out);
            end_of(answer, delivered)
        }
        Err(failure) => by_failure(failure),
    }
}

/// The call ends by a failure, of which its line alone is told.
fn by_failure(failure: Failure) -> Ending
    ensures { result ≡ failed failure }
{
    Ending {
        failure: Some(failure),
        more: None,
    }
}

/// How the call ends behind an answer, whose delivery came to that.
fn end_of(answer: Answer, delivered: Result<(), Failure>) -> Ending
    ensures { EndsAs result delivered answer }
{
    let Answer {
        out,
        failure,
        more,
        saved,
    } = answer;
    drop(out);
    drop(saved);
    match delivered {
        Ok(()) => Ending { failure, more },
        Err(fault) => {
            drop(failure);
            drop(more);
            by_failure(fault)
        }
    }
}

/// Puts on err what is told of a failure, and answers the status.
fn tell<E: Sink>(alloc: Global, ending: &Ending, err: &mut E) -> u8
    ensures { Tells ending.now.failure ending.now.more result (E.seen err.old) (E.seen err.new) }
{
    match &ending.failure {
        None => 0,
        Some(failure) => match failure.err_text(alloc, &ending.more) {
            Ok(text) => put_text(text.as_slice(), failure.status(), err),
            Err(NoMemory) => put_text(b"kremlin: no memory\n", 8, err),
        },
    }
}

/// Puts a text in one piece, and answers the status, or 8 where memory was wanting for it.
fn put_text<E: Sink>(text: &[u8], status: u8, err: &mut E) -> u8
    ensures { PutsText text.now status result (E.seen err.old) (E.seen err.new) }
{
    match err.put(text) {
        Err(PutFault::Memory) => 8,
        _ => status,
    }
}

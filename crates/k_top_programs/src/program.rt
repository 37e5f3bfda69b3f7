//! The program of a source file and of a table of latencies.
ghost use Rattle.std.specs.Prelude.{◌≡◌, IfOk};
ghost use Rattle.k_evaluation.specs.Laws.{AreAtMost};
ghost use Rattle.k_top_lemmas.specs.Parts.{AcceptsSource, CanRun, is_name};
ghost use Rattle.k_top_lemmas.specs.Phases.{ReadsProgram};

use crate::loading::{FILE_LIMIT, latencies_of, load};
use k_edge::Files;
use k_lex::lex;
use k_marks::mark;
use k_num::{Seq, Text};
use k_optab::Latencies;
use k_parse::parse;
use k_top_answers::Failure;
use k_top_lemmas::Program;
use k_types::check;
use std::alloc::Global;

/// The program of a source.
pub fn accept(alloc: Global, source: &[u8], latencies: Latencies) -> Result<Program, Failure>
    requires { AreAtMost 10000 latencies }
    ensures source { AcceptsSource result source.now }
    ensures can_run { IfOk result CanRun }
    ensures latencies { IfOk result (λ p. p.latencies ≡ latencies) }
    ensures kept { IfOk result (λ p. p.source ≡ source.now) }
{
    let tokens = lex(alloc, source)?;
    let unit = parse(alloc, &tokens)?;
    let typed = check(alloc, &unit)?;
    let marks = mark(alloc, &typed)?;
    let kept = Seq::copy_of(alloc, source)?;
    Ok(Program {
        source: kept,
        typed,
        marks,
        latencies,
    })
}

/// Whether a file that may be named is this one.
fn is_name(name: &Option<Text>, file: &Text) -> bool
    ensures { result ≡ is_name name.now file.now }
{
    match name {
        None => false,
        Some(name) => name.as_str() == file.as_str(),
    }
}

/// The program of a file, with the latencies of another file or the standard ones. The source is loaded, then the table; the
/// table is read, and then the source. A file that is both is loaded once.
pub(crate) fn read_program<F: Files>(
    alloc: Global,
    files: &mut F,
    file: Text,
    latency: Option<Text>,
) -> Result<Program, Failure>
    ensures program { ReadsProgram result file latency (F.seen files.old) (F.seen files.new) }
    ensures can_run { IfOk result CanRun }
{
    let is_source = is_name(&latency, &file);
    let source = load(alloc, files, file, FILE_LIMIT)?;
    let latencies = latencies_of(alloc, files, latency, source.as_slice(), is_source)?;
    accept(alloc, source.as_slice(), latencies)
}

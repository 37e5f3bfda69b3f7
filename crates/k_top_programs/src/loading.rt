//! Files are loaded, and the table of latencies is read.
ghost use Rattle.std.specs.Prelude.{IfOk};
ghost use Rattle.k_evaluation.specs.Laws.{AreAtMost};
ghost use Rattle.k_top_lemmas.specs.Parts.{GivesTable, LoadsFile, LoadsNamed, LoadsTable};

use k_edge::Files;
use k_num::Text;
use k_optab::{Latencies, from_toml, standard};
use k_top_answers::Failure;
use std::alloc::Global;

/// How many bytes a source and a table of latencies may have.
pub const FILE_LIMIT: u64 = 16_777_216;

/// How many bytes a saved profile may have.
pub const PROFILE_LIMIT: u64 = 536_870_912;

/// The content of a file.
pub fn load<F: Files>(
    alloc: Global,
    files: &mut F,
    name: Text,
    limit: u64,
) -> Result<Vec<u8>, Failure>
    ensures { LoadsFile result name limit (F.seen files.old) (F.seen files.new) }
{
    match files.load(alloc, name.as_str(), limit) {
        Ok(bytes) => Ok(bytes),
        Err(fault) => Err(Failure::of_load(name, fault)),
    }
}

/// The latencies of a table.
fn table(alloc: Global, bytes: &[u8]) -> Result<Latencies, Failure>
    ensures table { GivesTable result bytes.now }
    ensures bounded { IfOk result (AreAtMost 10000) }
{
    let latencies = from_toml(alloc, bytes)?;
    Ok(latencies)
}

/// The latencies of a table that is a file of its own.
fn load_table<F: Files>(alloc: Global, files: &mut F, name: Text) -> Result<Latencies, Failure>
    ensures table { LoadsNamed result name (F.seen files.old) (F.seen files.new) }
    ensures bounded { IfOk result (AreAtMost 10000) }
{
    let bytes = load(alloc, files, name, FILE_LIMIT)?;
    table(alloc, bytes.as_slice())
}

/// The latencies of a file that is no other than the source, and so is not loaded again.
pub(crate) fn latencies_of<F: Files>(
    alloc: Global,
    files: &mut F,
    latency: Option<Text>,
    source: &[u8],
    is_source: bool,
) -> Result<Latencies, Failure>
    ensures table { LoadsTable result latency source.now is_source (F.seen files.old) (F.seen files.new) }
    ensures bounded { IfOk result (AreAtMost 10000) }
{
    match latency {
        None => Ok(standard()),
        Some(_) if is_source => table(alloc, source),
        Some(name) => load_table(alloc, files, name),
    }
}

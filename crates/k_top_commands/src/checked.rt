//! The answer of `check`: a source is read and checked, and what is refused is told in its line, on err alone.
ghost use Rattle.std.specs.Prelude.{Err};
ghost use Rattle.k_top_lemmas.specs.Parts.{AcceptsSource, ChecksFile, ChecksSource};

use k_edge::Files;
use k_num::Text;
use k_optab::standard;
use k_top_answers::{Answer, Failure};
use k_top_programs::{FILE_LIMIT, accept, load};
use std::alloc::Global;

/// The answer to a source that is not accepted, in a file of this name: where it is refused, what is told of that on err.
fn refused_answer(
    alloc: Global,
    file: &str,
    source: &[u8],
    failure: Failure,
) -> Result<Answer, Failure>
    requires { AcceptsSource (Err failure) source.now }
    ensures { ChecksSource result file.now source.now }
{
    if !failure.refuses_source() {
        return Err(failure);
    }
    let text = failure.told(alloc, file, source)?;
    Ok(Answer::checked(alloc, text, failure))
}

/// The answer to a source in a file of this name: nothing where it is accepted.
fn source_answer(alloc: Global, file: &str, source: &[u8]) -> Result<Answer, Failure>
    ensures { ChecksSource result file.now source.now }
{
    match accept(alloc, source, standard()) {
        Ok(program) => {
            drop(program);
            Ok(Answer::done(Vec::new(alloc)))
        }
        Err(failure) => refused_answer(alloc, file, source, failure),
    }
}

/// The answer of `check` on a file.
pub fn check_answer<F: Files>(alloc: Global, files: &mut F, file: Text) -> Result<Answer, Failure>
    ensures { ChecksFile result file (F.seen files.old) (F.seen files.new) }
{
    let name = Text::copy_of(alloc, file.as_str())?;
    let bytes = load(alloc, files, name, FILE_LIMIT)?;
    source_answer(alloc, file.as_str(), bytes.as_slice())
}

//! The answer of `show`: a saved profile or a sum by its report, as a JSON document, or its rows as CSV.
ghost use Rattle.std.specs.Prelude.{IfOk};
ghost use Rattle.k_dict_saved.specs.Profile.{IsSaved};
ghost use Rattle.k_sum_read.specs.AnyFile.{BeginsSum};
ghost use Rattle.k_sum_saved.specs.SumRules.{IsSum};
ghost use Rattle.k_top_answers.specs.Answers.{IsShown, IsSumShown};
ghost use Rattle.k_top_lemmas.specs.Parts.{ShowsBytes, ShowsFile};

use k_data_profile::{document_of, table_of};
use k_dict_saved::{Saved, read};
use k_edge::Files;
use k_num::{NoMemory, Text};
use k_report_profile::report_of;
use k_scan::word;
use k_sum::Sum;
use k_sum_read::read_sum;
use k_sum_report::{sum_document, sum_report, sum_table};
use k_top_answers::{Answer, Failure};
use k_top_programs::{PROFILE_LIMIT, load};
use k_words::Form;
use std::alloc::Global;

/// A profile in this form.
fn text_of(alloc: Global, saved: &Saved, form: Form) -> Result<Vec<u8>, NoMemory>
    requires { IsSaved saved.now }
    ensures { IfOk result (λ text. IsShown form saved.now text.items) }
{
    match form {
        Form::Report { dict } => report_of(alloc, saved, dict),
        Form::Json { dict } => document_of(alloc, saved, dict),
        Form::Csv => table_of(alloc, saved),
    }
}

/// A sum in this form.
fn sum_text_of(alloc: Global, sum: &Sum, form: Form) -> Result<Vec<u8>, NoMemory>
    requires { IsSum sum.now }
    ensures { IfOk result (λ text. IsSumShown form sum.now text.items) }
{
    match form {
        Form::Report { dict } => sum_report(alloc, sum, dict),
        Form::Json { dict } => sum_document(alloc, sum, dict),
        Form::Csv => sum_table(alloc, sum),
    }
}

/// The profile that bytes spell, in this form.
fn profile_answer(alloc: Global, bytes: &[u8], form: Form) -> Result<Answer, Failure>
    requires { ¬ BeginsSum bytes.now }
    ensures { ShowsBytes result bytes.now form }
{
    let saved = read(alloc, bytes)?;
    let text = text_of(alloc, &saved, form)?;
    Ok(Answer::done(text))
}

/// The sum that bytes spell, in this form.
fn sum_answer(alloc: Global, bytes: &[u8], form: Form) -> Result<Answer, Failure>
    requires { BeginsSum bytes.now }
    ensures { ShowsBytes result bytes.now form }
{
    let sum = read_sum(alloc, bytes)?;
    let text = sum_text_of(alloc, &sum, form)?;
    Ok(Answer::done(text))
}

/// What bytes spell, in this form: a sum where their first line is that of one, and else a profile.
fn bytes_answer(alloc: Global, bytes: &[u8], form: Form) -> Result<Answer, Failure>
    ensures { ShowsBytes result bytes.now form }
{
    match word(b"kremlin sum 1\n", bytes) {
        Some(_) => sum_answer(alloc, bytes, form),
        None => profile_answer(alloc, bytes, form),
    }
}

/// The answer of `show` on a file.
pub fn show_answer<F: Files>(
    alloc: Global,
    files: &mut F,
    file: Text,
    form: Form,
) -> Result<Answer, Failure>
    ensures { ShowsFile result file form (F.seen files.old) (F.seen files.new) }
{
    let bytes = load(alloc, files, file, PROFILE_LIMIT)?;
    bytes_answer(alloc, bytes.as_slice(), form)
}

//! What the words ask for, and the answer to it.
ghost use Rattle.std.specs.Prelude.{◌≡◌, false, None, IfOk, map, string_bytes};
ghost use Rattle.k_words.specs.About.{asked_for};
ghost use Rattle.k_words.specs.Within.{IsJobWithin, IsReplayWithin, IsRunWithin};
ghost use Rattle.k_words.specs.declared.job.Job.TheVariants as job;
ghost use Rattle.k_top.specs.Jobs.{keeps_times};
ghost use Rattle.k_top_answers.specs.Answers.{done};
ghost use Rattle.k_top_lemmas.specs.Parts.{GivesText, IsFresh};
ghost use Rattle.k_top_lemmas.specs.Phases.{FindsJob};
ghost use Rattle.k_top_lemmas.specs.Streams.{StreamsAnswer, StreamsJob};

use k_edge::{Files, Sink, Source};
use k_num::{NoMemory, Text};
use k_shadow::Shadow;
use k_top_answers::{Answer, Failure};
use k_top_commands::{
    annotate_answer, carried_answer, check_answer, demo_answer, graph_answer, page_answer,
    replay_answer, run_answer, show_answer,
};
use k_top_merge::merge_answer;
use k_top_programs::make_ready;
use k_words::{Asked, Form, Job, asked_for, help, version, words};
use std::alloc::Global;

/// A text as an answer.
fn as_answer(alloc: Global, text: &str) -> Result<Answer, NoMemory>
    ensures { IfOk result (λ answer. answer ≡ done text.now) }
{
    Ok(Answer::done(Vec::from_slice(alloc, text.as_bytes())?))
}

/// The answer that is a text on the program itself.
fn text_answer(alloc: Global, text: &str) -> Result<Answer, Failure>
    ensures { GivesText result text.now }
{
    let answer = as_answer(alloc, text)?;
    Ok(answer)
}

/// The rest of the answer of `run` with its options, whose output is put while the program runs.
fn run_job<F: Files, S: Source, K: Sink, R: Shadow, P: Shadow>(
    alloc: Global,
    files: &mut F,
    input: &mut S,
    out: &mut K,
    file: Text,
    steps: u64,
    depth: u32,
    latency: Option<Text>,
    dict: bool,
    save: Option<Text>,
    regs: R,
    pages: P,
) -> Result<Answer, Failure>
    requires within { IsRunWithin 1000000000 steps depth }
    requires registers { IsFresh 2097152 (R.content regs) }
    requires pages { IsFresh 4194304 (P.content pages) }
    ensures { StreamsJob result (job.Run file steps depth latency dict save)
        (record { files = F.seen files.old; input = S.seen input.old }) (record { files = F.seen files.new; input = S.seen input.new })
        (K.seen out.old) (K.seen out.new) }
{
    let ready = make_ready(alloc, files, input, file, latency, steps)?;
    run_answer(alloc, &ready, depth, dict, save, out, regs, pages)
}

/// The answer of `graph` with its options.
fn graph_job<F: Files, S: Source>(
    alloc: Global,
    files: &mut F,
    input: &mut S,
    file: Text,
    steps: u64,
    depth: u32,
    latency: Option<Text>,
) -> Result<Answer, Failure>
    requires { IsRunWithin 200000 steps depth }
    ensures { FindsJob result (job.Graph file steps depth latency)
        (record { files = F.seen files.old; input = S.seen input.old }) (record { files = F.seen files.new; input = S.seen input.new }) }
{
    let ready = make_ready(alloc, files, input, file, latency, steps)?;
    let answer = graph_answer(alloc, &ready, depth)?;
    Ok(answer)
}

/// The answer of `carried` with its options.
fn carried_job<F: Files, S: Source>(
    alloc: Global,
    files: &mut F,
    input: &mut S,
    file: Text,
    steps: u64,
    depth: u32,
    latency: Option<Text>,
    storage: bool,
) -> Result<Answer, Failure>
    requires { IsRunWithin 1000000000 steps depth }
    ensures { FindsJob result (job.Carried file steps depth latency storage)
        (record { files = F.seen files.old; input = S.seen input.old }) (record { files = F.seen files.new; input = S.seen input.new }) }
{
    let ready = make_ready(alloc, files, input, file, latency, steps)?;
    let answer = carried_answer(alloc, &ready, depth, storage)?;
    Ok(answer)
}

/// The answer of `replay` with its options.
fn replay_job<F: Files, S: Source>(
    alloc: Global,
    files: &mut F,
    input: &mut S,
    file: Text,
    steps: u64,
    depth: u32,
    latency: Option<Text>,
    workers: u32,
    seed: u64,
) -> Result<Answer, Failure>
    requires { IsReplayWithin steps depth workers seed }
    ensures { FindsJob result (job.Replay file steps depth latency workers seed)
        (record { files = F.seen files.old; input = S.seen input.old }) (record { files = F.seen files.new; input = S.seen input.new }) }
{
    let ready = make_ready(alloc, files, input, file, latency, steps)?;
    let answer = replay_answer(alloc, &ready, workers, seed)?;
    Ok(answer)
}

/// The answer of `page` with its options.
fn page_job<F: Files, S: Source, R: Shadow, P: Shadow>(
    alloc: Global,
    files: &mut F,
    input: &mut S,
    file: Text,
    steps: u64,
    depth: u32,
    latency: Option<Text>,
    dict: bool,
    regs: R,
    pages: P,
) -> Result<Answer, Failure>
    requires within { IsRunWithin 1000000000 steps depth }
    requires registers { IsFresh 2097152 (R.content regs) }
    requires pages { IsFresh 4194304 (P.content pages) }
    ensures { FindsJob result (job.Page file steps depth latency dict)
        (record { files = F.seen files.old; input = S.seen input.old }) (record { files = F.seen files.new; input = S.seen input.new }) }
{
    let name = Text::copy_of(alloc, file.as_str())?;
    let ready = make_ready(alloc, files, input, file, latency, steps)?;
    let answer = page_answer(alloc, name.as_str(), &ready, depth, dict, regs, pages)?;
    Ok(answer)
}

/// The answer of `annotate` with its options.
fn annotate_job<F: Files, S: Source, R: Shadow, P: Shadow>(
    alloc: Global,
    files: &mut F,
    input: &mut S,
    file: Text,
    steps: u64,
    depth: u32,
    latency: Option<Text>,
    strict: bool,
    regs: R,
    pages: P,
) -> Result<Answer, Failure>
    requires within { IsRunWithin 1000000000 steps depth }
    requires registers { IsFresh 2097152 (R.content regs) }
    requires pages { IsFresh 4194304 (P.content pages) }
    ensures { FindsJob result (job.Annotate file steps depth latency strict)
        (record { files = F.seen files.old; input = S.seen input.old }) (record { files = F.seen files.new; input = S.seen input.new }) }
{
    let ready = make_ready(alloc, files, input, file, latency, steps)?;
    let answer = annotate_answer(alloc, &ready, depth, strict, regs, pages)?;
    Ok(answer)
}

/// The answer to what is asked for, where no times are kept.
fn untimed_answer<F: Files, S: Source>(
    alloc: Global,
    job: Job,
    files: &mut F,
    input: &mut S,
) -> Result<Answer, Failure>
    requires within { IsJobWithin job }
    requires untimed { keeps_times job ≡ false }
    ensures { FindsJob result job
        (record { files = F.seen files.old; input = S.seen input.old }) (record { files = F.seen files.new; input = S.seen input.new }) }
{
    match job {
        Job::Graph {
            file,
            steps,
            depth,
            latency,
        } => graph_job(alloc, files, input, file, steps, depth, latency),
        Job::Carried {
            file,
            steps,
            depth,
            latency,
            storage,
        } => carried_job(alloc, files, input, file, steps, depth, latency, storage),
        Job::Replay {
            file,
            steps,
            depth,
            latency,
            workers,
            seed,
        } => replay_job(
            alloc, files, input, file, steps, depth, latency, workers, seed,
        ),
        Job::Show { file, dict } => show_answer(alloc, files, file, Form::Report { dict }),
        Job::ShowJson { file, dict } => show_answer(alloc, files, file, Form::Json { dict }),
        Job::ShowCsv { file } => show_answer(alloc, files, file, Form::Csv),
        Job::Merge { save, parts } => merge_answer(alloc, files, save, &parts),
        Job::Check { file } => check_answer(alloc, files, file),
        _ => unreachable!(),
    }
}

/// The rest of the answer to what is asked for. Only a program that `run` runs puts any of it.
fn job_answer<F: Files, S: Source, K: Sink, R: Shadow, P: Shadow>(
    alloc: Global,
    job: Job,
    files: &mut F,
    input: &mut S,
    out: &mut K,
    regs: R,
    pages: P,
) -> Result<Answer, Failure>
    requires within { IsJobWithin job }
    requires registers { IsFresh 2097152 (R.content regs) }
    requires pages { IsFresh 4194304 (P.content pages) }
    ensures { StreamsJob result job
        (record { files = F.seen files.old; input = S.seen input.old }) (record { files = F.seen files.new; input = S.seen input.new })
        (K.seen out.old) (K.seen out.new) }
{
    match job {
        Job::Run {
            file,
            steps,
            depth,
            latency,
            dict,
            save,
        } => run_job(
            alloc, files, input, out, file, steps, depth, latency, dict, save, regs, pages,
        ),
        Job::Page {
            file,
            steps,
            depth,
            latency,
            dict,
        } => page_job(
            alloc, files, input, file, steps, depth, latency, dict, regs, pages,
        ),
        Job::Annotate {
            file,
            steps,
            depth,
            latency,
            strict,
        } => annotate_job(
            alloc, files, input, file, steps, depth, latency, strict, regs, pages,
        ),
        Job::Demo { number, loops } => demo_answer(alloc, number, loops, regs, pages),
        other => {
            drop(regs);
            drop(pages);
            untimed_answer(alloc, other, files, input)
        }
    }
}

/// The rest of the answer to words that ask for no text on the program itself.
fn words_answer<F: Files, S: Source, K: Sink, R: Shadow, P: Shadow>(
    alloc: Global,
    list: &[String],
    files: &mut F,
    input: &mut S,
    out: &mut K,
    regs: R,
    pages: P,
) -> Result<Answer, Failure>
    requires none { asked_for (map string_bytes list.now) ≡ None }
    requires registers { IsFresh 2097152 (R.content regs) }
    requires pages { IsFresh 4194304 (P.content pages) }
    ensures { StreamsAnswer result (map string_bytes list.now)
        (record { files = F.seen files.old; input = S.seen input.old }) (record { files = F.seen files.new; input = S.seen input.new })
        (K.seen out.old) (K.seen out.new) }
{
    let job = words(alloc, list)?;
    job_answer(alloc, job, files, input, out, regs, pages)
}

/// The rest of the answer to the words, of which nothing is saved yet, and nothing put but the output of a program that `run` runs.
pub(crate) fn answer<F: Files, S: Source, K: Sink, R: Shadow, P: Shadow>(
    alloc: Global,
    list: &[String],
    files: &mut F,
    input: &mut S,
    out: &mut K,
    regs: R,
    pages: P,
) -> Result<Answer, Failure>
    requires registers { IsFresh 2097152 (R.content regs) }
    requires pages { IsFresh 4194304 (P.content pages) }
    ensures { StreamsAnswer result (map string_bytes list.now)
        (record { files = F.seen files.old; input = S.seen input.old }) (record { files = F.seen files.new; input = S.seen input.new })
        (K.seen out.old) (K.seen out.new) }
{
    match asked_for(list) {
        Some(Asked::Help) => {
            drop(regs);
            drop(pages);
            text_answer(alloc, help())
        }
        Some(Asked::Version) => {
            drop(regs);
            drop(pages);
            text_answer(alloc, version())
        }
        None => words_answer(alloc, list, files, input, out, regs, pages),
    }
}

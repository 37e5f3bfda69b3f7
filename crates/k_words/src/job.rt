//! What the words of the command line ask for.
ghost use Rattle.std.specs.Prelude.{◌≡◌, MatchResult, IfOk, option_map};
ghost use Rattle.k_words.specs.Settings.{IsFirst, seen, seen_words};
ghost use Rattle.k_words.specs.Words.{Answers, IsAnswer, ReadsFile, annotate_job, carried_job, check_job, command_of, demo_fault, demo_job, file_fault, graph_job, is_no_file, merge_fault, merge_job, page_job, replay_job, run_job, show_job, shown_as, form_of};

use crate::merging::{Part, are_files, parts_of};
use crate::number::number_within;
use crate::option::{
    Command, LISTED_STEPS, STANDARD_DEPTH, STANDARD_SEED, STANDARD_STEPS, STANDARD_WORKERS,
};
use crate::settings::{Settings, read_settings};
use crate::usage::Usage;
use k_num::{NoMemory, Seq, Text};
use std::alloc::Global;

/// How a saved profile is shown.
#[derive(Clone, Copy, Debug, PartialEq, Eq)]
pub enum Form {
    /// By its report, in which the dictionary is listed where this is asked for.
    Report { dict: bool },
    /// By a JSON document, which has the dictionary where this is asked for.
    Json { dict: bool },
    /// By its rows as CSV.
    Csv,
}

/// What is asked for.
#[derive(Debug, PartialEq, Eq, Drop)]
pub enum Job {
    /// A program is run, of at most so many operations, and profiled to so many levels, by the latencies of the standard
    /// or of a file. The dictionary is listed with the report, and the profile is saved, where this is asked for.
    Run {
        file: Text,
        steps: u64,
        depth: u32,
        latency: Option<Text>,
        dict: bool,
        save: Option<Text>,
    },
    /// The events of a program's run are listed, and a heaviest path for each instance.
    Graph {
        file: Text,
        steps: u64,
        depth: u32,
        latency: Option<Text>,
    },
    /// What the loops of a program's run carry from turn to turn is listed, and what their turns share in storage where this is asked for.
    Carried {
        file: Text,
        steps: u64,
        depth: u32,
        latency: Option<Text>,
        storage: bool,
    },
    /// So many workers fire the operations of a program's run in an order that is drawn from a number.
    Replay {
        file: Text,
        steps: u64,
        depth: u32,
        latency: Option<Text>,
        workers: u32,
        seed: u64,
    },
    /// A program is run as by `run`, and its profile is written as one page of HTML, with the dictionary where this is asked for.
    Page {
        file: Text,
        steps: u64,
        depth: u32,
        latency: Option<Text>,
        dict: bool,
    },
    /// A program is run as by `run`, and its source is written with what its functions and loops took, and with an OpenMP line before each loop that may be
    /// marked; none before a loop whose turns share storage, where this is asked for.
    Annotate {
        file: Text,
        steps: u64,
        depth: u32,
        latency: Option<Text>,
        strict: bool,
    },
    /// The report of a saved profile is shown, with the dictionary listed where this is asked for.
    Show {
        file: Text,
        dict: bool,
    },
    /// A saved profile is shown by a JSON document, which has the dictionary where this is asked for.
    ShowJson {
        file: Text,
        dict: bool,
    },
    /// The rows of a saved profile are shown as CSV.
    ShowCsv {
        file: Text,
    },
    /// The runs of saved profiles and of sums are put together, and their sum is saved.
    Merge {
        save: Text,
        parts: Seq<Part>,
    },
    /// A source is read and checked, and not run.
    Check {
        file: Text,
    },
    /// A program of so many loops is made from a number, run and summed up.
    Demo {
        number: u64,
        loops: u32,
    },
}

/// What the words behind the program's own name ask for. The fault of the first wrong word is answered.
pub fn words(alloc: Global, list: &[String]) -> Result<Job, Usage>
    ensures { IsAnswer (seen_words list.now) result }
{
    let Some((command, arguments)) = list.split_first() else {
        return Err(Usage::NoCommand);
    };
    match command_of(command.as_str()) {
        Some(Command::Run) => run_job(alloc, arguments),
        Some(Command::Graph) => graph_job(alloc, arguments),
        Some(Command::Carried) => carried_job(alloc, arguments),
        Some(Command::Replay) => replay_job(alloc, arguments),
        Some(Command::Page) => page_job(alloc, arguments),
        Some(Command::Annotate) => annotate_job(alloc, arguments),
        Some(Command::Show) => show_job(alloc, arguments),
        Some(Command::Merge) => merge_job(alloc, arguments),
        Some(Command::Check) => check_job(alloc, arguments),
        Some(Command::Demo) => demo_job(arguments),
        None => Err(Usage::UnknownWord(0)),
    }
}

/// The command of this name.
#[tactic(auto, unfolding(crate::specs::Words::command_of))]
fn command_of(word: &str) -> Option<Command>
    ensures { result ≡ command_of word.now }
{
    if word == "run" {
        Some(Command::Run)
    } else if word == "graph" {
        Some(Command::Graph)
    } else if word == "carried" {
        Some(Command::Carried)
    } else if word == "replay" {
        Some(Command::Replay)
    } else if word == "page" {
        Some(Command::Page)
    } else if word == "annotate" {
        Some(Command::Annotate)
    } else if word == "show" {
        Some(Command::Show)
    } else if word == "merge" {
        Some(Command::Merge)
    } else if word == "check" {
        Some(Command::Check)
    } else if word == "demo" {
        Some(Command::Demo)
    } else {
        None
    }
}

/// What `run` with these arguments asks for.
fn run_job(alloc: Global, arguments: &[String]) -> Result<Job, Usage>
    ensures { Answers (file_fault Command.Run (seen_words arguments.now)) (run_job (seen_words arguments.now)) result }
{
    let (file, settings) = match file_and_settings(Command::Run, arguments) {
        Ok(read) => read,
        Err(fault) => return Err(fault),
    };
    Ok(Job::Run {
        file: Text::copy_of(alloc, file)?,
        steps: settings.steps.unwrap_or(STANDARD_STEPS),
        depth: settings.depth.unwrap_or(STANDARD_DEPTH),
        latency: copy_of_name(alloc, settings.latency)?,
        dict: settings.dict,
        save: copy_of_name(alloc, settings.save)?,
    })
}

/// What `graph` with these arguments asks for.
fn graph_job(alloc: Global, arguments: &[String]) -> Result<Job, Usage>
    ensures { Answers (file_fault Command.Graph (seen_words arguments.now)) (graph_job (seen_words arguments.now)) result }
{
    let (file, settings) = match file_and_settings(Command::Graph, arguments) {
        Ok(read) => read,
        Err(fault) => return Err(fault),
    };
    Ok(Job::Graph {
        file: Text::copy_of(alloc, file)?,
        steps: settings.steps.unwrap_or(LISTED_STEPS),
        depth: settings.depth.unwrap_or(STANDARD_DEPTH),
        latency: copy_of_name(alloc, settings.latency)?,
    })
}

/// What `carried` with these arguments asks for.
fn carried_job(alloc: Global, arguments: &[String]) -> Result<Job, Usage>
    ensures { Answers (file_fault Command.Carried (seen_words arguments.now)) (carried_job (seen_words arguments.now)) result }
{
    let (file, settings) = match file_and_settings(Command::Carried, arguments) {
        Ok(read) => read,
        Err(fault) => return Err(fault),
    };
    Ok(Job::Carried {
        file: Text::copy_of(alloc, file)?,
        steps: settings.steps.unwrap_or(STANDARD_STEPS),
        depth: settings.depth.unwrap_or(STANDARD_DEPTH),
        latency: copy_of_name(alloc, settings.latency)?,
        storage: settings.storage,
    })
}

/// What `replay` with these arguments asks for.
fn replay_job(alloc: Global, arguments: &[String]) -> Result<Job, Usage>
    ensures { Answers (file_fault Command.Replay (seen_words arguments.now)) (replay_job (seen_words arguments.now)) result }
{
    let (file, settings) = match file_and_settings(Command::Replay, arguments) {
        Ok(read) => read,
        Err(fault) => return Err(fault),
    };
    Ok(Job::Replay {
        file: Text::copy_of(alloc, file)?,
        steps: settings.steps.unwrap_or(LISTED_STEPS),
        depth: settings.depth.unwrap_or(STANDARD_DEPTH),
        latency: copy_of_name(alloc, settings.latency)?,
        workers: settings.workers.unwrap_or(STANDARD_WORKERS),
        seed: settings.seed.unwrap_or(STANDARD_SEED),
    })
}

/// What `page` with these arguments asks for.
fn page_job(alloc: Global, arguments: &[String]) -> Result<Job, Usage>
    ensures { Answers (file_fault Command.Page (seen_words arguments.now)) (page_job (seen_words arguments.now)) result }
{
    let (file, settings) = match file_and_settings(Command::Page, arguments) {
        Ok(read) => read,
        Err(fault) => return Err(fault),
    };
    Ok(Job::Page {
        file: Text::copy_of(alloc, file)?,
        steps: settings.steps.unwrap_or(STANDARD_STEPS),
        depth: settings.depth.unwrap_or(STANDARD_DEPTH),
        latency: copy_of_name(alloc, settings.latency)?,
        dict: settings.dict,
    })
}

/// What `annotate` with these arguments asks for.
fn annotate_job(alloc: Global, arguments: &[String]) -> Result<Job, Usage>
    ensures { Answers (file_fault Command.Annotate (seen_words arguments.now)) (annotate_job (seen_words arguments.now)) result }
{
    let (file, settings) = match file_and_settings(Command::Annotate, arguments) {
        Ok(read) => read,
        Err(fault) => return Err(fault),
    };
    Ok(Job::Annotate {
        file: Text::copy_of(alloc, file)?,
        steps: settings.steps.unwrap_or(STANDARD_STEPS),
        depth: settings.depth.unwrap_or(STANDARD_DEPTH),
        latency: copy_of_name(alloc, settings.latency)?,
        strict: settings.strict,
    })
}

/// How `show` with these options shows a profile.
fn form_of(settings: &Settings<'_>) -> Form
    ensures { result ≡ form_of (seen settings.now) }
{
    let dict = settings.dict;
    if settings.csv {
        Form::Csv
    } else if settings.json {
        Form::Json { dict }
    } else {
        Form::Report { dict }
    }
}

/// What is asked for where a file is to be shown in this form.
fn shown_as(file: Text, form: Form) -> Job
    ensures { result ≡ shown_as file form }
{
    match form {
        Form::Report { dict } => Job::Show { file, dict },
        Form::Json { dict } => Job::ShowJson { file, dict },
        Form::Csv => Job::ShowCsv { file },
    }
}

/// What `show` with these arguments asks for.
fn show_job(alloc: Global, arguments: &[String]) -> Result<Job, Usage>
    ensures { Answers (file_fault Command.Show (seen_words arguments.now)) (show_job (seen_words arguments.now)) result }
{
    let (file, settings) = match file_and_settings(Command::Show, arguments) {
        Ok(read) => read,
        Err(fault) => return Err(fault),
    };
    let file = Text::copy_of(alloc, file)?;
    Ok(shown_as(file, form_of(&settings)))
}

/// What `merge` with these arguments asks for.
fn merge_job(alloc: Global, arguments: &[String]) -> Result<Job, Usage>
    ensures { Answers (merge_fault (seen_words arguments.now)) (merge_job (seen_words arguments.now)) result }
{
    if let Err(fault) = are_files(arguments) {
        return Err(fault);
    }
    let Some((save, files)) = arguments.split_first() else {
        return Err(Usage::NoFile);
    };
    Ok(Job::Merge {
        save: Text::copy_of(alloc, save.as_str())?,
        parts: parts_of(alloc, files)?,
    })
}

/// What `check` with these arguments asks for.
fn check_job(alloc: Global, arguments: &[String]) -> Result<Job, Usage>
    ensures { Answers (file_fault Command.Check (seen_words arguments.now)) (check_job (seen_words arguments.now)) result }
{
    match file_and_settings(Command::Check, arguments) {
        Ok((file, _)) => Ok(Job::Check {
            file: Text::copy_of(alloc, file)?,
        }),
        Err(fault) => Err(fault),
    }
}

/// What `demo` with these arguments asks for.
fn demo_job(arguments: &[String]) -> Result<Job, Usage>
    ensures { Answers (demo_fault (seen_words arguments.now)) (demo_job (seen_words arguments.now)) result }
{
    let Some((number, rest)) = arguments.split_first() else {
        return Err(Usage::NoFile);
    };
    let Some(number) = number_within(number.as_str(), 0, u64::MAX) else {
        return Err(Usage::BadNumber(1));
    };
    let Some((loops, rest)) = rest.split_first() else {
        return Err(Usage::NoFile);
    };
    let Some(loops) = number_within(loops.as_str(), 1, 2_000) else {
        return Err(Usage::BadNumber(2));
    };
    match rest.split_first() {
        None => Ok(Job::Demo {
            number,
            loops: loops as u32,
        }),
        Some(_) => Err(Usage::UnknownWord(3)),
    }
}

/// The file and the options of a command, from its arguments.
fn file_and_settings(command: Command, arguments: &[String]) -> Result<(&str, Settings<'_>), Usage>
    ensures { MatchResult result (λ read. ReadsFile command (seen_words arguments.now) read.0.now (seen read.1)) (IsFirst (file_fault command (seen_words arguments.now))) }
{
    let Some((file, rest)) = arguments.split_first() else {
        return Err(Usage::NoFile);
    };
    if is_no_file(file.as_str()) {
        return Err(Usage::NoFile);
    }
    match read_settings(command, rest) {
        Ok(settings) => Ok((file.as_str(), settings)),
        Err(fault) => Err(fault),
    }
}

/// Whether a word can't name a file.
pub(crate) fn is_no_file(word: &str) -> bool
    ensures { result ≡ is_no_file word.now }
{
    word.is_empty() || word.starts_with("--")
}

/// A file's name as a text of its own.
fn copy_of_name(alloc: Global, name: Option<&str>) -> Result<Option<Text>, NoMemory>
    ensures { IfOk result (λ text. text ≡ option_map (λ file. file.now) name.entry) }
{
    match name {
        None => Ok(None),
        Some(name) => Ok(Some(Text::copy_of(alloc, name)?)),
    }
}

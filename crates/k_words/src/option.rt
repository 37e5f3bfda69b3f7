//! The options of the commands, each by itself.
ghost use Rattle.std.specs.Prelude.{◌≡◌, option_map};
ghost use Rattle.k_words.specs.Setting.{after, flag_of, has_setting, is_taken, most_steps, named, option_of, options, written_as};

/// What the first word asks for.
#[derive(Clone, Copy, Debug, PartialEq, Eq)]
pub enum Command {
    Run,
    Graph,
    Carried,
    Replay,
    Page,
    Annotate,
    Show,
    Merge,
    Check,
    Demo,
}

/// What an option sets.
#[derive(Clone, Copy, Debug, PartialEq, Eq)]
pub enum Setting {
    /// How many operations the run may make.
    Steps,
    /// How many levels of regions are tracked.
    Depth,
    /// The file of the table of latencies.
    Latency,
    /// The dictionary is listed.
    Dict,
    /// The file that the profile is saved in.
    Save,
    /// What loops share in storage is listed too.
    Storage,
    /// A loop is marked only where its turns share nothing in storage.
    Strict,
    /// How many workers there are.
    Workers,
    /// The number that their order is drawn from.
    Seed,
    /// The profile is written as a JSON document.
    Json,
    /// The rows are written as CSV.
    Csv,
}

/// Which option of a command a word is, and the value in it.
#[tactic(auto, unfolding(crate::specs::Setting::option_of))]
pub(crate) fn option_of(command: Command, word: &str) -> Option<(Setting, &str)>
    ensures { option_map (λ o. (o.0, o.1.now)) result ≡ option_of command word.now }
{
    match written_as(word) {
        Some((setting, value)) if is_taken(command, setting) => Some((setting, value)),
        _ => None,
    }
}

/// Which option a word is, whatever the command, and the value in it. A file has a name.
fn written_as(word: &str) -> Option<(Setting, &str)>
    ensures { option_map (λ o. (o.0, o.1.now)) result ≡ written_as word.now }
{
    if let Some(value) = after("--steps=", word) {
        return Some((Setting::Steps, value));
    }
    if let Some(value) = after("--depth=", word) {
        return Some((Setting::Depth, value));
    }
    if let Some(value) = after("--latency=", word) {
        return named(Setting::Latency, value);
    }
    if let Some(value) = after("--save=", word) {
        return named(Setting::Save, value);
    }
    if let Some(value) = after("--workers=", word) {
        return Some((Setting::Workers, value));
    }
    if let Some(value) = after("--seed=", word) {
        return Some((Setting::Seed, value));
    }
    match flag_of(word) {
        Some(setting) => Some((setting, "")),
        None => None,
    }
}

/// Which option without a value a word is, whatever the command.
fn flag_of(word: &str) -> Option<Setting>
    ensures { result ≡ flag_of word.now }
{
    if word == "--dict" {
        Some(Setting::Dict)
    } else if word == "--storage" {
        Some(Setting::Storage)
    } else if word == "--strict" {
        Some(Setting::Strict)
    } else if word == "--json" {
        Some(Setting::Json)
    } else if word == "--csv" {
        Some(Setting::Csv)
    } else {
        None
    }
}

/// A file as an option's value, where it has a name.
fn named(setting: Setting, value: &str) -> Option<(Setting, &str)>
    ensures { option_map (λ o. (o.0, o.1.now)) result ≡ named setting value.now }
{
    if value.is_empty() {
        None
    } else {
        Some((setting, value))
    }
}

/// What follows a text at the front of a word.
#[tactic(auto, unfolding(crate::specs::Setting::after))]
fn after<'a>(front: &str, word: &'a str) -> Option<&'a str>
    ensures { option_map (λ rest. rest.now) result ≡ after front.now word.now }
{
    word.strip_prefix(front)
}

/// Whether a command takes an option.
fn is_taken(command: Command, setting: Setting) -> bool
    ensures { result ≡ is_taken command setting }
{
    match command {
        Command::Run => is_of_run(setting) || matches!(setting, Setting::Dict | Setting::Save),
        Command::Graph => is_of_run(setting),
        Command::Carried => is_of_run(setting) || matches!(setting, Setting::Storage),
        Command::Replay => is_of_run(setting)
            || matches!(setting, Setting::Workers | Setting::Seed),
        Command::Page => is_of_run(setting) || matches!(setting, Setting::Dict),
        Command::Annotate => is_of_run(setting) || matches!(setting, Setting::Strict),
        Command::Show => matches!(setting, Setting::Dict | Setting::Json | Setting::Csv),
        Command::Merge | Command::Check | Command::Demo => false,
    }
}

/// Whether each command that runs a program takes an option.
fn is_of_run(setting: Setting) -> bool
    ensures { result ≡ has_setting (options Command.Graph) setting }
{
    matches!(setting, Setting::Steps | Setting::Depth | Setting::Latency)
}

/// How many operations `run`, `carried`, `page` and `annotate` make at most where they are not told, and `demo`.
pub const STANDARD_STEPS: u64 = 100_000_000;

/// How many operations `graph` and `replay`, which keep them all, make at most where they are not told.
pub const LISTED_STEPS: u64 = 200_000;

/// Instances of depths below this are tracked where a command is not told.
pub const STANDARD_DEPTH: u32 = 24;

/// How many workers there are where `replay` is not told.
pub const STANDARD_WORKERS: u32 = 4;

/// The number that their order is drawn from where `replay` is not told.
pub const STANDARD_SEED: u64 = 1;

/// How many operations a command's run may make at most.
pub(crate) fn most_steps(command: Command) -> u64
    ensures { result ≡ most_steps command }
{
    if matches!(command, Command::Graph | Command::Replay) {
        200_000
    } else {
        1_000_000_000
    }
}

//! The options of a command, read from its words.
ghost use Rattle.std.specs.Prelude.{◌≡◌, MatchResult, Some, option_map};
ghost use Rattle.k_words.specs.Settings.{IsFirst, ReadsAll, TakesWord, bars, seen, seen_words, set, settings_fault, word_fault};

use crate::number::number_within;
use crate::option::{Command, Setting, most_steps, option_of};
use crate::usage::Usage;

/// The options that were given, each with its value.
#[derive(Clone, Copy)]
pub(crate) struct Settings<'a> {
    pub(crate) steps: Option<u64>,
    pub(crate) depth: Option<u32>,
    pub(crate) latency: Option<&'a str>,
    pub(crate) dict: bool,
    pub(crate) save: Option<&'a str>,
    pub(crate) storage: bool,
    pub(crate) strict: bool,
    pub(crate) workers: Option<u32>,
    pub(crate) seed: Option<u64>,
    pub(crate) json: bool,
    pub(crate) csv: bool,
}

/// The options of a command, from the words behind its file, of which the first has index 2.
pub(crate) fn read_settings(command: Command, words: &[String]) -> Result<Settings<'_>, Usage>
    ensures { MatchResult result (λ settings. ReadsAll command (seen_words words.now) (seen settings)) (IsFirst (settings_fault command (seen_words words.now))) }
{
    let mut settings = Settings {
        steps: None,
        depth: None,
        latency: None,
        dict: false,
        save: None,
        storage: false,
        strict: false,
        workers: None,
        seed: None,
        json: false,
        csv: false,
    };
    let mut index = 2;
    'words: for word in words {
        settings = match with_word(settings, command, word.as_str(), index) {
            Ok(settings) => settings,
            Err(fault) => return Err(fault),
        };
        index += 1;
    }
    Ok(settings)
}

/// The options with that of one word more.
fn with_word<'a>(
    settings: Settings<'a>,
    command: Command,
    word: &'a str,
    index: u32,
) -> Result<Settings<'a>, Usage>
    ensures { MatchResult result (λ new. TakesWord command (seen settings.entry) word.now index (seen new)) (λ fault. word_fault command (bars (seen settings.entry)) word.now index ≡ Some fault) }
{
    let Some((setting, value)) = option_of(command, word) else {
        return Err(Usage::UnknownWord(index));
    };
    if bars(&settings, setting) {
        return Err(Usage::Twice(index));
    }
    match with(settings, command, setting, value) {
        Some(settings) => Ok(settings),
        None => Err(Usage::BadNumber(index)),
    }
}

/// Whether an option was given that another can't stand behind: the option itself, and of the two forms of `show` the other one; a table has no
/// dictionary.
fn bars(settings: &Settings<'_>, setting: Setting) -> bool
    ensures { result ≡ bars (seen settings.now) setting }
{
    match setting {
        Setting::Steps => settings.steps.is_some(),
        Setting::Depth => settings.depth.is_some(),
        Setting::Latency => settings.latency.is_some(),
        Setting::Dict => settings.dict || settings.csv,
        Setting::Save => settings.save.is_some(),
        Setting::Storage => settings.storage,
        Setting::Strict => settings.strict,
        Setting::Workers => settings.workers.is_some(),
        Setting::Seed => settings.seed.is_some(),
        Setting::Json => settings.json || settings.csv,
        Setting::Csv => settings.csv || settings.json || settings.dict,
    }
}

/// The options with one more, where its value is one that it may have.
fn with<'a>(
    settings: Settings<'a>,
    command: Command,
    setting: Setting,
    value: &'a str,
) -> Option<Settings<'a>>
    ensures { option_map seen result ≡ set command (seen settings.entry) setting value.now }
{
    let mut settings = settings;
    match setting {
        Setting::Steps => settings.steps = Some(number_within(value, 1, most_steps(command))?),
        Setting::Depth => settings.depth = Some(number_within(value, 1, 32)? as u32),
        Setting::Latency => settings.latency = Some(value),
        Setting::Dict => settings.dict = true,
        Setting::Save => settings.save = Some(value),
        Setting::Storage => settings.storage = true,
        Setting::Strict => settings.strict = true,
        Setting::Workers => settings.workers = Some(number_within(value, 1, 16)? as u32),
        Setting::Seed => settings.seed = Some(number_within(value, 0, u64::MAX)?),
        Setting::Json => settings.json = true,
        Setting::Csv => settings.csv = true,
    }
    Some(settings)
}

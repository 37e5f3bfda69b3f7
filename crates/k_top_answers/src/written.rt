//! What is told of a failure.
ghost use Rattle.std.specs.Prelude.{◌≡◌, Some, IfOk, string_bytes};
ghost use Rattle.std.specs.Fmt.{DisplaysOnOk};
ghost use Rattle.k_top_answers.specs.Failures.{err_text, failure_line, failure_text, saved_in_text};
ghost use Rattle.k_top_answers.specs.Refusals.{about, at_word, lex_text, named_at, parse_text, table_text, type_text, usage_text};

use crate::failure::Failure;
use k_ending::name as trap_name;
use k_lex::LexFault;
use k_num::{NoMemory, Place, Seq};
use k_optab::TableFault;
use k_parse::ParseFault;
use k_types_meaning::TypeFault;
use k_words::Usage;
use std::alloc::Global;
use std::fmt;

/// A name and a place.
fn write_named<W: fmt::Write>(f: &mut fmt::Formatter<W>, name: &str, place: Place) -> fmt::Result
    ensures { DisplaysOnOk W.write_str_gives f.old result (Some (named_at name.now place)) f.new }
{
    let line = place.line;
    let column = place.column;
    write!(f, "{name} at {line}:{column}")
}

/// A name, what it is about, and a place.
fn write_about<W: fmt::Write>(
    f: &mut fmt::Formatter<W>,
    name: &str,
    what: &str,
    place: Place,
) -> fmt::Result
    ensures { DisplaysOnOk W.write_str_gives f.old result (Some (named_at (about name.now what.now) place)) f.new }
{
    let line = place.line;
    let column = place.column;
    write!(f, "{name}({what}) at {line}:{column}")
}

/// A name and the index of a word.
fn write_at_word<W: fmt::Write>(f: &mut fmt::Formatter<W>, name: &str, index: u32) -> fmt::Result
    ensures { DisplaysOnOk W.write_str_gives f.old result (Some (at_word name.now index)) f.new }
{
    write!(f, "{name} at word {index}")
}

/// A fault of the tokens. Want of memory is no refusal, and nothing is written of it here or below.
fn write_lex<W: fmt::Write>(f: &mut fmt::Formatter<W>, fault: LexFault) -> fmt::Result
    ensures { DisplaysOnOk W.write_str_gives f.old result (Some (lex_text fault)) f.new }
{
    match fault {
        LexFault::BadByte(place) => write_named(f, "BadByte", place),
        LexFault::OpenComment(place) => write_named(f, "OpenComment", place),
        LexFault::OpenLiteral(place) => write_named(f, "OpenLiteral", place),
        LexFault::BadEscape(place) => write_named(f, "BadEscape", place),
        LexFault::BadNumber(place) => write_named(f, "BadNumber", place),
        LexFault::BadDirective(place) => write_named(f, "BadDirective", place),
        LexFault::UnknownHeader(place) => write_named(f, "UnknownHeader", place),
        LexFault::MacroOrder(place) => write_named(f, "MacroOrder", place),
        LexFault::MacroAgain(place) => write_named(f, "MacroAgain", place),
        LexFault::SourceLong(place) => write_named(f, "SourceLong", place),
        LexFault::TokensMany(place) => write_named(f, "TokensMany", place),
        LexFault::Memory => Ok(()),
    }
}

/// The place of what is refused as a whole.
const WHOLE: Place = Place { line: 1, column: 1 };

/// A fault of the tree.
fn write_parse<W: fmt::Write>(f: &mut fmt::Formatter<W>, fault: ParseFault) -> fmt::Result
    ensures { DisplaysOnOk W.write_str_gives f.old result (Some (parse_text fault)) f.new }
{
    match fault {
        ParseFault::Syntax(place) => write_named(f, "Syntax", place),
        ParseFault::TooDeep(place) => write_named(f, "TooDeep", place),
        ParseFault::NodesMany => write_named(f, "NodesMany", WHOLE),
        ParseFault::Memory => Ok(()),
    }
}

/// A fault in names and types.
fn write_type<W: fmt::Write>(f: &mut fmt::Formatter<W>, fault: &TypeFault) -> fmt::Result
    ensures { DisplaysOnOk W.write_str_gives f.old result (Some (type_text fault.now)) f.new }
{
    match fault {
        TypeFault::Unknown(name, place) => write_about(f, "Unknown", name.as_str(), *place),
        TypeFault::Twice(name, place) => write_about(f, "Twice", name.as_str(), *place),
        TypeFault::Kinds(place) => write_named(f, "Kinds", *place),
        TypeFault::NotPlace(place) => write_named(f, "NotPlace", *place),
        TypeFault::ConstWrite(place) => write_named(f, "ConstWrite", *place),
        TypeFault::Arity(place) => write_named(f, "Arity", *place),
        TypeFault::BadSize(place) => write_named(f, "BadSize", *place),
        TypeFault::BadFormat(place) => write_named(f, "BadFormat", *place),
        TypeFault::NoMain(place) => write_named(f, "NoMain", *place),
        TypeFault::NotDefined(name, place) => write_about(f, "NotDefined", name.as_str(), *place),
        TypeFault::JumpOutside(place) => write_named(f, "JumpOutside", *place),
        TypeFault::Memory => Ok(()),
        TypeFault::CaseAgain(place) => write_named(f, "CaseAgain", *place),
    }
}

/// A fault of a table of latencies.
fn write_table<W: fmt::Write>(f: &mut fmt::Formatter<W>, fault: &TableFault) -> fmt::Result
    ensures { DisplaysOnOk W.write_str_gives f.old result (Some (table_text fault.now)) f.new }
{
    match fault {
        TableFault::NotToml => f.write_str("NotToml"),
        TableFault::UnknownKey(key) => write!(f, "UnknownKey({})", key.as_str()),
        TableFault::NotWhole(key) => write!(f, "NotWhole({})", key.as_str()),
        TableFault::OutOfRange(key, number) => write!(f, "OutOfRange({}, {number})", key.as_str()),
        TableFault::Memory => Ok(()),
    }
}

/// What is wrong with the words.
fn write_usage<W: fmt::Write>(f: &mut fmt::Formatter<W>, fault: Usage) -> fmt::Result
    ensures { DisplaysOnOk W.write_str_gives f.old result (Some (usage_text fault)) f.new }
{
    match fault {
        Usage::NoCommand => f.write_str("NoCommand"),
        Usage::UnknownWord(index) => write_at_word(f, "UnknownWord", index),
        Usage::BadNumber(index) => write_at_word(f, "BadNumber", index),
        Usage::Twice(index) => write_at_word(f, "Twice", index),
        Usage::NoFile => f.write_str("NoFile"),
        Usage::Memory => Ok(()),
    }
}

/// A file, and where its first wrong line starts.
fn write_saved_in<W: fmt::Write>(f: &mut fmt::Formatter<W>, file: &str, place: u64) -> fmt::Result
    ensures { DisplaysOnOk W.write_str_gives f.old result (Some (saved_in_text file.now place)) f.new }
{
    write!(f, "saved file refused: {file} at byte {place}")
}

impl fmt::Display for Failure {
    ghost output = { λ failure. Some (failure_text failure) };

    fn fmt<W: fmt::Write>(&self, f: &mut fmt::Formatter<W>) -> fmt::Result {
        match self {
            Failure::Trapped(trap, place) => {
                f.write_str("trap ")?;
                write_named(f, trap_name(*trap), *place)
            }
            Failure::OutOfSteps(steps) => write!(f, "out of steps after {steps}"),
            Failure::Lex(fault) => {
                f.write_str("source refused: ")?;
                write_lex(f, *fault)
            }
            Failure::Parse(fault) => {
                f.write_str("source refused: ")?;
                write_parse(f, *fault)
            }
            Failure::Types(fault) => {
                f.write_str("source refused: ")?;
                write_type(f, fault)
            }
            Failure::Usage(fault) => {
                f.write_str("usage: ")?;
                write_usage(f, *fault)
            }
            Failure::Absent(file) => write!(f, "no such file: {}", file.as_str()),
            Failure::ReadFault => f.write_str("read fault"),
            Failure::WriteFault => f.write_str("write fault"),
            Failure::NoMemory => f.write_str("no memory"),
            Failure::InputLong => f.write_str("input too long"),
            Failure::Table(fault) => {
                f.write_str("latency table refused: ")?;
                write_table(f, fault)
            }
            Failure::Saved(place) => write!(f, "saved file refused at byte {place}"),
            Failure::FileLong(file) => write!(f, "file too long: {}", file.as_str()),
            Failure::SavedIn(file, place) => write_saved_in(f, file.as_str(), *place),
            Failure::OtherProgram(file) => {
                write!(f, "profile of another program: {}", file.as_str())
            }
            Failure::SumLarge(file) => write!(f, "sum too large with: {}", file.as_str()),
        }
    }
}

impl Failure {
    /// The line on err.
    fn line(&self, alloc: Global) -> Result<String, NoMemory>
        ensures { IfOk result (λ line. string_bytes line ≡ failure_line self.now) }
    {
        Ok(format!(in alloc; "kremlin: {self}\n")?)
    }

    /// What is told on err: the line, and behind it what more is told, if more is.
    pub fn err_text(&self, alloc: Global, more: &Option<Seq<u8>>) -> Result<Vec<u8>, NoMemory>
        ensures { IfOk result (λ text. text.items ≡ err_text self.now more.now) }
    {
        let line = self.line(alloc)?;
        let mut text = Vec::from_slice(alloc, line.as_bytes())?;
        if let Some(more) = more {
            text.extend_from_slice(more.as_slice())?;
        }
        Ok(text)
    }
}

//! Why a source is refused, as it is told to whoever wrote it.
ghost use Rattle.std.specs.Prelude.{◌≡◌, ◌++◌, IfOk, OnOk};
ghost use Rattle.k_refusal.specs.Refusals as spec;
ghost use Rattle.k_refusal.specs.Rules.{about_text};

use crate::front::{behind, behind_blanks, first_byte, front};
use crate::lexical::{of_byte, of_directive, of_header, of_literal, of_number};
use crate::line::{line_of, push_line};
use crate::rule::{Rule, rule_name};
use crate::sentence::{Directive, Limit, Name, Sentence, Token, Usage, text};
use crate::syntax::of_syntax;
use crate::typing::{of_format, of_kinds, of_no_place, of_unknown_behind};
use k_num::{NoMemory, Place};
use k_text::{push, push_place};
use std::alloc::Global;

/// The sentence of a refusal that is about this, at a place behind so many bytes of this line.
#[tactic(auto, unfolding(crate::specs::Refusals::sentence_of))]
fn sentence_of(rule: Rule, about: &[u8], line: &[u8], before: usize) -> Sentence
    ensures { result ≡ spec.sentence_of rule about.now line.now before }
{
    let rest = behind(line, before);
    match rule {
        Rule::BadByte => of_byte(first_byte(rest)),
        Rule::OpenComment => Sentence::Token(Token::OpenComment),
        Rule::OpenLiteral => of_literal(first_byte(rest)),
        Rule::BadEscape => Sentence::Token(Token::BadEscape),
        Rule::BadNumber => of_number(rest),
        Rule::BadDirective => of_directive(behind_blanks(behind(rest, 1))),
        Rule::UnknownHeader => of_header(rest),
        Rule::MacroOrder => Sentence::Directive(Directive::MacroOrder),
        Rule::MacroAgain => Sentence::Directive(Directive::MacroAgain),
        Rule::SourceLong => Sentence::Limit(Limit::SourceLong),
        Rule::TokensMany => Sentence::Limit(Limit::TokensMany),
        Rule::Syntax => of_syntax(first_byte(behind(line, before.saturating_sub(1))), rest),
        Rule::TooDeep => Sentence::Limit(Limit::TooDeep),
        Rule::NodesMany => Sentence::Limit(Limit::NodesMany),
        Rule::Unknown => of_unknown_behind(behind(line, before.saturating_sub(5)), about),
        Rule::Twice => Sentence::Name(Name::DeclaredTwice),
        Rule::Kinds => of_kinds(front(line, before), rest),
        Rule::NotPlace => of_no_place(first_byte(rest)),
        Rule::ConstWrite => Sentence::Usage(Usage::ConstWrite),
        Rule::Arity => Sentence::Usage(Usage::ArgumentCount),
        Rule::BadSize => Sentence::Usage(Usage::BadSize),
        Rule::BadFormat => of_format(rest),
        Rule::NoMain => Sentence::Name(Name::NoMain),
        Rule::NotDefined => Sentence::Name(Name::NoBody),
        Rule::JumpOutside => Sentence::Usage(Usage::NothingToLeave),
        Rule::CaseAgain => Sentence::Usage(Usage::CaseAgain),
    }
}

/// A place, and that it is an error.
fn push_head(text: &mut Vec<u8>, file: &str, place: Place) -> Result<(), NoMemory>
    ensures { OnOk result (text.new.items ≡ text.old.items ++ spec.head_text file.now place) }
{
    push(text, file)?;
    push(text, ":")?;
    push_place(text, place)?;
    push(text, ": error: ")
}

/// What a refusal is about.
fn push_about(text: &mut Vec<u8>, about: &str) -> Result<(), NoMemory>
    ensures { OnOk result (text.new.items ≡ text.old.items ++ about_text about.now) }
{
    if about.is_empty() {
        return Ok(());
    }
    push(text, "(")?;
    push(text, about)?;
    push(text, ")")
}

/// The name of a refusal, and what it is about.
fn push_tail(text: &mut Vec<u8>, rule: Rule, about: &str) -> Result<(), NoMemory>
    ensures { OnOk result (text.new.items ≡ text.old.items ++ spec.tail_text rule about.now) }
{
    push(text, " [")?;
    push(text, rule_name(rule))?;
    push_about(text, about)?;
    push(text, "]\n")
}

/// A refusal at a place behind so many bytes of this line.
fn told_at(
    alloc: Global,
    file: &str,
    rule: Rule,
    about: &str,
    place: Place,
    line: &[u8],
    before: usize,
) -> Result<Vec<u8>, NoMemory>
    ensures { IfOk result (λ told. told.items ≡ spec.told_at file.now rule about.now place line.now before) }
{
    let sentence = sentence_of(rule, about.as_bytes(), line, before);
    let mut told = Vec::new(alloc);
    push_head(&mut told, file, place)?;
    push(&mut told, text(sentence))?;
    push_tail(&mut told, rule, about)?;
    push_line(&mut told, line, before)?;
    Ok(told)
}

/// What is told of a refusal of this source, in a file of this name: its place, a sentence with its name and with what it is about (a
/// name, or nothing), the line of the source, and a caret under the place.
#[tactic(auto, unfolding(crate::specs::Refusals::refusal_text))]
pub fn refusal_text(
    alloc: Global,
    file: &str,
    source: &[u8],
    rule: Rule,
    about: &str,
    place: Place,
) -> Result<Vec<u8>, NoMemory>
    ensures { IfOk result (λ told. told.items ≡ spec.refusal_text file.now source.now rule about.now place) }
{
    let line = line_of(source, place.line);
    let before = place.column.saturating_sub(1) as usize;
    told_at(alloc, file, rule, about, place, line, before)
}

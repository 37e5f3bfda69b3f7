//! What `check` tells of a source that is refused.
ghost use Rattle.std.specs.Prelude.{◌≡◌, IfOk};
ghost use Rattle.k_top_answers.specs.Checks as spec;

use crate::failure::Failure;
use k_lex::LexFault;
use k_num::{NoMemory, Place};
use k_parse::ParseFault;
use k_refusal::{Rule, refusal_text};
use k_types_meaning::TypeFault;
use std::alloc::Global;

/// A refusal that is about no name.
fn unnamed(
    alloc: Global,
    file: &str,
    source: &[u8],
    rule: Rule,
    place: Place,
) -> Result<Vec<u8>, NoMemory>
    ensures { IfOk result (λ told. told.items ≡ spec.unnamed file.now source.now rule place) }
{
    refusal_text(alloc, file, source, rule, "", place)
}

/// A fault of the tokens.
fn lex_told(alloc: Global, file: &str, source: &[u8], fault: LexFault) -> Result<Vec<u8>, NoMemory>
    ensures { IfOk result (λ told. told.items ≡ spec.lex_told file.now source.now fault) }
{
    match fault {
        LexFault::BadByte(place) => unnamed(alloc, file, source, Rule::BadByte, place),
        LexFault::OpenComment(place) => unnamed(alloc, file, source, Rule::OpenComment, place),
        LexFault::OpenLiteral(place) => unnamed(alloc, file, source, Rule::OpenLiteral, place),
        LexFault::BadEscape(place) => unnamed(alloc, file, source, Rule::BadEscape, place),
        LexFault::BadNumber(place) => unnamed(alloc, file, source, Rule::BadNumber, place),
        LexFault::BadDirective(place) => unnamed(alloc, file, source, Rule::BadDirective, place),
        LexFault::UnknownHeader(place) => unnamed(alloc, file, source, Rule::UnknownHeader, place),
        LexFault::MacroOrder(place) => unnamed(alloc, file, source, Rule::MacroOrder, place),
        LexFault::MacroAgain(place) => unnamed(alloc, file, source, Rule::MacroAgain, place),
        LexFault::SourceLong(place) => unnamed(alloc, file, source, Rule::SourceLong, place),
        LexFault::TokensMany(place) => unnamed(alloc, file, source, Rule::TokensMany, place),
        LexFault::Memory => Ok(Vec::new(alloc)),
    }
}

/// The place of what is refused as a whole.
const WHOLE: Place = Place { line: 1, column: 1 };

/// A fault of the tree.
fn parse_told(
    alloc: Global,
    file: &str,
    source: &[u8],
    fault: ParseFault,
) -> Result<Vec<u8>, NoMemory>
    ensures { IfOk result (λ told. told.items ≡ spec.parse_told file.now source.now fault) }
{
    match fault {
        ParseFault::Syntax(place) => unnamed(alloc, file, source, Rule::Syntax, place),
        ParseFault::TooDeep(place) => unnamed(alloc, file, source, Rule::TooDeep, place),
        ParseFault::NodesMany => unnamed(alloc, file, source, Rule::NodesMany, WHOLE),
        ParseFault::Memory => Ok(Vec::new(alloc)),
    }
}

/// A fault in names and types.
fn type_told(
    alloc: Global,
    file: &str,
    source: &[u8],
    fault: &TypeFault,
) -> Result<Vec<u8>, NoMemory>
    ensures { IfOk result (λ told. told.items ≡ spec.type_told file.now source.now fault.now) }
{
    match fault {
        TypeFault::Unknown(name, place) => refusal_text(
            alloc,
            file,
            source,
            Rule::Unknown,
            name.as_str(),
            *place,
        ),
        TypeFault::Twice(name, place) => refusal_text(
            alloc,
            file,
            source,
            Rule::Twice,
            name.as_str(),
            *place,
        ),
        TypeFault::Kinds(place) => unnamed(alloc, file, source, Rule::Kinds, *place),
        TypeFault::NotPlace(place) => unnamed(alloc, file, source, Rule::NotPlace, *place),
        TypeFault::ConstWrite(place) => unnamed(alloc, file, source, Rule::ConstWrite, *place),
        TypeFault::Arity(place) => unnamed(alloc, file, source, Rule::Arity, *place),
        TypeFault::BadSize(place) => unnamed(alloc, file, source, Rule::BadSize, *place),
        TypeFault::BadFormat(place) => unnamed(alloc, file, source, Rule::BadFormat, *place),
        TypeFault::NoMain(place) => unnamed(alloc, file, source, Rule::NoMain, *place),
        TypeFault::NotDefined(name, place) => refusal_text(
            alloc,
            file,
            source,
            Rule::NotDefined,
            name.as_str(),
            *place,
        ),
        TypeFault::JumpOutside(place) => unnamed(alloc, file, source, Rule::JumpOutside, *place),
        TypeFault::Memory => Ok(Vec::new(alloc)),
        TypeFault::CaseAgain(place) => unnamed(alloc, file, source, Rule::CaseAgain, *place),
    }
}

impl Failure {
    /// Whether it refuses a source.
    pub fn refuses_source(&self) -> bool
        ensures { result ≡ spec.refuses_source self.now }
    {
        matches!(
            self,
            Failure::Lex(_) | Failure::Parse(_) | Failure::Types(_)
        )
    }

    /// What `check` tells of this source, in a file of this name, behind the line on err: its refusal, at its place.
    pub fn told(&self, alloc: Global, file: &str, source: &[u8]) -> Result<Vec<u8>, NoMemory>
        ensures { IfOk result (λ told. told.items ≡ spec.told file.now source.now self.now) }
    {
        match self {
            Failure::Lex(fault) => lex_told(alloc, file, source, *fault),
            Failure::Parse(fault) => parse_told(alloc, file, source, *fault),
            Failure::Types(fault) => type_told(alloc, file, source, fault),
            _ => Ok(Vec::new(alloc)),
        }
    }
}

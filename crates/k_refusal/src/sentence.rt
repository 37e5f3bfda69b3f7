//! The sentences that tell why a source is refused, and what to write in its place.
ghost use Rattle.std.specs.Prelude.{◌≡◌};
ghost use Rattle.k_refusal.specs.Sentences as spec;

/// Of bytes that make no token.
#[derive(Clone, Copy)]
pub enum Token {
    StrayByte,
    Member,
    Backslash,
    LateHash,
    NotAscii,
    OpenComment,
    OpenString,
    NotOneCharacter,
    BadEscape,
    PointInNumber,
    NoConstant,
}

/// Of directives, but for headers.
#[derive(Clone, Copy)]
pub enum Directive {
    MacroParameters,
    DefineForm,
    Conditional,
    Undef,
    IncludeForm,
    OtherDirective,
    MacroOrder,
    MacroAgain,
}

/// Of headers that are left out.
#[derive(Clone, Copy)]
pub enum Header {
    OwnHeader,
    MathHeader,
    StringHeader,
    BoolHeader,
    WidthHeader,
    CharacterHeader,
    OtherHeader,
}

/// Of limits on sources.
#[derive(Clone, Copy)]
pub enum Limit {
    SourceLong,
    TokensMany,
    TooDeep,
    NodesMany,
}

/// Of keywords that are left out.
#[derive(Clone, Copy)]
pub enum LeftOut {
    Floating,
    StructOrUnion,
    Enumeration,
    TypeName,
    Goto,
    External,
    Inline,
    Qualifier,
    BoolWord,
    OtherWord,
}

/// Of the end and of words that can't stand where they do.
#[derive(Clone, Copy)]
pub enum StrayWord {
    EndsEarly,
    LoneElse,
    DeepLabel,
    StrayDeclaration,
    StrayStatement,
    StrayMain,
    StrayName,
    StaticSize,
    StrayNumber,
}

/// Of marks and literals that can't stand where they do.
#[derive(Clone, Copy)]
pub enum StrayMark {
    StrayClosingBrace,
    StrayOpeningBrace,
    StrayParenthesis,
    PointerToArray,
    StrayBracket,
    StrayColon,
    Arrow,
    StrayToken,
}

/// Of names of the library that are left out.
#[derive(Clone, Copy)]
pub enum Library {
    Heap,
    NullPointer,
    OtherInput,
    LineInput,
    Exit,
    ExitStatus,
    Streams,
    StringFunction,
    RandomOrTime,
    MathFunction,
    BoolName,
}

/// Of other names.
#[derive(Clone, Copy)]
pub enum Name {
    NeedsStdio,
    NeedsStddef,
    NeedsLimits,
    UnknownName,
    DeclaredTwice,
    NoBody,
    NoMain,
}

/// Of types that do not fit.
#[derive(Clone, Copy)]
pub enum Kinds {
    ParameterKind,
    PointerToVoid,
    PointerToPointer,
    ArrayOfPointers,
    PointerElsewhere,
    StaticVariable,
    ItemOfBraces,
    SidesDiffer,
    NotOfPointer,
    Condition,
    ResultKind,
    KindsOther,
}

/// Of what can't be used so.
#[derive(Clone, Copy)]
pub enum Usage {
    AddressOf,
    NotAPlace,
    ConstWrite,
    ArgumentCount,
    BadSize,
    BadFormat,
    TextInFormat,
    PutsOfArray,
    NothingToLeave,
    CaseAgain,
}

/// Why a source is refused, as it is told: each has a sentence of its own.
#[derive(Clone, Copy)]
pub enum Sentence {
    Token(Token),
    Directive(Directive),
    Header(Header),
    Limit(Limit),
    LeftOut(LeftOut),
    StrayWord(StrayWord),
    StrayMark(StrayMark),
    Library(Library),
    Name(Name),
    Kinds(Kinds),
    Usage(Usage),
}

/// Of bytes that make no token.
#[tactic(auto, unfolding(crate::specs::Sentences::token_text))]
fn token_text(sentence: Token) -> &'static str
    ensures { result.now ≡ spec.token_text sentence }
{
    match sentence {
        Token::StrayByte => "this byte begins no token of C",
        Token::Member =>
            "`.` is left out, with struct and union: write a variable or an array for each member",
        Token::Backslash =>
            "a backslash stands in strings and character constants alone: lines that it joins are left out",
        Token::LateHash => "a `#` stands first in its line alone",
        Token::NotAscii =>
            "a byte that is no ASCII stands in comments and strings alone: look for quotes, dashes and blanks that an editor made",
        Token::OpenComment => "this comment is not closed: put `*/` behind it",
        Token::OpenString => "this string has no closing quote in its line",
        Token::NotOneCharacter =>
            "a character constant is one character or escape between its quotes: text stands between double quotes",
        Token::BadEscape =>
            "this backslash begins no escape of C, or one with a value above 255: write two of them for a backslash",
        Token::PointInNumber =>
            "numbers with a point or an exponent are left out, with floating point: count in whole numbers, as in thousandths",
        Token::NoConstant =>
            "this is no integer constant of at most 64 bits: write digits, or 0x and digits, with u, l or ll behind them where needed",
    }
}

/// Of directives, but for headers.
#[tactic(auto, unfolding(crate::specs::Sentences::directive_text))]
fn directive_text(sentence: Directive) -> &'static str
    ensures { result.now ≡ spec.directive_text sentence }
{
    match sentence {
        Directive::MacroParameters => "a macro with parameters is left out: write a function",
        Directive::DefineForm =>
            "a macro is defined by `#define NAME TOKENS`, and NAME is no keyword",
        Directive::Conditional => "`#if` and its kin are left out: keep the lines that are wanted",
        Directive::Undef => "`#undef` is left out: give each macro a name of its own",
        Directive::IncludeForm =>
            "a header is included by `#include <stdio.h>`, with nothing behind it in its line",
        Directive::OtherDirective =>
            "the directives are `#define NAME TOKENS`, `#include <HEADER>` and `#pragma`",
        Directive::MacroOrder =>
            "this macro stands in its own body, or in that of an earlier one: define it before those that use it",
        Directive::MacroAgain =>
            "this macro is defined a second time, by other tokens: give it another name",
    }
}

/// Of headers that are left out.
#[tactic(auto, unfolding(crate::specs::Sentences::header_text))]
fn header_text(sentence: Header) -> &'static str
    ensures { result.now ≡ spec.header_text sentence }
{
    match sentence {
        Header::OwnHeader => "a header in quotes is left out: put its text into this file",
        Header::MathHeader => "<math.h> is left out, with floating point: compute in whole numbers",
        Header::StringHeader => "<string.h> is left out: write a loop over the array",
        Header::BoolHeader => "<stdbool.h> is left out: write int, 1 and 0",
        Header::WidthHeader =>
            "this header is left out: char, short, int and long have 8, 16, 32 and 64 bits",
        Header::CharacterHeader =>
            "<ctype.h> is left out: compare characters, as in c >= '0' && c <= '9'",
        Header::OtherHeader =>
            "this header is left out: there are <stdio.h>, <stdlib.h>, <stddef.h> and <limits.h>",
    }
}

/// Of limits on sources.
#[tactic(auto, unfolding(crate::specs::Sentences::limit_text))]
fn limit_text(sentence: Limit) -> &'static str
    ensures { result.now ≡ spec.limit_text sentence }
{
    match sentence {
        Limit::SourceLong => "the source has more than 1048576 bytes",
        Limit::TokensMany =>
            "the source has more than 400000 tokens behind its macros, or 4194304 bytes of them",
        Limit::TooDeep => "statements, initialisers and expressions nest more than 200 deep here",
        Limit::NodesMany =>
            "the source has more than 262144 declarators, statements and expressions",
    }
}

/// Of keywords that are left out.
#[tactic(auto, unfolding(crate::specs::Sentences::left_out_text))]
fn left_out_text(sentence: LeftOut) -> &'static str
    ensures { result.now ≡ spec.left_out_text sentence }
{
    match sentence {
        LeftOut::Floating =>
            "`double` and `float` are left out: count in whole numbers, as in thousandths",
        LeftOut::StructOrUnion =>
            "`struct` and `union` are left out: write a variable or an array for each member",
        LeftOut::Enumeration => "`enum` is left out: write `#define` for each constant",
        LeftOut::TypeName => "`typedef` is left out: write the type itself",
        LeftOut::Goto =>
            "`goto` is left out: write a loop with `break`, or a function with `return`",
        LeftOut::External => "`extern` is left out: define the object or the function in this file",
        LeftOut::Inline => "`inline` is left out: leave the word away",
        LeftOut::Qualifier =>
            "`volatile`, `register`, `restrict` and `auto` are left out: leave the word away",
        LeftOut::BoolWord => "`_Bool` is left out: write int, 1 and 0",
        LeftOut::OtherWord => "this word of C is left out",
    }
}

/// Of the end and of words that can't stand where they do.
#[tactic(auto, unfolding(crate::specs::Sentences::stray_word_text))]
fn stray_word_text(sentence: StrayWord) -> &'static str
    ensures { result.now ≡ spec.stray_word_text sentence }
{
    match sentence {
        StrayWord::EndsEarly => "the source ends here: a `}`, a `)` or a `;` is missing before",
        StrayWord::LoneElse =>
            "no `if` waits for this `else`: put braces round its statements, and no `;` behind its condition",
        StrayWord::DeepLabel => "`case` and `default` stand directly in the braces of a `switch`",
        StrayWord::StrayDeclaration =>
            "no declaration begins here: a `;` or a brace may be missing before it, or braces around it",
        StrayWord::StrayStatement =>
            "this word can't stand here: a `;`, a `)` or a brace may be missing before it",
        StrayWord::StrayMain =>
            "a function begins with the type of its result: write int main(void)",
        StrayWord::StrayName =>
            "this name can't stand here: an operator, a `;` or a brace may be missing before it, or the word before it is no type",
        StrayWord::StaticSize => "`static` between brackets is left out: write the size alone",
        StrayWord::StrayNumber =>
            "this number can't stand here: an operator, a `;` or a bracket may be missing before it",
    }
}

/// Of marks and literals that can't stand where they do.
#[tactic(auto, unfolding(crate::specs::Sentences::stray_mark_text))]
fn stray_mark_text(sentence: StrayMark) -> &'static str
    ensures { result.now ≡ spec.stray_mark_text sentence }
{
    match sentence {
        StrayMark::StrayClosingBrace => "this `}` can't stand here: a `;` may be missing before it",
        StrayMark::StrayOpeningBrace =>
            "this `{` can't stand here: compound literals are left out, as (int){1}",
        StrayMark::StrayParenthesis =>
            "this `(` can't stand here: pointers to functions and functions in functions are left out; a call names its function",
        StrayMark::PointerToArray =>
            "pointers to arrays are left out: a parameter is written as an array of rows, as int rows[][4], and a variable as a number that tells which",
        StrayMark::StrayBracket => "this `[` can't stand here: designators are left out",
        StrayMark::StrayColon =>
            "this `:` can't stand here: labels are left out, with goto: write a loop with `break` or `continue`",
        StrayMark::Arrow =>
            "`->` is left out, with struct and union: write a variable or an array for each member",
        StrayMark::StrayToken =>
            "this token can't stand here: an operand, a `;` or a bracket may be missing before it",
    }
}

/// Of names of the library that are left out.
#[tactic(auto, unfolding(crate::specs::Sentences::library_text))]
fn library_text(sentence: Library) -> &'static str
    ensures { result.now ≡ spec.library_text sentence }
{
    match sentence {
        Library::Heap =>
            "memory of the heap is left out, with malloc and free: declare an array of a fixed size",
        Library::NullPointer => "null pointers are left out: let each pointer point to an object",
        Library::OtherInput =>
            "the input is read by getchar alone: make a number of its digits, one by one",
        Library::LineInput =>
            "lines and other input are read by getchar alone: write a loop that reads one character at a time, until it gives -1",
        Library::Exit => "exit is left out: return from main",
        Library::ExitStatus => "EXIT_SUCCESS and EXIT_FAILURE are left out: write 0 and 1",
        Library::Streams => "files and streams are left out: write by printf, puts and putchar",
        Library::StringFunction =>
            "the functions on strings and memory are left out: write a loop over the array",
        Library::RandomOrTime =>
            "random numbers and times are left out: write a generator of your own, as seed = seed * 1103515245 + 12345 over an unsigned seed with a fixed start",
        Library::MathFunction =>
            "the functions of <math.h> and abs are left out: compute in whole numbers",
        Library::BoolName => "bool, true and false are left out: write int, 1 and 0",
    }
}

/// Of other names.
#[tactic(auto, unfolding(crate::specs::Sentences::name_text))]
fn name_text(sentence: Name) -> &'static str
    ensures { result.now ≡ spec.name_text sentence }
{
    match sentence {
        Name::NeedsStdio => "this name is of a header: put `#include <stdio.h>` first",
        Name::NeedsStddef => "this name is of a header: put `#include <stddef.h>` first",
        Name::NeedsLimits => "this name is of a header: put `#include <limits.h>` first",
        Name::UnknownName =>
            "no declaration of this name stands before it: declare it, or look at its spelling",
        Name::DeclaredTwice =>
            "this name is declared already in its scope, or is one of the library's",
        Name::NoBody => "this function is called but has no body: define it in this file",
        Name::NoMain =>
            "there is no function int main(void): main has no parameters and its result is int",
    }
}

/// Of types that do not fit.
#[tactic(auto, unfolding(crate::specs::Sentences::kinds_text))]
fn kinds_text(sentence: Kinds) -> &'static str
    ensures { result.now ≡ spec.kinds_text sentence }
{
    match sentence {
        Kinds::ParameterKind =>
            "a parameter is no pointer to a pointer and no array of pointers; main has no parameters: write int main(void)",
        Kinds::PointerToVoid =>
            "pointers to void are left out: name the type of what the pointer points to, as const int *p",
        Kinds::PointerToPointer =>
            "pointers to pointers are left out: write an array of rows, or a number that tells which",
        Kinds::ArrayOfPointers =>
            "arrays of pointers are left out: write an array of rows, or of numbers that tell which",
        Kinds::PointerElsewhere =>
            "a pointer is a variable of a function and begins with an address of its type, as &x or an array: at file scope and to void it is left out",
        Kinds::StaticVariable =>
            "static variables in functions are left out: declare the variable before the function, outside of it",
        Kinds::ItemOfBraces =>
            "this number is one too many for its braces, or an array of rows lacks inner braces: write them round each row, as in {{1, 2}, {3, 4}}",
        Kinds::SidesDiffer =>
            "the two sides do not fit: pointers go with pointers of their type, and null pointers are left out",
        Kinds::NotOfPointer =>
            "`!` takes a number: that of a pointer is left out, with null pointers",
        Kinds::Condition =>
            "a condition is a number: a pointer as a condition is left out, with null pointers",
        Kinds::ResultKind =>
            "this `return` does not fit the result of its function: a value of its type, or none in a void function",
        Kinds::KindsOther =>
            "types do not fit here: numbers and pointers do not mix, and null pointers are left out",
    }
}

/// Of what can't be used so.
#[tactic(auto, unfolding(crate::specs::Sentences::usage_text))]
fn usage_text(sentence: Usage) -> &'static str
    ensures { result.now ≡ spec.usage_text sentence }
{
    match sentence {
        Usage::AddressOf =>
            "`&` takes a variable or an element that is a number: that of an array, a pointer or a value is left out",
        Usage::NotAPlace => "what is assigned or counted here is no variable and no element",
        Usage::ConstWrite => "what is declared const is written here",
        Usage::ArgumentCount =>
            "this call has another number of arguments than its function has parameters",
        Usage::BadSize =>
            "a size is a constant of 1 or more, of at most 4194304 elements in all: arrays of variable length are left out",
        Usage::BadFormat =>
            "format and arguments do not fit: there are %d %i %u %x %c %% with l or ll; %s, %f, flags and widths are left out",
        Usage::TextInFormat =>
            "`%s` is left out: write the characters by putchar in a loop, or the text itself in the format",
        Usage::PutsOfArray =>
            "puts takes a text between double quotes, with no zero byte in it: write an array of char by putchar in a loop",
        Usage::NothingToLeave => "no loop, and for `break` no switch, is open here",
        Usage::CaseAgain => "this switch has that case, or a default, already",
    }
}

/// The sentence as it is written.
#[tactic(auto, unfolding(crate::specs::Sentences::text))]
pub(crate) fn text(sentence: Sentence) -> &'static str
    ensures { result.now ≡ spec.text sentence }
{
    match sentence {
        Sentence::Token(sentence) => token_text(sentence),
        Sentence::Directive(sentence) => directive_text(sentence),
        Sentence::Header(sentence) => header_text(sentence),
        Sentence::Limit(sentence) => limit_text(sentence),
        Sentence::LeftOut(sentence) => left_out_text(sentence),
        Sentence::StrayWord(sentence) => stray_word_text(sentence),
        Sentence::StrayMark(sentence) => stray_mark_text(sentence),
        Sentence::Library(sentence) => library_text(sentence),
        Sentence::Name(sentence) => name_text(sentence),
        Sentence::Kinds(sentence) => kinds_text(sentence),
        Sentence::Usage(sentence) => usage_text(sentence),
    }
}

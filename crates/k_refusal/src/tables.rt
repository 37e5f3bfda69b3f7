//! Words and marks that tell more than the refusal that stands at them, each with the sentence for it.
ghost use Rattle.std.specs.Prelude.{◌≡◌, map};
ghost use Rattle.k_refusal.specs.Tables as spec;

use crate::sentence::{
    Directive, Header, Kinds, LeftOut, Library, Name, Sentence, StrayMark, StrayWord,
};

/// The keywords that are left out (C17 6.4.1).
const LEFT_OUT_WORDS: [(&str, Sentence); 23] = [
    ("double", Sentence::LeftOut(LeftOut::Floating)),
    ("float", Sentence::LeftOut(LeftOut::Floating)),
    ("struct", Sentence::LeftOut(LeftOut::StructOrUnion)),
    ("union", Sentence::LeftOut(LeftOut::StructOrUnion)),
    ("enum", Sentence::LeftOut(LeftOut::Enumeration)),
    ("typedef", Sentence::LeftOut(LeftOut::TypeName)),
    ("goto", Sentence::LeftOut(LeftOut::Goto)),
    ("extern", Sentence::LeftOut(LeftOut::External)),
    ("inline", Sentence::LeftOut(LeftOut::Inline)),
    ("volatile", Sentence::LeftOut(LeftOut::Qualifier)),
    ("register", Sentence::LeftOut(LeftOut::Qualifier)),
    ("restrict", Sentence::LeftOut(LeftOut::Qualifier)),
    ("auto", Sentence::LeftOut(LeftOut::Qualifier)),
    ("_Bool", Sentence::LeftOut(LeftOut::BoolWord)),
    ("_Alignas", Sentence::LeftOut(LeftOut::OtherWord)),
    ("_Alignof", Sentence::LeftOut(LeftOut::OtherWord)),
    ("_Atomic", Sentence::LeftOut(LeftOut::OtherWord)),
    ("_Complex", Sentence::LeftOut(LeftOut::OtherWord)),
    ("_Generic", Sentence::LeftOut(LeftOut::OtherWord)),
    ("_Imaginary", Sentence::LeftOut(LeftOut::OtherWord)),
    ("_Noreturn", Sentence::LeftOut(LeftOut::OtherWord)),
    ("_Static_assert", Sentence::LeftOut(LeftOut::OtherWord)),
    ("_Thread_local", Sentence::LeftOut(LeftOut::OtherWord)),
];

/// `main`, and the other keywords, which stand elsewhere.
const ACCEPTED_WORDS: [(&str, Sentence); 22] = [
    ("main", Sentence::StrayWord(StrayWord::StrayMain)),
    ("else", Sentence::StrayWord(StrayWord::LoneElse)),
    ("case", Sentence::StrayWord(StrayWord::DeepLabel)),
    ("default", Sentence::StrayWord(StrayWord::DeepLabel)),
    ("void", Sentence::StrayWord(StrayWord::StrayDeclaration)),
    ("char", Sentence::StrayWord(StrayWord::StrayDeclaration)),
    ("short", Sentence::StrayWord(StrayWord::StrayDeclaration)),
    ("int", Sentence::StrayWord(StrayWord::StrayDeclaration)),
    ("long", Sentence::StrayWord(StrayWord::StrayDeclaration)),
    ("signed", Sentence::StrayWord(StrayWord::StrayDeclaration)),
    ("unsigned", Sentence::StrayWord(StrayWord::StrayDeclaration)),
    ("const", Sentence::StrayWord(StrayWord::StrayDeclaration)),
    ("static", Sentence::StrayWord(StrayWord::StrayDeclaration)),
    ("break", Sentence::StrayWord(StrayWord::StrayStatement)),
    ("continue", Sentence::StrayWord(StrayWord::StrayStatement)),
    ("do", Sentence::StrayWord(StrayWord::StrayStatement)),
    ("for", Sentence::StrayWord(StrayWord::StrayStatement)),
    ("if", Sentence::StrayWord(StrayWord::StrayStatement)),
    ("return", Sentence::StrayWord(StrayWord::StrayStatement)),
    ("sizeof", Sentence::StrayWord(StrayWord::StrayStatement)),
    ("switch", Sentence::StrayWord(StrayWord::StrayStatement)),
    ("while", Sentence::StrayWord(StrayWord::StrayStatement)),
];

/// The first bytes of marks.
const MARKS: [(&str, Sentence); 5] = [
    ("}", Sentence::StrayMark(StrayMark::StrayClosingBrace)),
    ("{", Sentence::StrayMark(StrayMark::StrayOpeningBrace)),
    ("(", Sentence::StrayMark(StrayMark::StrayParenthesis)),
    ("[", Sentence::StrayMark(StrayMark::StrayBracket)),
    (":", Sentence::StrayMark(StrayMark::StrayColon)),
];

/// The words of directives.
const DIRECTIVES: [(&str, Sentence); 8] = [
    ("if", Sentence::Directive(Directive::Conditional)),
    ("ifdef", Sentence::Directive(Directive::Conditional)),
    ("ifndef", Sentence::Directive(Directive::Conditional)),
    ("elif", Sentence::Directive(Directive::Conditional)),
    ("else", Sentence::Directive(Directive::Conditional)),
    ("endif", Sentence::Directive(Directive::Conditional)),
    ("undef", Sentence::Directive(Directive::Undef)),
    ("include", Sentence::Directive(Directive::IncludeForm)),
];

/// The headers that are left out, by what stands before `.h`.
const HEADERS: [(&str, Sentence); 6] = [
    ("math", Sentence::Header(Header::MathHeader)),
    ("string", Sentence::Header(Header::StringHeader)),
    ("stdbool", Sentence::Header(Header::BoolHeader)),
    ("stdint", Sentence::Header(Header::WidthHeader)),
    ("inttypes", Sentence::Header(Header::WidthHeader)),
    ("ctype", Sentence::Header(Header::CharacterHeader)),
];

/// Names of the library that are left out.
const LIBRARY: [(&str, Sentence); 30] = [
    ("malloc", Sentence::Library(Library::Heap)),
    ("calloc", Sentence::Library(Library::Heap)),
    ("realloc", Sentence::Library(Library::Heap)),
    ("free", Sentence::Library(Library::Heap)),
    ("NULL", Sentence::Library(Library::NullPointer)),
    ("scanf", Sentence::Library(Library::OtherInput)),
    ("sscanf", Sentence::Library(Library::OtherInput)),
    ("fscanf", Sentence::Library(Library::OtherInput)),
    ("getc", Sentence::Library(Library::LineInput)),
    ("fgetc", Sentence::Library(Library::LineInput)),
    ("gets", Sentence::Library(Library::LineInput)),
    ("fgets", Sentence::Library(Library::LineInput)),
    ("exit", Sentence::Library(Library::Exit)),
    ("abort", Sentence::Library(Library::Exit)),
    ("EXIT_FAILURE", Sentence::Library(Library::ExitStatus)),
    ("EXIT_SUCCESS", Sentence::Library(Library::ExitStatus)),
    ("FILE", Sentence::Library(Library::Streams)),
    ("stdin", Sentence::Library(Library::LineInput)),
    ("stdout", Sentence::Library(Library::Streams)),
    ("stderr", Sentence::Library(Library::Streams)),
    ("fopen", Sentence::Library(Library::Streams)),
    ("fclose", Sentence::Library(Library::Streams)),
    ("fflush", Sentence::Library(Library::Streams)),
    ("fprintf", Sentence::Library(Library::Streams)),
    ("sprintf", Sentence::Library(Library::Streams)),
    ("snprintf", Sentence::Library(Library::Streams)),
    ("fputs", Sentence::Library(Library::Streams)),
    ("fputc", Sentence::Library(Library::Streams)),
    ("putc", Sentence::Library(Library::Streams)),
    ("perror", Sentence::Library(Library::Streams)),
];

/// More of them.
const MORE_LIBRARY: [(&str, Sentence); 31] = [
    ("strlen", Sentence::Library(Library::StringFunction)),
    ("strcpy", Sentence::Library(Library::StringFunction)),
    ("strncpy", Sentence::Library(Library::StringFunction)),
    ("strcmp", Sentence::Library(Library::StringFunction)),
    ("strncmp", Sentence::Library(Library::StringFunction)),
    ("strcat", Sentence::Library(Library::StringFunction)),
    ("memcpy", Sentence::Library(Library::StringFunction)),
    ("memset", Sentence::Library(Library::StringFunction)),
    ("atoi", Sentence::Library(Library::StringFunction)),
    ("rand", Sentence::Library(Library::RandomOrTime)),
    ("srand", Sentence::Library(Library::RandomOrTime)),
    ("time", Sentence::Library(Library::RandomOrTime)),
    ("clock", Sentence::Library(Library::RandomOrTime)),
    ("sqrt", Sentence::Library(Library::MathFunction)),
    ("pow", Sentence::Library(Library::MathFunction)),
    ("sin", Sentence::Library(Library::MathFunction)),
    ("cos", Sentence::Library(Library::MathFunction)),
    ("floor", Sentence::Library(Library::MathFunction)),
    ("fabs", Sentence::Library(Library::MathFunction)),
    ("abs", Sentence::Library(Library::MathFunction)),
    ("bool", Sentence::Library(Library::BoolName)),
    ("true", Sentence::Library(Library::BoolName)),
    ("false", Sentence::Library(Library::BoolName)),
    ("EOF", Sentence::Name(Name::NeedsStdio)),
    ("size_t", Sentence::Name(Name::NeedsStddef)),
    ("INT_MIN", Sentence::Name(Name::NeedsLimits)),
    ("INT_MAX", Sentence::Name(Name::NeedsLimits)),
    ("UINT_MAX", Sentence::Name(Name::NeedsLimits)),
    ("LONG_MIN", Sentence::Name(Name::NeedsLimits)),
    ("LONG_MAX", Sentence::Name(Name::NeedsLimits)),
    ("ULONG_MAX", Sentence::Name(Name::NeedsLimits)),
];

/// The words at which types do not fit: a parameter begins with those of its type.
const WORDS_OF_KINDS: [(&str, Sentence); 15] = [
    ("void", Sentence::Kinds(Kinds::ParameterKind)),
    ("char", Sentence::Kinds(Kinds::ParameterKind)),
    ("short", Sentence::Kinds(Kinds::ParameterKind)),
    ("int", Sentence::Kinds(Kinds::ParameterKind)),
    ("long", Sentence::Kinds(Kinds::ParameterKind)),
    ("signed", Sentence::Kinds(Kinds::ParameterKind)),
    ("unsigned", Sentence::Kinds(Kinds::ParameterKind)),
    ("const", Sentence::Kinds(Kinds::ParameterKind)),
    ("static", Sentence::Kinds(Kinds::ParameterKind)),
    ("if", Sentence::Kinds(Kinds::Condition)),
    ("while", Sentence::Kinds(Kinds::Condition)),
    ("do", Sentence::Kinds(Kinds::Condition)),
    ("for", Sentence::Kinds(Kinds::Condition)),
    ("switch", Sentence::Kinds(Kinds::Condition)),
    ("return", Sentence::Kinds(Kinds::ResultKind)),
];

/// The sentence of the first row with this word.
fn find(rows: &[(&str, Sentence)], word: &[u8]) -> Option<Sentence>
    ensures { result ≡ spec.look_up (map spec.row rows.now) word.now }
{
    for row in rows {
        if row.0.as_bytes() == word {
            return Some(row.1);
        }
    }
    None
}

/// The sentence for a keyword that is left out.
pub(crate) fn left_out_word(word: &[u8]) -> Option<Sentence>
    ensures { result ≡ spec.look_up spec.left_out_words word.now }
{
    find(&LEFT_OUT_WORDS, word)
}

/// The sentence for another keyword.
pub(crate) fn accepted_word(word: &[u8]) -> Option<Sentence>
    ensures { result ≡ spec.look_up spec.accepted_words word.now }
{
    find(&ACCEPTED_WORDS, word)
}

/// The sentence for a mark, by its first byte.
pub(crate) fn mark(word: &[u8]) -> Option<Sentence>
    ensures { result ≡ spec.look_up spec.marks word.now }
{
    find(&MARKS, word)
}

/// The sentence for the word of a directive.
pub(crate) fn directive(word: &[u8]) -> Option<Sentence>
    ensures { result ≡ spec.look_up spec.directives word.now }
{
    find(&DIRECTIVES, word)
}

/// The sentence for a header.
pub(crate) fn header(word: &[u8]) -> Option<Sentence>
    ensures { result ≡ spec.look_up spec.headers word.now }
{
    find(&HEADERS, word)
}

/// The sentence for a name of the library that is left out.
pub(crate) fn library_name(word: &[u8]) -> Option<Sentence>
    ensures { result ≡ spec.look_up spec.library word.now }
{
    find(&LIBRARY, word)
}

/// The sentence for one of the others.
pub(crate) fn other_library_name(word: &[u8]) -> Option<Sentence>
    ensures { result ≡ spec.look_up spec.more_library word.now }
{
    find(&MORE_LIBRARY, word)
}

/// The sentence for a word at which types do not fit.
pub(crate) fn word_of_kinds(word: &[u8]) -> Option<Sentence>
    ensures { result ≡ spec.look_up spec.words_of_kinds word.now }
{
    find(&WORDS_OF_KINDS, word)
}

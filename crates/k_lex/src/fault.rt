//! Why a source has no tokens, as the caller sees it.

use k_num::Place;

/// Why `lex` refuses a source, and where.
#[derive(Clone, Copy, Debug, PartialEq, Eq)]
pub enum LexFault {
    /// A byte begins no token, or stands where it may not, or C would join the next line there to a comment or a `#pragma`.
    BadByte(Place),
    /// A comment has no end.
    OpenComment(Place),
    /// A literal has no end in its line, or a character constant has not one character.
    OpenLiteral(Place),
    /// A backslash in a literal begins no escape, or its value is no byte.
    BadEscape(Place),
    /// A number is no integer constant, or no kind holds it.
    BadNumber(Place),
    /// A directive has another form than those that there are.
    BadDirective(Place),
    /// There is no such header.
    UnknownHeader(Place),
    /// A macro's name stands in its own body, or in that of an earlier macro.
    MacroOrder(Place),
    /// A macro is defined again with other tokens.
    MacroAgain(Place),
    /// The source has too many bytes.
    SourceLong(Place),
    /// There are too many tokens, or their spellings are too long.
    TokensMany(Place),
    /// No memory was found.
    Memory,
}

//! Laws of the definition of tokens. Each is the contract of a function that does nothing.
ghost use Rattle.k_lex.specs.Cuts.{NothingIsLost, OnlyTheRestIsLeft};
ghost use Rattle.k_lex.specs.Laws.{EachListEndsOnce, EachNumberIsHeld, EachTokenIsRight, SourceIsItsPieces, StringsAreWithinLimit, TokensComeOfText};

/// The pieces of a source that is accepted are the source, one behind another.
pub fn nothing_is_lost()
    ensures { NothingIsLost }
{}

/// The pieces that are read before a refusal are the front of the source, one behind another.
pub fn only_the_rest_is_left()
    ensures { OnlyTheRestIsLeft }
{}

/// The last token of an accepted source is the end, and no other token is.
pub fn each_list_ends_once()
    ensures { EachListEndsOnce }
{}

/// Each integer constant of an accepted source is held by its kind.
pub fn each_number_is_held()
    ensures { EachNumberIsHeld }
{}

/// Each token of an accepted source stands in it, and each name is one and no keyword.
pub fn each_token_is_right()
    ensures { EachTokenIsRight }
{}

/// The strings of an accepted source have together at most 4,194,304 bytes.
pub fn strings_are_within_limit()
    ensures { StringsAreWithinLimit }
{}

/// A source without `#` is its pieces: blanks and comments dropped, neighbouring strings joined.
pub fn source_is_its_pieces()
    ensures { SourceIsItsPieces }
{}

/// No piece of a directive gives a token, and a name that no directive names is that name.
pub fn tokens_come_of_text()
    ensures { TokensComeOfText }
{}

//! Laws of the definition of tokens. Each is the contract of a function that does nothing.
ghost use Rattle.k_lex_laws.specs.Laws.{EachCharacterIsAChar};

/// Each character constant of an accepted source has the value of a char, whatever escape it is, also where a macro gives it.
pub fn each_character_is_a_char()
    ensures { EachCharacterIsAChar }
{}

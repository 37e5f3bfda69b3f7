//! Which mark and which keyword a token is (C17 6.4.1, 6.4.6).
ghost use Rattle.std.specs.Prelude.{◌≡◌};
ghost use Rattle.k_parse_steps.specs.Tokens as spec;

use k_tree::{Mark, Token, TokenKind, Word};

/// Is it this mark?
#[tactic(auto, unfolding(crate::specs::Tokens::is_mark))]
pub fn is_mark(mark: Mark, which: Mark) -> bool
    ensures { result ≡ spec.is_mark mark which }
{
    mark == which
}

/// Is it this keyword?
#[tactic(auto, unfolding(crate::specs::Tokens::is_word))]
pub fn is_word(word: Word, which: Word) -> bool
    ensures { result ≡ spec.is_word word which }
{
    word == which
}

/// Is a token this mark?
pub fn token_is_mark(token: &Token, which: Mark) -> bool
    ensures { result ≡ spec.token_is_mark token.now.what which }
{
    match &token.what {
        TokenKind::Mark(mark) => is_mark(*mark, which),
        _ => false,
    }
}

/// Is a token this keyword?
pub fn token_is_word(token: &Token, which: Word) -> bool
    ensures { result ≡ spec.token_is_word token.now.what which }
{
    match &token.what {
        TokenKind::Word(word) => is_word(*word, which),
        _ => false,
    }
}

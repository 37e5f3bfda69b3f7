//! The words that name directives.
ghost use Rattle.std.specs.Prelude.{◌≡◌};
ghost use Rattle.k_lex_forms.specs.Directives as spec;

use k_lex_pieces::words::is_same;

/// Directives that part lines.
#[derive(Clone, Copy)]
pub enum Parting {
    If,
    Ifdef,
    Ifndef,
    Elif,
    Else,
    Endif,
}

/// Other directives.
#[derive(Clone, Copy)]
pub enum Kind {
    Define,
    Undef,
    Include,
    Error,
    Pragma,
}

/// The directive that parts lines of this name, if there is one.
pub fn branch_of(word: &[u8]) -> Option<Parting>
    ensures { result ≡ spec.branch_named word.now }
{
    if is_same(word, b"if") {
        Some(Parting::If)
    } else if is_same(word, b"ifdef") {
        Some(Parting::Ifdef)
    } else if is_same(word, b"ifndef") {
        Some(Parting::Ifndef)
    } else if is_same(word, b"elif") {
        Some(Parting::Elif)
    } else if is_same(word, b"else") {
        Some(Parting::Else)
    } else if is_same(word, b"endif") {
        Some(Parting::Endif)
    } else {
        None
    }
}

/// The other directive of this name, if there is one.
pub fn other_of(word: &[u8]) -> Option<Kind>
    ensures { result ≡ spec.other_named word.now }
{
    if is_same(word, b"define") {
        Some(Kind::Define)
    } else if is_same(word, b"undef") {
        Some(Kind::Undef)
    } else if is_same(word, b"include") {
        Some(Kind::Include)
    } else if is_same(word, b"error") {
        Some(Kind::Error)
    } else if is_same(word, b"pragma") {
        Some(Kind::Pragma)
    } else {
        None
    }
}

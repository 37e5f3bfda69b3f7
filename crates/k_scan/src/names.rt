//! Names of C.
ghost use Rattle.std.specs.Prelude.{◌≡◌, ◌≤◌, true, length, map, nat_eq};
ghost use Rattle.std.specs.Cmp.Lexicographic.{pointwise};
ghost use Rattle.std.specs.List.{list_any};
ghost use Rattle.k_scan.specs.Names as spec;
ghost use Rattle.k_scan.specs.Names.{name_at};
ghost use Rattle.k_scan.specs.Pieces.{Finds};

/// The keywords.
const KEYWORDS: [&str; 44] = [
    "auto",
    "break",
    "case",
    "char",
    "const",
    "continue",
    "default",
    "do",
    "double",
    "else",
    "enum",
    "extern",
    "float",
    "for",
    "goto",
    "if",
    "inline",
    "int",
    "long",
    "register",
    "restrict",
    "return",
    "short",
    "signed",
    "sizeof",
    "static",
    "struct",
    "switch",
    "typedef",
    "union",
    "unsigned",
    "void",
    "volatile",
    "while",
    "_Alignas",
    "_Alignof",
    "_Atomic",
    "_Bool",
    "_Complex",
    "_Generic",
    "_Imaginary",
    "_Noreturn",
    "_Static_assert",
    "_Thread_local",
];

/// Whether a byte may begin a name.
fn is_letter(byte: u8) -> bool
    ensures { result ≡ spec.is_letter byte }
{
    matches!(byte, b'a'..=b'z' | b'A'..=b'Z' | b'_')
}

/// Whether a byte may stand in a name.
fn in_name(byte: u8) -> bool
    ensures { result ≡ spec.in_name byte }
{
    is_letter(byte) || byte.is_ascii_digit()
}

/// Whether a text is among these words.
fn is_among(words: &[&str], text: &[u8]) -> bool
    ensures { result ≡ list_any (λ word. pointwise nat_eq word text.now) (map (λ word. word.now) words.now) }
{
    for word in words {
        if word.as_bytes() == text {
            return true;
        }
    }
    false
}

/// How many bytes at the front may stand in a name.
fn name_span(text: &[u8]) -> usize
    ensures found { result ≡ spec.name_span text.now }
    ensures within { result ≤ length text.now }
{
    let mut count = 0;
    let mut rest = text;
    while let Some((byte, behind)) = rest.split_first() {
        if !in_name(*byte) {
            return count;
        }
        count += 1;
        rest = behind;
    }
    count
}

/// Whether all bytes may stand in a name.
fn are_in_name(text: &[u8]) -> bool
    ensures { result ≡ spec.are_in_name text.now }
{
    let mut rest = text;
    while let Some((byte, behind)) = rest.split_first() {
        if !in_name(*byte) {
            return false;
        }
        rest = behind;
    }
    true
}

/// Whether bytes are a name or a keyword.
fn is_word(text: &[u8]) -> bool
    ensures { result ≡ spec.is_word text.now }
{
    let Some((first, rest)) = text.split_first() else {
        return false;
    };
    is_letter(*first) && are_in_name(rest)
}

/// Whether bytes are a name.
#[tactic(auto, unfolding(crate::specs::Names::is_name))]
fn is_name(text: &[u8]) -> bool
    ensures { result ≡ spec.is_name text.now }
{
    is_word(text) && !is_among(&KEYWORDS, text)
}

/// The text of a name.
fn text_of(name: &[u8]) -> &str
    requires { spec.is_name name.now ≡ true }
    ensures { result.now ≡ name.now }
{
    match str::from_utf8(name) {
        Ok(text) => text,
        Err(_) => unreachable!(),
    }
}

/// The name at the front of a text, as long as it may be, and the text behind it. A keyword is no name.
pub fn name(text: &[u8]) -> Option<(&str, &[u8])>
    ensures { Finds (λ found. (found.0.now, found.1.now)) result (name_at text.now) }
{
    let (name, rest) = text.split_at(name_span(text));
    if is_name(name) {
        Some((text_of(name), rest))
    } else {
        None
    }
}

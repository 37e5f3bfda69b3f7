//! What stands at the front of a text.
ghost use Rattle.std.specs.Prelude.{◌≡◌, ◌≤◌, take, drop, length};
ghost use Rattle.k_refusal.specs.Fronts as spec;

/// Whether a byte may stand in a name or a number.
pub(crate) fn in_word(byte: u8) -> bool
    ensures { result ≡ spec.in_word byte }
{
    matches!(byte, b'a'..=b'z' | b'A'..=b'Z' | b'0'..=b'9' | b'_')
}

/// Whether a byte is a digit.
pub(crate) fn is_digit(byte: u8) -> bool
    ensures { result ≡ spec.is_digit byte }
{
    matches!(byte, b'0'..=b'9')
}

/// Whether a byte is a space or a tab.
fn is_blank(byte: u8) -> bool
    ensures { result ≡ spec.is_blank byte }
{
    matches!(byte, b' ' | b'\t')
}

/// The first byte, or 0.
pub(crate) fn first_byte(text: &[u8]) -> u8
    ensures { result ≡ spec.first_byte text.now }
{
    match text.split_first() {
        Some((byte, _)) => *byte,
        None => 0,
    }
}

/// At most so many of the first bytes.
pub(crate) fn front(text: &[u8], count: usize) -> &[u8]
    ensures { result.now ≡ take count text.now }
{
    if count < text.len() {
        &text[..count]
    } else {
        text
    }
}

/// What stands behind so many of the first bytes.
pub(crate) fn behind(text: &[u8], count: usize) -> &[u8]
    ensures { result.now ≡ drop count text.now }
{
    if count < text.len() {
        &text[count..]
    } else {
        &[]
    }
}

/// How many bytes at the front may stand in a name or a number.
fn word_span(text: &[u8]) -> usize
    ensures found { result ≡ spec.span spec.in_word text.now }
    ensures within { result ≤ length text.now }
{
    let mut count = 0;
    let mut rest = text;
    while let Some((byte, behind)) = rest.split_first() {
        if !in_word(*byte) {
            return count;
        }
        count += 1;
        rest = behind;
    }
    count
}

/// How many bytes at the front are blanks.
fn blank_span(text: &[u8]) -> usize
    ensures found { result ≡ spec.span spec.is_blank text.now }
    ensures within { result ≤ length text.now }
{
    let mut count = 0;
    let mut rest = text;
    while let Some((byte, behind)) = rest.split_first() {
        if !is_blank(*byte) {
            return count;
        }
        count += 1;
        rest = behind;
    }
    count
}

/// The name, keyword or number at the front.
pub(crate) fn word_at(text: &[u8]) -> &[u8]
    ensures { result.now ≡ spec.word_at text.now }
{
    front(text, word_span(text))
}

/// What stands behind the name, keyword or number at the front.
pub(crate) fn behind_word(text: &[u8]) -> &[u8]
    ensures { result.now ≡ spec.behind_word text.now }
{
    behind(text, word_span(text))
}

/// What stands behind the first `)`, or nothing.
pub(crate) fn behind_closing(text: &[u8]) -> &[u8]
    ensures { result.now ≡ spec.behind_closing text.now }
{
    let mut rest = text;
    while let Some((byte, behind)) = rest.split_first() {
        if *byte == b')' {
            return behind;
        }
        rest = behind;
    }
    rest
}

/// What stands behind blanks.
pub(crate) fn behind_blanks(text: &[u8]) -> &[u8]
    ensures { result.now ≡ spec.behind_blanks text.now }
{
    behind(text, blank_span(text))
}

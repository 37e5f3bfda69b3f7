//! The names of variables, as the tree of syntax tells them.
ghost use Rattle.std.specs.Prelude.{◌≡◌, ◌<◌, ◌^◌, map};
ghost use Rattle.std.specs.List.{list_all, list_any};
ghost use Rattle.k_pragma.specs.Names as spec;

use k_num::Text;
use k_pragma_written::Written;

/// Whether a byte may stand in a word.
pub(crate) fn is_in_word(byte: u8) -> bool
    ensures { result ≡ spec.is_in_word byte }
{
    (48 <= byte && byte <= 57)
        || ((65 <= byte && byte <= 90) || (byte == 95 || (97 <= byte && byte <= 122)))
}

/// Whether all these bytes may stand in words.
fn are_in_words(bytes: &[u8]) -> bool
    ensures { result ≡ list_all spec.is_in_word bytes.now }
{
    bytes.iter().all(|byte| is_in_word(*byte))
}

/// Whether bytes are a word.
fn is_word_of(bytes: &[u8]) -> bool
    ensures { result ≡ spec.is_word bytes.now }
{
    match bytes.split_first() {
        None => false,
        Some((first, rest)) => is_in_word(*first) && are_in_words(rest),
    }
}

/// Whether a name is a word.
fn is_word(name: &str) -> bool
    ensures { result ≡ spec.is_word name.now }
{
    is_word_of(name.as_bytes())
}

/// Whether two names are one.
fn same_name(one: &str, other: &str) -> bool
    ensures { result ≡ spec.same_name one.now other.now }
{
    one == other
}

/// The names of the variables of the function of this number.
pub(crate) fn names_of(written: &Written, function: u64) -> &[Text]
    requires small { function < 2 ^ 63 }
    ensures { result.now ≡ spec.names_of written.now function }
{
    match written.names.as_slice().get(function as usize) {
        None => &[],
        Some(names) => names.as_slice(),
    }
}

/// The name of a variable of this number.
pub(crate) fn name_of(names: &[Text], number: usize) -> &str
    ensures { result.now ≡ spec.name_of names.now number }
{
    match names.get(number) {
        None => "",
        Some(name) => name.as_str(),
    }
}

/// Whether a name is that of one of these variables.
fn is_among(names: &[Text], name: &str, numbers: &[usize]) -> bool
    ensures { result ≡ list_any (spec.same_name name.now) (map (spec.name_of names.now) numbers.now) }
{
    for number in numbers {
        if same_name(name, name_of(names, *number)) {
            return true;
        }
    }
    false
}

/// Whether the name of a variable is a word, and that of none of these.
fn stands_apart(names: &[Text], number: usize, numbers: &[usize]) -> bool
    ensures { result ≡ spec.stands_apart (spec.name_of names.now number) (map (spec.name_of names.now) numbers.now) }
{
    let name = name_of(names, number);
    is_word(name) && !is_among(names, name, numbers)
}

/// Whether the names of these variables are words, and no two are one.
pub(crate) fn are_apart(names: &[Text], numbers: &[usize]) -> bool
    ensures { result ≡ spec.are_apart (map (spec.name_of names.now) numbers.now) }
{
    let mut rest = numbers;
    while let Some((first, later)) = rest.split_first() {
        if !stands_apart(names, *first, later) {
            return false;
        }
        rest = later;
    }
    true
}

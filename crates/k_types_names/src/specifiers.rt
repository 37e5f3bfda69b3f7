//! The types that specifiers name (C17 6.7.1 to 6.7.3, 6.7.7). All is linear in the specifiers.
ghost use Rattle.std.specs.Prelude.{◌≡◌, length, map, ◌≤◌};
ghost use Rattle.k_types_meaning.specs.Specifiers as specifiers;
ghost use Rattle.k_types_meaning.specs.Specifiers.{count_word, type_words};
ghost use Rattle.k_types_names.specs.Counts.{found};

use k_num::{Kind, Seq};
use k_tree::Word;
use k_types_meaning::{Base, CType, Dims, Element};
use std::alloc::Global;

/// How often each of the words that name a type stands in a list of specifiers: `void`, `char`, `short`,
/// `int`, `long`, `signed` and `unsigned`.
type Counts = [usize; 7];

/// The lists of words that name a type, each by how often it has these words.
static TYPES: [(Counts, Base); 27] = [
    ([1, 0, 0, 0, 0, 0, 0], Base::Void),
    ([0, 1, 0, 0, 0, 0, 0], Base::Of(Kind::I8)),
    ([0, 1, 0, 0, 0, 1, 0], Base::Of(Kind::I8)),
    ([0, 1, 0, 0, 0, 0, 1], Base::Of(Kind::U8)),
    ([0, 0, 1, 0, 0, 0, 0], Base::Of(Kind::I16)),
    ([0, 0, 1, 1, 0, 0, 0], Base::Of(Kind::I16)),
    ([0, 0, 1, 0, 0, 1, 0], Base::Of(Kind::I16)),
    ([0, 0, 1, 1, 0, 1, 0], Base::Of(Kind::I16)),
    ([0, 0, 1, 0, 0, 0, 1], Base::Of(Kind::U16)),
    ([0, 0, 1, 1, 0, 0, 1], Base::Of(Kind::U16)),
    ([0, 0, 0, 1, 0, 0, 0], Base::Of(Kind::I32)),
    ([0, 0, 0, 0, 0, 1, 0], Base::Of(Kind::I32)),
    ([0, 0, 0, 1, 0, 1, 0], Base::Of(Kind::I32)),
    ([0, 0, 0, 0, 0, 0, 1], Base::Of(Kind::U32)),
    ([0, 0, 0, 1, 0, 0, 1], Base::Of(Kind::U32)),
    ([0, 0, 0, 0, 1, 0, 0], Base::Of(Kind::I64)),
    ([0, 0, 0, 1, 1, 0, 0], Base::Of(Kind::I64)),
    ([0, 0, 0, 0, 1, 1, 0], Base::Of(Kind::I64)),
    ([0, 0, 0, 1, 1, 1, 0], Base::Of(Kind::I64)),
    ([0, 0, 0, 0, 2, 0, 0], Base::Of(Kind::I64)),
    ([0, 0, 0, 1, 2, 0, 0], Base::Of(Kind::I64)),
    ([0, 0, 0, 0, 2, 1, 0], Base::Of(Kind::I64)),
    ([0, 0, 0, 1, 2, 1, 0], Base::Of(Kind::I64)),
    ([0, 0, 0, 0, 1, 0, 1], Base::Of(Kind::U64)),
    ([0, 0, 0, 1, 1, 0, 1], Base::Of(Kind::U64)),
    ([0, 0, 0, 0, 2, 0, 1], Base::Of(Kind::U64)),
    ([0, 0, 0, 1, 2, 0, 1], Base::Of(Kind::U64)),
];

/// How often a word stands in a list.
fn count(words: &[Word], word: Word) -> usize
    ensures exact { result ≡ count_word word words.now }
    ensures within { result ≤ length words.now }
{
    let mut rest = words;
    let mut count = 0;
    while let Some((other, more)) = rest.split_first() {
        if *other == word {
            count += 1;
        }
        rest = more;
    }
    count
}

/// How often each word that names a type stands in a list.
fn counts(words: &[Word]) -> Counts
    ensures { result ≡ map (λ w. count_word w words.now) type_words }
{
    [
        count(words, Word::Void),
        count(words, Word::Char),
        count(words, Word::Short),
        count(words, Word::Int),
        count(words, Word::Long),
        count(words, Word::Signed),
        count(words, Word::Unsigned),
    ]
}

/// The type of the first row that has these counts.
fn find(rows: &[(Counts, Base)], counts: &Counts) -> Option<Base>
    ensures { result ≡ found rows.now counts.now }
{
    let mut rest = rows;
    while let Some((row, more)) = rest.split_first() {
        if row.0 == *counts {
            return Some(row.1);
        }
        rest = more;
    }
    None
}

/// The type that specifiers name: none where they name no type, or have `const` twice (C17 6.7.2p2).
#[tactic(auto, unfolding(k_types_meaning::specs::Specifiers::base_of))]
pub fn base_of(specs: &Seq<Word>) -> Option<Base>
    ensures { result ≡ specifiers.base_of specs.now }
{
    let words = specs.as_slice();
    if count(words, Word::Const) <= 1 {
        find(&TYPES, &counts(words))
    } else {
        None
    }
}

/// Whether specifiers say `const` (C17 6.7.3).
pub fn says_const(specs: &Seq<Word>) -> bool
    ensures { result ≡ specifiers.says_const specs.now }
{
    count(specs.as_slice(), Word::Const) == 1
}

/// Whether specifiers say `static` (C17 6.7.1).
pub fn says_static(specs: &Seq<Word>) -> bool
    ensures { result ≡ specifiers.says_static specs.now }
{
    1 <= count(specs.as_slice(), Word::Static)
}

/// The type of a list of `*` behind a base. `fixed` says that the base is const (C17 6.7.6).
pub fn starred(alloc: Global, fixed: bool, base: Base, stars: &[bool]) -> Option<CType>
    ensures { result ≡ specifiers.starred fixed base stars.now }
{
    match base {
        Base::Void => match stars {
            [] => Some(CType::Void),
            _ => None,
        },
        Base::Of(kind) => match stars {
            [] => Some(CType::Number(kind)),
            [_] => Some(CType::Pointer(Element {
                kind,
                dims: Dims::none(alloc),
                fixed,
            })),
            _ => None,
        },
    }
}

/// The type that specifiers and stars name in a cast, behind `sizeof`, and as the result of a function
/// (C17 6.7.7).
pub fn type_named(alloc: Global, specs: &Seq<Word>, stars: &Seq<bool>) -> Option<CType>
    ensures { result ≡ specifiers.type_named specs.now stars.now }
{
    if says_static(specs) {
        return None;
    }
    match base_of(specs) {
        Some(base) => starred(alloc, says_const(specs), base, stars.as_slice()),
        None => None,
    }
}

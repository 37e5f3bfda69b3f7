//! Keywords by their bytes.
ghost use Rattle.std.specs.Prelude.{◌≡◌, map};
ghost use Rattle.k_lex_pieces.specs.Bytes as bytes;
ghost use Rattle.k_lex_pieces.specs.Words as spec;

use k_tree::Word;

/// The spelling of each keyword.
const WORDS: [(&str, Word); 44] = [
    ("auto", Word::Auto),
    ("break", Word::Break),
    ("case", Word::Case),
    ("char", Word::Char),
    ("const", Word::Const),
    ("continue", Word::Continue),
    ("default", Word::Default),
    ("do", Word::Do),
    ("double", Word::Double),
    ("else", Word::Else),
    ("enum", Word::Enum),
    ("extern", Word::Extern),
    ("float", Word::Float),
    ("for", Word::For),
    ("goto", Word::Goto),
    ("if", Word::If),
    ("inline", Word::Inline),
    ("int", Word::Int),
    ("long", Word::Long),
    ("register", Word::Register),
    ("restrict", Word::Restrict),
    ("return", Word::Return),
    ("short", Word::Short),
    ("signed", Word::Signed),
    ("sizeof", Word::Sizeof),
    ("static", Word::Static),
    ("struct", Word::Struct),
    ("switch", Word::Switch),
    ("typedef", Word::Typedef),
    ("union", Word::Union),
    ("unsigned", Word::Unsigned),
    ("void", Word::Void),
    ("volatile", Word::Volatile),
    ("while", Word::While),
    ("_Alignas", Word::Alignas),
    ("_Alignof", Word::Alignof),
    ("_Atomic", Word::Atomic),
    ("_Bool", Word::Bool),
    ("_Complex", Word::Complex),
    ("_Generic", Word::Generic),
    ("_Imaginary", Word::Imaginary),
    ("_Noreturn", Word::Noreturn),
    ("_Static_assert", Word::StaticAssert),
    ("_Thread_local", Word::ThreadLocal),
];

/// Whether the two lists of bytes are one.
pub fn is_same(a: &[u8], b: &[u8]) -> bool
    ensures { result ≡ bytes.same a.now b.now }
{
    a == b
}

fn find(rows: &[(&str, Word)], spelling: &[u8]) -> Option<Word>
    ensures { result ≡ bytes.look_up (map spec.row rows.now) spelling.now }
{
    for row in rows {
        if is_same(row.0.as_bytes(), spelling) {
            return Some(row.1);
        }
    }
    None
}

/// The keyword that is spelled so.
pub fn word_of(spelling: &[u8]) -> Option<Word>
    ensures { result ≡ spec.word_of spelling.now }
{
    find(&WORDS, spelling)
}

//! Uses of macros. A body is written as words: `$0` is the parameter of number 0, `@0` is `#` before it, and `##` stands
//! within a word.
use k_lex_expanding::{Expanded, expand};
use k_lex_expansion::shared::Shared;
use k_lex_expansion::{Chain, Failure, Listed, Macro, Operand, Spelled, Spelling};
use k_num::{NoMemory, Seq, Stack};
use std::alloc::Global;
use std::process::Abort;
use std::test::Fail;

/// The greatest number that may be made.
const LIMIT: usize = 2_097_152;

fn spelling(alloc: Global, text: &str) -> Result<Spelling, NoMemory> {
    Shared::new(alloc, Seq::copy_of(alloc, text.as_bytes())?)
}

fn operand(alloc: Global, word: &str) -> Result<Operand, NoMemory> {
    match word {
        "$0" => Ok(Operand::Parameter(0)),
        "$1" => Ok(Operand::Parameter(1)),
        "@0" => Ok(Operand::Text(0)),
        _ => Ok(Operand::Token(spelling(alloc, word)?)),
    }
}

/// A part of a body.
fn chain(alloc: Global, word: &str) -> Result<Chain, NoMemory> {
    let (first, rest) = word.split_once("##").unwrap_or((word, ""));
    let mut more = Seq::new(alloc);
    for part in rest.split("##") {
        if !part.is_empty() {
            more.push(operand(alloc, part)?)?;
        }
    }
    let first = operand(alloc, first)?;
    Ok(Chain {
        spaced: true,
        first,
        more,
    })
}

/// The body of these words.
fn body(alloc: Global, words: &str) -> Result<Seq<Chain>, NoMemory> {
    let mut chains = Seq::new(alloc);
    for word in words.split_whitespace() {
        chains.push(chain(alloc, word)?)?;
    }
    Ok(chains)
}

/// The names of so many parameters.
fn parameters(alloc: Global, count: usize) -> Result<Seq<Spelling>, NoMemory> {
    let mut names = Seq::new(alloc);
    for _ in 0..count {
        names.push(spelling(alloc, "p")?)?;
    }
    Ok(names)
}

/// A macro: `NAME BODY`, or with a dot for each of its parameters `NAME(..) BODY`.
fn one_macro(alloc: Global, line: &str) -> Result<Macro, NoMemory> {
    let (head, words) = line.split_once(' ').unwrap_or((line, ""));
    let body = body(alloc, words)?;
    match head.split_once('(') {
        None => Ok(Macro {
            name: spelling(alloc, head)?,
            parameters: None,
            body,
        }),
        Some((name, count)) => Ok(Macro {
            name: spelling(alloc, name)?,
            parameters: Some(parameters(alloc, count.len().saturating_sub(1))?),
            body,
        }),
    }
}

fn all_macros(alloc: Global, lines: &str) -> Result<Seq<Macro>, NoMemory> {
    let mut macros = Seq::new(alloc);
    for line in lines.lines() {
        macros.push(one_macro(alloc, line)?)?;
    }
    Ok(macros)
}

/// Tokens, between which blanks stand.
fn source(alloc: Global, words: &str) -> Result<Seq<Spelled>, NoMemory> {
    let mut tokens = Seq::new(alloc);
    for word in words.split_whitespace() {
        tokens.push(Spelled {
            spelling: spelling(alloc, word)?,
            spaced: true,
        })?;
    }
    Ok(tokens)
}

/// The use of a name.
fn use_of(alloc: Global, name: &str) -> Result<Stack<Listed>, NoMemory> {
    let mut list = Stack::new(alloc);
    list.push(Listed {
        spelling: spelling(alloc, name)?,
        spaced: false,
        hidden: Shared::new(alloc, Seq::new(alloc))?,
    })?;
    Ok(list)
}

/// The spellings of the tokens, with a blank behind each.
fn text_of(alloc: Global, tokens: &[Listed]) -> Result<Vec<u8>, NoMemory> {
    let mut text = Vec::new(alloc);
    for token in tokens {
        for byte in token.spelling.get().as_slice() {
            text.push(*byte)?;
        }
        text.push(b' ')?;
    }
    Ok(text)
}

/// What the use of a name before these words gives.
fn given(
    alloc: Global,
    lines: &str,
    name: &str,
    words: &str,
    ends: bool,
) -> Result<Result<Expanded, Failure>, NoMemory> {
    let macros = all_macros(alloc, lines)?;
    let source = source(alloc, words)?;
    let list = use_of(alloc, name)?;
    expand(
        alloc,
        macros.as_slice(),
        LIMIT,
        list,
        source.as_slice(),
        ends,
        0,
    )
}

/// The macros, the name, the words behind it; what it gives, how many words it takes, and how much is made.
static GIVEN: [(&str, &str, &str, &str, usize, usize); 7] = [
    (
        "SQ(.) ( ( $0 ) * ( $0 ) )",
        "SQ",
        "( 1 + 2 ) ;",
        "( ( 1 + 2 ) * ( 1 + 2 ) ) ",
        5,
        17,
    ),
    (
        "f(.) $0 * g\ng(.) f ( $0 )",
        "f",
        "( 2 ) ( 9 ) ;",
        "2 * 9 * g ",
        6,
        16,
    ),
    ("x y\ny x", "x", "= 7", "x ", 0, 4),
    ("C(..) $0##$1", "C", "( n , 1 ) =", "n1 ", 5, 2),
    ("C(..) $0##$1", "C", "( + , ) 1", "+ ", 4, 2),
    (
        "S(.) @0 $0\nx 7",
        "S",
        "( x + \"a\\\" ) 7",
        "\"x + \\\"a\\\\\\\"\" 7 + \"a\\\" ",
        5,
        10,
    ),
    ("F(.) $0", "F", "+ 1", "F ", 0, 0),
];

/// The macros, the name, the words behind it, whether the source ends with them, and how it fails.
static FAILS: [(&str, &str, &str, bool, Failure); 6] = [
    ("S(.) $0##+", "S", "( - ) 1", true, Failure::Paste),
    ("F(.) $0", "F", "( 1 , 2 ) ;", true, Failure::Arguments),
    ("F(.) $0", "F", "( 1", true, Failure::Arguments),
    ("F(.) $0", "F", "( 1", false, Failure::Cut),
    ("F(.) $0", "F", "", false, Failure::Cut),
    (
        "A(.) $0 $0\nB(.) A ( A ( A ( A ( $0 ) ) ) )\nC(.) B ( B ( B ( B ( $0 ) ) ) )\nD(.) C ( C ( $0 ) )",
        "D",
        "( ; )",
        true,
        Failure::TokensMany,
    ),
];

/// Looks at a use that is replaced.
fn expect_given(
    rt: &impl Abort,
    alloc: Global,
    row: &(
        &'static str,
        &'static str,
        &'static str,
        &'static str,
        usize,
        usize,
    ),
) {
    let (lines, name, words, text, taken, made) = row;
    let Ok(Ok(found)) = given(alloc, lines, name, words, true) else {
        panic!(rt; "a use is replaced");
    };
    assert!(rt; found.taken == *taken);
    assert!(rt; found.made == *made);
    let Ok(spelled) = text_of(alloc, found.tokens.as_slice()) else {
        panic!(rt; "tokens are spelled");
    };
    assert!(rt; spelled.as_slice() == text.as_bytes());
}

#[test]
fn uses(rt: HostRuntime) -> Result<(), Fail> {
    for row in &GIVEN {
        expect_given(&rt, rt.alloc(), row);
    }
    Ok(())
}

#[test]
fn failures(rt: HostRuntime) -> Result<(), Fail> {
    for (lines, name, words, ends, want) in &FAILS {
        let Ok(Err(failure)) = given(rt.alloc(), lines, name, words, *ends) else {
            panic!(rt; "a use fails");
        };
        assert!(rt; failure == *want);
    }
    Ok(())
}

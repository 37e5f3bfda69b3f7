//! The forms of directives.
ghost use Rattle.std.specs.Prelude.{◌≡◌, [], ◌++◌, true, false, take, IfOk, OnOk};
ghost use Rattle.k_lex_pieces.specs.Outcome.{Gives};
ghost use Rattle.k_lex_forms.specs.Directives as spec;

use crate::tokens::{first_fault, right_tokens};
use crate::words::{Kind, Parting, branch_of, other_of};
use k_lex_bodies::{
    Setting, body_of, cut_short, is_name, is_plain_name, is_spelled, parameter_list, unformed,
};
use k_lex_expansion::shared::Shared;
use k_lex_expansion::{Macro, Spelling};
use k_lex_lines::{Branch, Directive, Fault, Line, Placed, Test, Wrong};
use k_lex_pieces::fault as pieces;
use k_lex_pieces::fault::Stop;
use k_lex_pieces::pieces::{Piece, piece_in_include};
use k_lex_pieces::words::word_of;
use k_lex_sources::Cut;
use k_num::{NoMemory, Place, Seq};
use std::alloc::Global;

/// One name and nothing else.
fn one_name(
    keywords: bool,
    hash: Place,
    end: Option<pieces::Fault>,
    cuts: &[Cut],
) -> Result<Spelling, Stop>
    ensures { Gives (λ name. name) result (spec.one_name keywords hash end cuts.now) }
{
    match cuts.split_first() {
        None => Err(Stop::Refused(cut_short(hash, end))),
        Some((cut, rest)) => {
            if is_named(keywords, cut) {
                lone_name(hash, cut, rest)
            } else {
                Err(Stop::Refused(unformed(hash)))
            }
        }
    }
}

/// This name, where nothing is behind it.
fn lone_name(hash: Place, cut: &Cut, rest: &[Cut]) -> Result<Spelling, Stop>
    ensures { Gives (λ name. name) result (spec.alone hash rest.now cut.now.spelling) }
{
    match rest.split_first() {
        None => Ok(cut.spelling.share()?),
        Some(_) => Err(Stop::Refused(unformed(hash))),
    }
}

/// Whether it is a name, which may be a keyword or not.
fn is_named(keywords: bool, cut: &Cut) -> bool
    ensures { result ≡ spec.is_named keywords cut.now }
{
    is_name(cut.what) && (keywords || word_of(cut.spelling.get().as_slice()).is_none())
}

/// The tokens of a condition.
fn condition(alloc: Global, cuts: &[Cut]) -> Result<Seq<Placed>, Stop>
    ensures { Gives (λ ts. ts) result (spec.condition cuts.now) }
{
    match first_fault(cuts) {
        Some(fault) => Err(Stop::Refused(fault)),
        None => Ok(right_tokens(alloc, cuts)?),
    }
}

/// The macro of this name without a list of parameters.
fn plain_macro(
    alloc: Global,
    hash: Place,
    end: Option<pieces::Fault>,
    name: &Cut,
    cuts: &[Cut],
) -> Result<Directive, Stop>
    ensures { Gives (λ it. it) result (spec.with_body hash end name.now false [] cuts.now) }
{
    let it = Setting {
        hash,
        end,
        listed: false,
    };
    let body = body_of(alloc, it, &[], cuts)?;
    Ok(Directive::Define(
        name.place,
        Macro {
            name: name.spelling.share()?,
            parameters: None,
            body,
        },
    ))
}

/// The macro of this name with these parameters.
fn listed_macro(
    alloc: Global,
    hash: Place,
    end: Option<pieces::Fault>,
    name: &Cut,
    names: Seq<Spelling>,
    cuts: &[Cut],
) -> Result<Directive, Stop>
    ensures { Gives (λ it. it) result (spec.with_body hash end name.now true names cuts.now) }
{
    let it = Setting {
        hash,
        end,
        listed: true,
    };
    let body = body_of(alloc, it, names.as_slice(), cuts)?;
    Ok(Directive::Define(
        name.place,
        Macro {
            name: name.spelling.share()?,
            parameters: Some(names),
            body,
        },
    ))
}

/// What stands behind `#define` and a name.
fn behind_name(
    alloc: Global,
    hash: Place,
    end: Option<pieces::Fault>,
    name: &Cut,
    cuts: &[Cut],
) -> Result<Directive, Stop>
    ensures { Gives (λ it. it) result (spec.behind_name hash end name.now cuts.now) }
{
    match cuts.split_first() {
        None => plain_macro(alloc, hash, end, name, cuts),
        Some((cut, rest)) => {
            if is_spelled(b"(", cut) && !cut.spaced {
                match parameter_list(alloc, hash, end, rest) {
                    Ok((names, body)) => listed_macro(alloc, hash, end, name, names, body),
                    Err(stop) => Err(stop),
                }
            } else {
                plain_macro(alloc, hash, end, name, cuts)
            }
        }
    }
}

/// What stands behind `#define`.
fn macro_of(
    alloc: Global,
    hash: Place,
    end: Option<pieces::Fault>,
    cuts: &[Cut],
) -> Result<Directive, Stop>
    ensures { Gives (λ it. it) result (spec.macro_of hash end cuts.now) }
{
    match cuts.split_first() {
        None => Err(Stop::Refused(cut_short(hash, end))),
        Some((cut, rest)) => {
            if is_plain_name(cut) {
                behind_name(alloc, hash, end, cut, rest)
            } else {
                Err(Stop::Refused(unformed(hash)))
            }
        }
    }
}

/// Adds bytes.
fn push_bytes(text: &mut Seq<u8>, bytes: &[u8]) -> Result<(), NoMemory>
    ensures { OnOk result (text.new ≡ text.old ++ bytes.now) }
{
    for b in bytes {
        text.push(*b)?;
    }
    Ok(())
}

/// Adds the bytes of a token, with a space for the blanks before it.
fn push_spelled(text: &mut Seq<u8>, cut: &Cut) -> Result<(), NoMemory>
    ensures { OnOk result (text.new ≡ text.old ++ spec.spelled_one cut.now) }
{
    if cut.spaced {
        text.push(b' ')?;
    }
    push_bytes(text, cut.spelling.get().as_slice())
}

/// The bytes of a token and those behind it.
fn text_of(alloc: Global, cut: &Cut, cuts: &[Cut]) -> Result<Seq<u8>, NoMemory>
    ensures { IfOk result (λ text. text ≡ cut.now.spelling ++ spec.spelled cuts.now) }
{
    let mut text = Seq::copy_of(alloc, cut.spelling.get().as_slice())?;
    for other in cuts {
        push_spelled(&mut text, other)?;
    }
    Ok(text)
}

/// The first bytes of a text, so many.
fn first_bytes(text: &[u8], count: usize) -> &[u8]
    ensures { result.now ≡ take count text.now }
{
    if count >= text.len() {
        return text;
    }
    let (front, _) = text.split_at(count);
    front
}

/// A header's name at the front of a text.
fn header_in(alloc: Global, hash: Place, place: Place, text: &[u8]) -> Result<Directive, Stop>
    ensures { Gives (λ it. it) result (spec.header_at hash place text.now) }
{
    let (piece, count) = piece_in_include(text);
    if matches!(piece, Piece::Header) && count != text.len() {
        return Err(Stop::Refused(unformed(hash)));
    }
    let bytes = Seq::copy_of(alloc, first_bytes(text, count))?;
    Ok(Directive::Include(place, Shared::new(alloc, bytes)?))
}

/// Whether a token begins as the name of a header does, or in quotes.
fn begins_header(text: &[u8]) -> bool
    ensures { result ≡ spec.begins_header text.now }
{
    match text {
        [b'<', ..] => true,
        [b'"', ..] => true,
        _ => false,
    }
}

/// What stands behind `#include`.
fn header_of(
    alloc: Global,
    hash: Place,
    end: Option<pieces::Fault>,
    cuts: &[Cut],
) -> Result<Directive, Stop>
    ensures { Gives (λ it. it) result (spec.header_of hash end cuts.now) }
{
    match cuts.split_first() {
        None => Err(Stop::Refused(cut_short(hash, end))),
        Some((cut, rest)) => {
            if begins_header(cut.spelling.get().as_slice()) {
                let text = text_of(alloc, cut, rest)?;
                header_in(alloc, hash, cut.place, text.as_slice())
            } else {
                Err(Stop::Refused(unformed(hash)))
            }
        }
    }
}

/// A fault of tokens, as one of a source.
pub fn lexical(fault: pieces::Fault) -> Fault
    ensures { result ≡ spec.lexical fault }
{
    Fault {
        what: Wrong::Lexical(fault.what),
        place: fault.place,
    }
}

/// The same, if there is one.
fn form_of(fault: Option<pieces::Fault>) -> Option<Fault>
    ensures { result ≡ spec.form_of fault }
{
    match fault {
        None => None,
        Some(fault) => Some(lexical(fault)),
    }
}

/// `#else`, where nothing is behind it.
fn final_branch(hash: Place, cuts: &[Cut]) -> Result<Branch, Stop>
    ensures { Gives (λ it. it) result (spec.alone hash cuts.now Branch.Final) }
{
    match cuts.split_first() {
        None => Ok(Branch::Final),
        Some(_) => Err(Stop::Refused(unformed(hash))),
    }
}

/// `#endif`, where nothing is behind it.
fn endif_branch(hash: Place, cuts: &[Cut]) -> Result<Branch, Stop>
    ensures { Gives (λ it. it) result (spec.alone hash cuts.now Branch.Endif) }
{
    match cuts.split_first() {
        None => Ok(Branch::Endif),
        Some(_) => Err(Stop::Refused(unformed(hash))),
    }
}

/// A directive that parts lines, by the tokens behind its word and the fault that its line ends with.
fn branch_in(
    alloc: Global,
    kind: Parting,
    hash: Place,
    end: Option<pieces::Fault>,
    cuts: &[Cut],
) -> Result<Branch, Stop>
    ensures { Gives (λ it. it) result (spec.branch_in kind hash end cuts.now) }
{
    match kind {
        Parting::If => Ok(Branch::Starts(Test::AsksCondition(condition(alloc, cuts)?))),
        Parting::Ifdef => Ok(Branch::Starts(Test::AsksName(
            true,
            one_name(true, hash, end, cuts)?,
        ))),
        Parting::Ifndef => Ok(Branch::Starts(Test::AsksName(
            false,
            one_name(true, hash, end, cuts)?,
        ))),
        Parting::Elif => Ok(Branch::Elif(condition(alloc, cuts)?)),
        Parting::Else => final_branch(hash, cuts),
        Parting::Endif => endif_branch(hash, cuts),
    }
}

/// One of its kind that asks nothing.
fn blank_branch(alloc: Global, kind: Parting) -> Branch
    ensures { result ≡ spec.blank_branch kind }
{
    match kind {
        Parting::If | Parting::Ifdef | Parting::Ifndef => {
            Branch::Starts(Test::AsksCondition(Seq::new(alloc)))
        }
        Parting::Elif => Branch::Elif(Seq::new(alloc)),
        Parting::Else => Branch::Final,
        Parting::Endif => Branch::Endif,
    }
}

/// The line of a directive that parts lines.
fn branch_line(
    alloc: Global,
    kind: Parting,
    hash: Place,
    end: Option<pieces::Fault>,
    cuts: &[Cut],
) -> Result<Line, NoMemory>
    ensures { IfOk result (λ line. line ≡ spec.branch_line hash end cuts.now kind) }
{
    match branch_in(alloc, kind, hash, end, cuts) {
        Ok(it) => Ok(Line::Branch(hash, form_of(end), it)),
        Err(Stop::Refused(fault)) => {
            Ok(Line::Branch(hash, Some(lexical(fault)), blank_branch(alloc, kind)))
        }
        Err(Stop::Memory) => Err(NoMemory),
    }
}

/// Another directive, by the same.
fn directive_in(
    alloc: Global,
    kind: Kind,
    hash: Place,
    end: Option<pieces::Fault>,
    cuts: &[Cut],
) -> Result<Directive, Stop>
    ensures { Gives (λ it. it) result (spec.directive_in kind hash end cuts.now) }
{
    match kind {
        Kind::Define => macro_of(alloc, hash, end, cuts),
        Kind::Undef => Ok(Directive::Undefine(one_name(false, hash, end, cuts)?)),
        Kind::Include => header_of(alloc, hash, end, cuts),
        Kind::Error => Ok(Directive::Error),
        Kind::Pragma => Ok(Directive::Nothing),
    }
}

/// The fault that the end of the line gives such a directive.
fn end_for(kind: Kind, end: Option<pieces::Fault>) -> Option<pieces::Fault>
    ensures { result ≡ spec.end_for kind end }
{
    match kind {
        Kind::Error | Kind::Pragma => None,
        Kind::Define | Kind::Undef | Kind::Include => end,
    }
}

/// The line of such a directive.
fn directive_line(
    alloc: Global,
    kind: Kind,
    hash: Place,
    end: Option<pieces::Fault>,
    cuts: &[Cut],
) -> Result<Line, NoMemory>
    ensures { IfOk result (λ line. line ≡ spec.directive_line hash end cuts.now kind) }
{
    match directive_in(alloc, kind, hash, end, cuts) {
        Ok(it) => Ok(Line::Directive(hash, form_of(end_for(kind, end)), it)),
        Err(Stop::Refused(fault)) => {
            Ok(Line::Directive(hash, Some(lexical(fault)), Directive::Nothing))
        }
        Err(Stop::Memory) => Err(NoMemory),
    }
}

/// A directive by its word.
fn by_word(
    alloc: Global,
    hash: Place,
    end: Option<pieces::Fault>,
    word: &[u8],
    cuts: &[Cut],
) -> Result<Line, NoMemory>
    ensures { IfOk result (λ line. line ≡ spec.by_parting hash end cuts.now word.now (spec.branch_named word.now)) }
{
    match branch_of(word) {
        Some(kind) => branch_line(alloc, kind, hash, end, cuts),
        None => match other_of(word) {
            Some(kind) => directive_line(alloc, kind, hash, end, cuts),
            None => Ok(Line::Directive(hash, Some(lexical(unformed(hash))), Directive::Nothing)),
        },
    }
}

/// What stands behind the first `#` of a line.
pub fn behind_hash(
    alloc: Global,
    hash: Place,
    end: Option<pieces::Fault>,
    cuts: &[Cut],
) -> Result<Line, NoMemory>
    ensures { IfOk result (λ line. line ≡ spec.behind_hash hash end cuts.now) }
{
    match cuts.split_first() {
        None => Ok(Line::Directive(hash, form_of(end), Directive::Nothing)),
        Some((word, rest)) => by_word(alloc, hash, end, word.spelling.get().as_slice(), rest),
    }
}

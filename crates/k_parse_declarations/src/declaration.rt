//! Declarations (C17 6.7), token by token, from behind their first specifier.
mod initialiser;

ghost use Rattle.std.specs.Prelude.{◌≡◌, IfOk, length};
ghost use Rattle.k_parse_steps.specs.Level as levels;
ghost use Rattle.k_parse_steps.specs.Declarations as spec;

use k_num::{Box, NoMemory, Place, Seq, Stack, Text};
use k_parse_expressions::expression::{begin_boxed, feed_boxed};
use k_parse_expressions::reading::{read_maybe, unboxed};
use k_parse_steps::declaration::initialiser::{After, Brace, Opened};
use k_parse_steps::declaration::{Declaration, DeclarationStage, Declared, Front};
use k_parse_steps::expression::Reading;
use k_parse_steps::level::plus;
use k_parse_steps::reading::{Closer, Maybe, Read};
use k_parse_steps::stars::{Stars, all_stars, no_stars, star, type_word};
use k_parse_steps::tokens::is_mark;
use k_parse_steps::turn::Turn;
use k_tree::{Declarator, Expr, Init, Mark, Token, TokenKind, Word};
use std::alloc::Global;

/// The declaration goes on.
fn declares(front: Front, stage: DeclarationStage, reach: usize) -> Declared
    ensures { result ≡ spec.declares front stage reach }
{
    let declaration = Declaration { front, stage };
    Turn::Goes(declaration, reach)
}

/// What a token does in a declaration that is kept in a box.
pub type Boxed = Turn<Box<Declaration>, (Seq<Word>, Seq<Declarator>)>;

/// A declaration whose first specifier was read.
pub fn begin_declaration(
    alloc: Global,
    word: Word,
    level: usize,
) -> Result<Box<Declaration>, NoMemory>
    ensures { IfOk result (λ declaration. declaration ≡ spec.begin_declaration word level) }
{
    let mut specs = Seq::new(alloc);
    specs.push(word)?;
    let front = Front {
        specs,
        list: Seq::new(alloc),
        level,
    };
    let stars = no_stars(alloc);
    let stage = DeclarationStage::Before { stars };
    Box::new(alloc, Declaration { front, stage })
}

/// A keyword before a name: `const` behind a star, or one more specifier.
#[tactic(auto, unfolding(k_parse_steps::specs::Declarations::word))]
fn word(front: Front, stars: Stars, word: Word) -> Result<Declared, NoMemory>
    ensures { IfOk result (λ fed. fed ≡ spec.word front stars word) }
{
    let Front { specs, list, level } = front;
    match type_word(specs, stars, list.len() == 0, word)? {
        Some((specs, stars)) => {
            let front = Front { specs, list, level };
            Ok(declares(front, DeclarationStage::Before { stars }, 0))
        }
        None => Ok(Turn::Refused),
    }
}

/// The name of a declarator.
#[tactic(auto, unfolding(k_parse_steps::specs::Declarations::name))]
fn name(
    alloc: Global,
    front: Front,
    stars: Stars,
    name: &Text,
    place: Place,
) -> Result<Declared, NoMemory>
    ensures { IfOk result (λ fed. fed ≡ spec.name front stars name.now place) }
{
    let stars = all_stars(stars)?;
    let name = Text::copy_of(alloc, name.as_str())?;
    let declarator = Declarator {
        place,
        stars,
        name,
        dims: Seq::new(alloc),
        init: None,
    };
    let declarator = Box::new(alloc, declarator)?;
    Ok(declares(front, DeclarationStage::Named { declarator }, 0))
}

/// A token before the name of a declarator.
#[tactic(auto, unfolding(k_parse_steps::specs::Declarations::before))]
fn before(alloc: Global, front: Front, stars: Stars, token: &Token) -> Result<Declared, NoMemory>
    ensures { IfOk result (λ fed. fed ≡ spec.before front stars token.now) }
{
    match &token.what {
        TokenKind::Word(word_read) => word(front, stars, *word_read),
        TokenKind::Name(name_read) => name(alloc, front, stars, name_read, token.place),
        TokenKind::Mark(mark) => mark_before(front, stars, *mark),
        _ => Ok(Turn::Refused),
    }
}

/// A mark before the name of a declarator.
#[tactic(auto, unfolding(k_parse_steps::specs::Declarations::mark_before))]
fn mark_before(front: Front, stars: Stars, mark: Mark) -> Result<Declared, NoMemory>
    ensures { IfOk result (λ fed. fed ≡ spec.mark_before front stars mark) }
{
    match mark {
        Mark::Star => {
            let stars = star(stars)?;
            Ok(declares(front, DeclarationStage::Before { stars }, 0))
        }
        _ => Ok(Turn::Refused),
    }
}

/// The mark behind a declarator.
#[tactic(auto, unfolding(k_parse_steps::specs::Declarations::end))]
fn end(
    alloc: Global,
    mut front: Front,
    declarator: Box<Declarator>,
    mark: Mark,
) -> Result<Declared, NoMemory>
    ensures { IfOk result (λ fed. fed ≡ spec.end front declarator mark) }
{
    match mark {
        Mark::Comma => {
            front.list.push(declarator.into_inner())?;
            let stars = no_stars(alloc);
            Ok(declares(front, DeclarationStage::Before { stars }, 0))
        }
        Mark::Semicolon => {
            let Front {
                specs,
                mut list,
                ..
            } = front;
            list.push(declarator.into_inner())?;
            Ok(Turn::Done((specs, list)))
        }
        _ => Ok(Turn::Refused),
    }
}

/// A mark behind the name of a declarator, or behind a dimension.
#[tactic(auto, unfolding(k_parse_steps::specs::Declarations::named))]
fn named(
    alloc: Global,
    front: Front,
    declarator: Box<Declarator>,
    mark: Mark,
) -> Result<Declared, NoMemory>
    ensures { IfOk result (λ fed. fed ≡ spec.named front declarator mark) }
{
    if is_mark(mark, Mark::LeftBracket) {
        let reading = begin_boxed(alloc, 2, front.level)?;
        let stage = DeclarationStage::Size {
            declarator,
            reading,
        };
        Ok(declares(front, stage, 0))
    } else if is_mark(mark, Mark::Equal) {
        let reach = plus(front.level, 1)?;
        let braces = Stack::new(alloc);
        let stage = DeclarationStage::Starts { declarator, braces };
        Ok(declares(front, stage, reach))
    } else {
        end(alloc, front, declarator, mark)
    }
}

/// A token behind the name of a declarator, or behind a dimension.
fn behind_name(
    alloc: Global,
    front: Front,
    declarator: Box<Declarator>,
    token: &Token,
) -> Result<Declared, NoMemory>
    ensures { IfOk result (λ fed. fed ≡ spec.kind_named front declarator token.now.what) }
{
    match &token.what {
        TokenKind::Mark(mark) => named(alloc, front, declarator, *mark),
        _ => Ok(Turn::Refused),
    }
}

/// A declarator with one more dimension.
fn sized(
    alloc: Global,
    declarator: Box<Declarator>,
    size: Option<Expr>,
) -> Result<Box<Declarator>, NoMemory>
    ensures { IfOk result (λ made. made ≡ spec.sized declarator size) }
{
    let mut declarator = declarator.into_inner();
    if let Err(NoMemory) = declarator.dims.push(size) {
        drop(declarator);
        return Err(NoMemory);
    }
    Box::new(alloc, declarator)
}

/// A token in a dimension.
#[tactic(auto, unfolding(k_parse_steps::specs::Declarations::size))]
fn size(
    alloc: Global,
    front: Front,
    declarator: Box<Declarator>,
    reading: Box<Reading>,
    token: &Token,
) -> Result<Declared, NoMemory>
    ensures { IfOk result (λ fed. fed ≡ spec.size front declarator reading token.now) }
{
    match read_maybe(alloc, reading, token, Closer::Bracket)? {
        Turn::Goes(reading, reach) => {
            let stage = DeclarationStage::Size {
                declarator,
                reading,
            };
            Ok(declares(front, stage, reach))
        }
        Turn::Done(value) => {
            let declarator = sized(alloc, declarator, unboxed(value))?;
            Ok(declares(front, DeclarationStage::Named { declarator }, 0))
        }
        Turn::Refused => Ok(Turn::Refused),
    }
}

/// The token behind an initialiser.
#[tactic(auto, unfolding(k_parse_steps::specs::Declarations::after))]
fn behind(alloc: Global, front: Front, opened: Opened, token: &Token) -> Result<Declared, NoMemory>
    ensures { IfOk result (λ fed. fed ≡ spec.after front opened token.now) }
{
    let TokenKind::Mark(mark) = &token.what else {
        return Ok(Turn::Refused);
    };
    match initialiser::behind(alloc, opened, *mark)? {
        After::Starts { opened } => {
            let Opened { declarator, braces } = opened;
            Ok(declares(front, DeclarationStage::Starts { declarator, braces }, 0))
        }
        After::Closed { opened } => {
            let Opened { declarator, braces } = opened;
            Ok(declares(front, DeclarationStage::After { declarator, braces }, 0))
        }
        After::Done { declarator } => end(alloc, front, declarator, *mark),
        After::Refused => Ok(Turn::Refused),
    }
}

/// A token where an initialiser begins.
#[tactic(auto, unfolding(k_parse_steps::specs::Declarations::starts))]
fn starts(alloc: Global, front: Front, opened: Opened, token: &Token) -> Result<Declared, NoMemory>
    ensures { IfOk result (λ fed. fed ≡ spec.starts front opened token.now) }
{
    match &token.what {
        TokenKind::Mark(mark) => mark_starts(alloc, front, opened, token, *mark),
        _ => first(alloc, front, opened, token),
    }
}

/// A mark where an initialiser begins.
#[tactic(auto, unfolding(k_parse_steps::specs::Declarations::mark_starts))]
fn mark_starts(
    alloc: Global,
    front: Front,
    opened: Opened,
    token: &Token,
    mark: Mark,
) -> Result<Declared, NoMemory>
    ensures { IfOk result (λ fed. fed ≡ spec.mark_starts front opened token.now mark) }
{
    if is_mark(mark, Mark::LeftBrace) {
        open_brace(alloc, front, opened, token.place)
    } else if is_mark(mark, Mark::RightBrace) {
        last_comma(alloc, front, opened)
    } else {
        first(alloc, front, opened, token)
    }
}

/// The level that lies so far below an initialiser that begins in these braces.
fn below_braces(level: usize, braces: &Stack<Brace>, below: usize) -> Result<usize, NoMemory>
    ensures { IfOk result (λ sum. sum ≡ levels.plus (levels.plus level (length braces.now)) below) }
{
    plus(plus(level, braces.len())?, below)
}

/// A brace opens.
#[tactic(auto, unfolding(k_parse_steps::specs::Declarations::brace))]
fn open_brace(
    alloc: Global,
    front: Front,
    opened: Opened,
    place: Place,
) -> Result<Declared, NoMemory>
    ensures { IfOk result (λ fed. fed ≡ spec.brace front opened place) }
{
    let Opened {
        declarator,
        mut braces,
    } = opened;
    let reach = below_braces(front.level, &braces, 2)?;
    let items = Seq::new(alloc);
    braces.push(Brace { place, items })?;
    let stage = DeclarationStage::Starts { declarator, braces };
    Ok(declares(front, stage, reach))
}

/// A brace closes behind a comma.
#[tactic(auto, unfolding(k_parse_steps::specs::Declarations::last_comma))]
fn last_comma(alloc: Global, front: Front, opened: Opened) -> Result<Declared, NoMemory>
    ensures { IfOk result (λ fed. fed ≡ spec.last_comma front opened) }
{
    match initialiser::last_comma(alloc, opened)? {
        None => Ok(Turn::Refused),
        Some(opened) => {
            let Opened { declarator, braces } = opened;
            Ok(declares(front, DeclarationStage::After { declarator, braces }, 0))
        }
    }
}

/// The first token of an expression that is an initialiser.
#[tactic(auto, unfolding(k_parse_steps::specs::Declarations::first_token))]
fn first(alloc: Global, front: Front, opened: Opened, token: &Token) -> Result<Declared, NoMemory>
    ensures { IfOk result (λ fed. fed ≡ spec.first_token front opened token.now) }
{
    let Opened { declarator, braces } = opened;
    let level = below_braces(front.level, &braces, 1)?;
    let reading = begin_boxed(alloc, 1, level)?;
    match feed_boxed(alloc, reading, token)? {
        Turn::Goes(reading, reach) => {
            let place = token.place;
            let stage = DeclarationStage::Value {
                declarator,
                braces,
                place,
                reading,
            };
            Ok(declares(front, stage, reach))
        }
        Turn::Done(value) => {
            drop(value);
            Ok(Turn::Refused)
        }
        Turn::Refused => Ok(Turn::Refused),
    }
}

/// A token in an expression that is an initialiser.
#[tactic(auto, unfolding(k_parse_steps::specs::Declarations::value))]
fn value(
    alloc: Global,
    front: Front,
    opened: Opened,
    place: Place,
    reading: Box<Reading>,
    token: &Token,
) -> Result<Declared, NoMemory>
    ensures { IfOk result (λ fed. fed ≡ spec.value front opened place reading token.now) }
{
    match feed_boxed(alloc, reading, token)? {
        Turn::Goes(reading, reach) => {
            let Opened { declarator, braces } = opened;
            let stage = DeclarationStage::Value {
                declarator,
                braces,
                place,
                reading,
            };
            Ok(declares(front, stage, reach))
        }
        Turn::Done(value) => {
            let value = value.into_inner();
            let opened = initialiser::plug(alloc, opened, Init::One { place, value })?;
            behind(alloc, front, opened, token)
        }
        Turn::Refused => Ok(Turn::Refused),
    }
}

/// The next token of a declaration.
pub fn feed_declaration(
    alloc: Global,
    declaration: Box<Declaration>,
    token: &Token,
) -> Result<Boxed, NoMemory>
    ensures { IfOk result (λ fed. fed ≡ spec.feed_declaration declaration token.now) }
{
    match feed(alloc, declaration.into_inner(), token)? {
        Turn::Goes(declaration, reach) => {
            let declaration = Box::new(alloc, declaration)?;
            Ok(Turn::Goes(declaration, reach))
        }
        Turn::Done(declared) => Ok(Turn::Done(declared)),
        Turn::Refused => Ok(Turn::Refused),
    }
}

/// The next token of a declaration that is out of its box.
#[tactic(auto, unfolding(k_parse_steps::specs::Declarations::feed_declaration))]
fn feed(alloc: Global, declaration: Declaration, token: &Token) -> Result<Declared, NoMemory>
    ensures { IfOk result (λ fed. fed ≡ spec.feed_declaration declaration token.now) }
{
    let Declaration { front, stage } = declaration;
    match stage {
        DeclarationStage::Before { stars } => before(alloc, front, stars, token),
        DeclarationStage::Named { declarator } => behind_name(alloc, front, declarator, token),
        DeclarationStage::Size {
            declarator,
            reading,
        } => size(alloc, front, declarator, reading, token),
        DeclarationStage::Starts { declarator, braces } => {
            starts(alloc, front, Opened { declarator, braces }, token)
        }
        DeclarationStage::Value {
            declarator,
            braces,
            place,
            reading,
        } => value(
            alloc,
            front,
            Opened { declarator, braces },
            place,
            reading,
            token,
        ),
        DeclarationStage::After { declarator, braces } => {
            behind(alloc, front, Opened { declarator, braces }, token)
        }
    }
}

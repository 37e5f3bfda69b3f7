//! Parameters of a function (C17 6.7.6.3), token by token, from behind the opening parenthesis.
ghost use Rattle.std.specs.Prelude.{◌≡◌, IfOk};
ghost use Rattle.k_parse_steps.specs.Parameters as spec;

use k_num::{Box, NoMemory, Place, Seq, Text};
use k_parse_expressions::expression::begin_boxed;
use k_parse_expressions::reading::{read_maybe, unboxed};
use k_parse_steps::expression::Reading;
use k_parse_steps::operators::is_spec;
use k_parse_steps::parameter::{ParameterStage, Parameters, Parametric};
use k_parse_steps::reading::{Closer, Maybe};
use k_parse_steps::stars::{Stars, all_stars, no_stars, star, type_word};
use k_parse_steps::tokens::{is_mark, is_word};
use k_parse_steps::turn::Turn;
use k_tree::{Mark, Param, Params, Token, TokenKind, Word};
use std::alloc::Global;
use std::mem;

/// The parameters go on.
fn follows(list: Seq<Param>, stage: ParameterStage, reach: usize) -> Parametric
    ensures { result ≡ spec.follows list stage reach }
{
    let parameters = Parameters { list, stage };
    Turn::Goes(parameters, reach)
}

/// No parameter was read.
pub fn begin_parameters(alloc: Global) -> Parameters
    ensures { result ≡ spec.begin_parameters }
{
    Parameters {
        list: Seq::new(alloc),
        stage: ParameterStage::Starts,
    }
}

/// A keyword where a parameter begins.
#[tactic(auto, unfolding(k_parse_steps::specs::Parameters::starts))]
fn starts(alloc: Global, list: Seq<Param>, word: Word, place: Place) -> Result<Parametric, NoMemory>
    ensures { IfOk result (λ fed. fed ≡ spec.starts list word place) }
{
    if !is_spec(word) {
        return Ok(Turn::Refused);
    }
    let mut specs = Seq::new(alloc);
    specs.push(word)?;
    let param = Param {
        place,
        specs,
        stars: Seq::new(alloc),
        name: None,
        dims: Seq::new(alloc),
    };
    let stars = no_stars(alloc);
    Ok(follows(list, ParameterStage::Typed { param, stars }, 0))
}

/// A closing parenthesis where a parameter could begin.
#[tactic(auto, unfolding(k_parse_steps::specs::Parameters::none))]
fn none(list: Seq<Param>) -> Parametric
    ensures { result ≡ spec.none list }
{
    if list.len() > 0 {
        return Turn::Refused;
    }
    Turn::Done(Params::Empty)
}

/// A token where a parameter begins.
#[tactic(auto, unfolding(k_parse_steps::specs::Parameters::first_token))]
fn first(alloc: Global, list: Seq<Param>, token: &Token) -> Result<Parametric, NoMemory>
    ensures { IfOk result (λ fed. fed ≡ spec.first_token list token.now) }
{
    match &token.what {
        TokenKind::Word(word) => starts(alloc, list, *word, token.place),
        TokenKind::Mark(mark) => Ok(mark_first(list, *mark)),
        _ => Ok(Turn::Refused),
    }
}

/// A mark where a parameter begins.
#[tactic(auto, unfolding(k_parse_steps::specs::Parameters::mark_first))]
fn mark_first(list: Seq<Param>, mark: Mark) -> Parametric
    ensures { result ≡ spec.mark_first list mark }
{
    match mark {
        Mark::RightParen => none(list),
        _ => Turn::Refused,
    }
}

/// Is `void` the only specifier?
fn is_void_list(specs: &[Word]) -> bool
    ensures { result ≡ spec.is_void_list specs.now }
{
    match specs {
        [word] => is_word(*word, Word::Void),
        _ => false,
    }
}

/// Is it `void` alone?
#[tactic(auto, unfolding(k_parse_steps::specs::Parameters::is_void_alone))]
fn is_void_alone(param: &Param) -> bool
    ensures { result ≡ spec.is_void_alone param.now }
{
    is_void_list(param.specs.as_slice())
        && param.stars.len() == 0
        && param.name.is_none()
        && param.dims.len() == 0
}

/// The mark behind a parameter.
#[tactic(auto, unfolding(k_parse_steps::specs::Parameters::end))]
fn end(mut list: Seq<Param>, param: Param, mark: Mark) -> Result<Parametric, NoMemory>
    ensures { IfOk result (λ fed. fed ≡ spec.end list param mark) }
{
    match mark {
        Mark::Comma => {
            list.push(param)?;
            Ok(follows(list, ParameterStage::Starts, 0))
        }
        Mark::RightParen => {
            if list.len() == 0 && is_void_alone(&param) {
                drop(param);
                return Ok(Turn::Done(Params::Void));
            }
            list.push(param)?;
            Ok(Turn::Done(Params::List(list)))
        }
        _ => {
            drop(param);
            Ok(Turn::Refused)
        }
    }
}

/// A mark behind the type or the name of a parameter.
#[tactic(auto, unfolding(k_parse_steps::specs::Parameters::named))]
fn named(alloc: Global, list: Seq<Param>, param: Param, mark: Mark) -> Result<Parametric, NoMemory>
    ensures { IfOk result (λ fed. fed ≡ spec.named list param mark) }
{
    if is_mark(mark, Mark::LeftBracket) {
        let reading = match begin_boxed(alloc, 2, 1) {
            Ok(reading) => reading,
            Err(NoMemory) => {
                drop(param);
                return Err(NoMemory);
            }
        };
        Ok(follows(list, ParameterStage::Size { param, reading }, 0))
    } else {
        end(list, param, mark)
    }
}

/// A token behind the name of a parameter, or behind a dimension.
fn behind_name(
    alloc: Global,
    list: Seq<Param>,
    param: Param,
    token: &Token,
) -> Result<Parametric, NoMemory>
    ensures { IfOk result (λ fed. fed ≡ spec.kind_named list param token.now.what) }
{
    match &token.what {
        TokenKind::Mark(mark) => named(alloc, list, param, *mark),
        _ => {
            drop(param);
            Ok(Turn::Refused)
        }
    }
}

/// A keyword in the type of a parameter.
#[tactic(auto, unfolding(k_parse_steps::specs::Parameters::word))]
fn word(list: Seq<Param>, param: Param, stars: Stars, word: Word) -> Result<Parametric, NoMemory>
    ensures { IfOk result (λ fed. fed ≡ spec.word list param stars word) }
{
    let Param {
        place,
        specs,
        stars: done,
        name,
        dims,
    } = param;
    match type_word(specs, stars, true, word)? {
        Some((specs, stars)) => {
            let param = Param {
                place,
                specs,
                stars: done,
                name,
                dims,
            };
            Ok(follows(list, ParameterStage::Typed { param, stars }, 0))
        }
        None => Ok(Turn::Refused),
    }
}

/// The stars of a parameter are done.
fn starred(mut param: Param, stars: Stars) -> Result<Param, NoMemory>
    ensures { IfOk result (λ made. made ≡ spec.starred param stars) }
{
    match all_stars(stars) {
        Ok(stars) => {
            param.stars = stars;
            Ok(param)
        }
        Err(NoMemory) => {
            drop(param);
            Err(NoMemory)
        }
    }
}

/// The name of a parameter.
#[tactic(auto, unfolding(k_parse_steps::specs::Parameters::name))]
fn name(
    alloc: Global,
    list: Seq<Param>,
    param: Param,
    stars: Stars,
    name: &Text,
) -> Result<Parametric, NoMemory>
    ensures { IfOk result (λ fed. fed ≡ spec.name list param stars name.now) }
{
    let mut param = starred(param, stars)?;
    match Text::copy_of(alloc, name.as_str()) {
        Ok(name) => {
            drop(mem::replace(&mut param.name, Some(name)));
            Ok(follows(list, ParameterStage::Named { param }, 0))
        }
        Err(NoMemory) => {
            drop(param);
            Err(NoMemory)
        }
    }
}

/// A token in the type of a parameter, or behind it.
#[tactic(auto, unfolding(k_parse_steps::specs::Parameters::typed))]
fn typed(
    alloc: Global,
    list: Seq<Param>,
    param: Param,
    stars: Stars,
    token: &Token,
) -> Result<Parametric, NoMemory>
    ensures { IfOk result (λ fed. fed ≡ spec.typed list param stars token.now) }
{
    match &token.what {
        TokenKind::Word(word_read) => word(list, param, stars, *word_read),
        TokenKind::Name(name_read) => name(alloc, list, param, stars, name_read),
        TokenKind::Mark(mark) => mark_typed(alloc, list, param, stars, *mark),
        _ => {
            drop(param);
            Ok(Turn::Refused)
        }
    }
}

/// A mark in the type of a parameter, or behind it.
#[tactic(auto, unfolding(k_parse_steps::specs::Parameters::mark_typed))]
fn mark_typed(
    alloc: Global,
    list: Seq<Param>,
    param: Param,
    stars: Stars,
    mark: Mark,
) -> Result<Parametric, NoMemory>
    ensures { IfOk result (λ fed. fed ≡ spec.mark_typed list param stars mark) }
{
    if is_mark(mark, Mark::Star) {
        match star(stars) {
            Ok(stars) => Ok(follows(list, ParameterStage::Typed { param, stars }, 0)),
            Err(NoMemory) => {
                drop(param);
                Err(NoMemory)
            }
        }
    } else {
        let param = starred(param, stars)?;
        named(alloc, list, param, mark)
    }
}

/// A token in a dimension.
#[tactic(auto, unfolding(k_parse_steps::specs::Parameters::size))]
fn size(
    alloc: Global,
    list: Seq<Param>,
    mut param: Param,
    reading: Box<Reading>,
    token: &Token,
) -> Result<Parametric, NoMemory>
    ensures { IfOk result (λ fed. fed ≡ spec.size list param reading token.now) }
{
    let read = match read_maybe(alloc, reading, token, Closer::Bracket) {
        Ok(read) => read,
        Err(NoMemory) => {
            drop(param);
            return Err(NoMemory);
        }
    };
    match read {
        Turn::Goes(reading, reach) => Ok(follows(
            list,
            ParameterStage::Size { param, reading },
            reach,
        )),
        Turn::Done(value) => {
            if let Err(NoMemory) = param.dims.push(unboxed(value)) {
                drop(param);
                return Err(NoMemory);
            }
            Ok(follows(list, ParameterStage::Named { param }, 0))
        }
        Turn::Refused => {
            drop(param);
            Ok(Turn::Refused)
        }
    }
}

/// The next token of parameters.
#[tactic(auto, unfolding(k_parse_steps::specs::Parameters::feed_parameters))]
pub fn feed_parameters(
    alloc: Global,
    parameters: Parameters,
    token: &Token,
) -> Result<Parametric, NoMemory>
    ensures { IfOk result (λ fed. fed ≡ spec.feed_parameters parameters token.now) }
{
    let Parameters { list, stage } = parameters;
    match stage {
        ParameterStage::Starts => first(alloc, list, token),
        ParameterStage::Typed { param, stars } => typed(alloc, list, param, stars, token),
        ParameterStage::Named { param } => behind_name(alloc, list, param, token),
        ParameterStage::Size { param, reading } => size(alloc, list, param, reading, token),
    }
}

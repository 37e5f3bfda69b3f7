//! A source (C17 6.9), token by token.
ghost use Rattle.std.specs.Prelude.{◌≡◌, IfOk};
ghost use Rattle.k_parse_steps.specs.Parameters.{begin_parameters};
ghost use Rattle.k_parse_steps.specs.Sources as spec;
ghost use Rattle.k_parse_steps.specs.declared.source.SourceStage.TheVariants as stages;
ghost use Rattle.k_parse_steps.specs.declared.turn.Turn.TheVariants as turns;
ghost use Rattle.k_parse_steps.specs.Declarations.{feed_declaration};

use crate::statement::{begin_body, feed_body};
use k_num::{Box, NoMemory, Place, Seq};
use k_parse_declarations::declaration::{Boxed, begin_declaration, feed_declaration};
use k_parse_declarations::parameter::{begin_parameters, feed_parameters};
use k_parse_steps::declaration::{Declaration, DeclarationStage, Front};
use k_parse_steps::operators::is_spec;
use k_parse_steps::parameter::{Parameters, Parametric};
use k_parse_steps::source::{Source, SourceStage, Sourced, Title};
use k_parse_steps::statement::{Body, Stepped};
use k_parse_steps::tokens::token_is_mark;
use k_parse_steps::turn::Turn;
use k_tree::{Declarator, Head, Item, Mark, Params, Token, TokenKind, Unit, Word};
use std::alloc::Global;

fn goes_on(items: Seq<Item>, stage: SourceStage, reach: usize) -> Sourced
    ensures { result ≡ spec.goes_on items stage reach }
{
    let source = Source { items, stage };
    Turn::Goes(source, reach)
}

/// No token was read.
pub fn begin_source(alloc: Global) -> Source
    ensures { result ≡ spec.begin_source }
{
    Source {
        items: Seq::new(alloc),
        stage: SourceStage::Starts,
    }
}

/// An item ended.
fn item_done(mut items: Seq<Item>, item: Item) -> Result<Sourced, NoMemory>
    ensures { IfOk result (λ fed. fed ≡ spec.item_done items item) }
{
    items.push(item)?;
    Ok(goes_on(items, SourceStage::Starts, 0))
}

/// A token where an item begins.
#[tactic(auto, unfolding(k_parse_steps::specs::Sources::starts))]
fn starts(alloc: Global, items: Seq<Item>, token: &Token) -> Result<Sourced, NoMemory>
    ensures { IfOk result (λ fed. fed ≡ spec.starts items token.now) }
{
    let place = token.place;
    match &token.what {
        TokenKind::End => Ok(Turn::Done(Unit { items, end: place })),
        TokenKind::Word(word) => {
            if !is_spec(*word) {
                return Ok(Turn::Refused);
            }
            let declaration = begin_declaration(alloc, *word, 1)?;
            Ok(goes_on(items, SourceStage::Declares { place, declaration }, 0))
        }
        _ => Ok(Turn::Refused),
    }
}

/// Was just the name of the first declarator read?
#[tactic(auto, unfolding(k_parse_steps::specs::Sources::is_titled))]
fn is_titled(declaration: &Declaration) -> bool
    ensures { result ≡ spec.is_titled declaration.now }
{
    match &declaration.stage {
        DeclarationStage::Named { declarator } => {
            declaration.front.list.len() == 0 && declarator.get().dims.len() == 0
        }
        _ => false,
    }
}

/// The head of a function before its parameters.
fn title_of(front: Front, declarator: Box<Declarator>) -> Title
    ensures { result ≡ spec.title_of front declarator }
{
    let Front { specs, .. } = front;
    let Declarator {
        place: name_place,
        stars,
        name,
        dims,
        init,
    } = declarator.into_inner();
    drop(dims);
    drop(init);
    Title {
        specs,
        stars,
        name,
        name_place,
    }
}

/// The parameters of a function go on.
fn in_parameters(
    alloc: Global,
    items: Seq<Item>,
    place: Place,
    title: Title,
    parameters: Parameters,
    reach: usize,
) -> Result<Sourced, NoMemory>
    ensures { IfOk result (λ fed. fed ≡ spec.goes_on items (stages.Parameters place title parameters) reach) }
{
    let parameters = match Box::new(alloc, parameters) {
        Ok(parameters) => parameters,
        Err(NoMemory) => {
            drop(title);
            return Err(NoMemory);
        }
    };
    let stage = SourceStage::Parameters {
        place,
        title,
        parameters,
    };
    Ok(goes_on(items, stage, reach))
}

/// The parameters of a function begin.
fn parameters_begin(
    alloc: Global,
    items: Seq<Item>,
    place: Place,
    front: Front,
    declarator: Box<Declarator>,
) -> Result<Sourced, NoMemory>
    ensures { IfOk result (λ fed. fed ≡ spec.goes_on items (stages.Parameters place (spec.title_of front declarator) begin_parameters) 0) }
{
    let title = title_of(front, declarator);
    in_parameters(alloc, items, place, title, begin_parameters(alloc), 0)
}

/// `(` at a stage where no function's parameters can begin.
fn refused(stage: DeclarationStage) -> Sourced
    ensures { result ≡ turns.Refused }
{
    drop(stage);
    Turn::Refused
}

/// `(` in an item at this stage.
fn titled_at(
    alloc: Global,
    items: Seq<Item>,
    place: Place,
    front: Front,
    stage: DeclarationStage,
) -> Result<Sourced, NoMemory>
    ensures { IfOk result (λ fed. fed ≡ spec.titled_at items place front stage) }
{
    match stage {
        DeclarationStage::Named { declarator } => parameters_begin(
            alloc, items, place, front, declarator,
        ),
        stage => Ok(refused(stage)),
    }
}

/// `(` in an item of which just the name of the first declarator was read.
#[tactic(auto, unfolding(k_parse_steps::specs::Sources::titled))]
fn titled(
    alloc: Global,
    items: Seq<Item>,
    place: Place,
    declaration: Box<Declaration>,
) -> Result<Sourced, NoMemory>
    ensures { IfOk result (λ fed. fed ≡ spec.titled items place declaration) }
{
    let Declaration { front, stage } = declaration.into_inner();
    titled_at(alloc, items, place, front, stage)
}

/// A token in an item that is a declaration, as far as can be told.
fn declared(
    alloc: Global,
    items: Seq<Item>,
    place: Place,
    declaration: Box<Declaration>,
    token: &Token,
) -> Result<Sourced, NoMemory>
    ensures { IfOk result (λ fed. fed ≡ spec.declares_by items place (feed_declaration declaration token.now)) }
{
    match feed_declaration(alloc, declaration, token)? {
        Turn::Goes(declaration, reach) => {
            Ok(goes_on(items, SourceStage::Declares { place, declaration }, reach))
        }
        Turn::Done((specs, list)) => item_done(items, Item::Objects { place, specs, list }),
        Turn::Refused => Ok(Turn::Refused),
    }
}

/// A token in an item that may be a declaration or a function.
#[tactic(auto, unfolding(k_parse_steps::specs::Sources::declares))]
fn declares(
    alloc: Global,
    items: Seq<Item>,
    place: Place,
    declaration: Box<Declaration>,
    token: &Token,
) -> Result<Sourced, NoMemory>
    ensures { IfOk result (λ fed. fed ≡ spec.declares items place declaration token.now) }
{
    if token_is_mark(token, Mark::LeftParen) && is_titled(declaration.get()) {
        titled(alloc, items, place, declaration)
    } else {
        declared(alloc, items, place, declaration, token)
    }
}

fn head_of(title: Title, params: Params) -> Head
    ensures { result ≡ spec.head_of title params }
{
    let Title {
        specs,
        stars,
        name,
        name_place,
    } = title;
    Head {
        specs,
        stars,
        name,
        name_place,
        params,
    }
}

/// A token in the parameters of a function.
#[tactic(auto, unfolding(k_parse_steps::specs::Sources::parameters))]
fn parameters(
    alloc: Global,
    items: Seq<Item>,
    place: Place,
    title: Title,
    parameters: Box<Parameters>,
    token: &Token,
) -> Result<Sourced, NoMemory>
    ensures { IfOk result (λ fed. fed ≡ spec.parameters items place title parameters token.now) }
{
    let fed = match feed_parameters(alloc, parameters.into_inner(), token) {
        Ok(fed) => fed,
        Err(NoMemory) => {
            drop(title);
            return Err(NoMemory);
        }
    };
    match fed {
        Turn::Goes(parameters, reach) => {
            in_parameters(alloc, items, place, title, parameters, reach)
        }
        Turn::Done(params) => {
            let head = Box::new(alloc, head_of(title, params))?;
            Ok(goes_on(items, SourceStage::Headed { place, head }, 0))
        }
        Turn::Refused => {
            drop(title);
            Ok(Turn::Refused)
        }
    }
}

/// The mark behind the head of a function.
#[tactic(auto, unfolding(k_parse_steps::specs::Sources::mark_headed))]
fn mark_headed(
    alloc: Global,
    items: Seq<Item>,
    place: Place,
    head: Box<Head>,
    mark: Mark,
) -> Result<Sourced, NoMemory>
    ensures { IfOk result (λ fed. fed ≡ spec.mark_headed items place head mark) }
{
    match mark {
        Mark::Semicolon => item_done(
            items,
            Item::Prototype {
                place,
                head: head.into_inner(),
            },
        ),
        Mark::LeftBrace => {
            let body = begin_body(alloc);
            Ok(goes_on(items, SourceStage::Body { place, head, body }, 0))
        }
        _ => Ok(Turn::Refused),
    }
}

/// The token behind the head of a function.
#[tactic(auto, unfolding(k_parse_steps::specs::Sources::headed))]
fn headed(
    alloc: Global,
    items: Seq<Item>,
    place: Place,
    head: Box<Head>,
    token: &Token,
) -> Result<Sourced, NoMemory>
    ensures { IfOk result (λ fed. fed ≡ spec.headed items place head token.now) }
{
    match &token.what {
        TokenKind::Mark(mark) => mark_headed(alloc, items, place, head, *mark),
        _ => Ok(Turn::Refused),
    }
}

/// A token in the block of a function.
#[tactic(auto, unfolding(k_parse_steps::specs::Sources::in_body))]
fn in_body(
    alloc: Global,
    items: Seq<Item>,
    place: Place,
    head: Box<Head>,
    body: Body,
    token: &Token,
) -> Result<Sourced, NoMemory>
    ensures { IfOk result (λ fed. fed ≡ spec.in_body items place head body token.now) }
{
    match feed_body(alloc, body, token)? {
        Turn::Goes(body, reach) => {
            Ok(goes_on(items, SourceStage::Body { place, head, body }, reach))
        }
        Turn::Done(parts) => {
            let item = Item::Function {
                place,
                head: head.into_inner(),
                body: parts,
                close: token.place,
            };
            item_done(items, item)
        }
        Turn::Refused => Ok(Turn::Refused),
    }
}

/// The next token of a source.
#[tactic(auto, unfolding(k_parse_steps::specs::Sources::feed_source))]
pub fn feed_source(alloc: Global, source: Source, token: &Token) -> Result<Sourced, NoMemory>
    ensures { IfOk result (λ fed. fed ≡ spec.feed_source source token.now) }
{
    let Source { items, stage } = source;
    match stage {
        SourceStage::Starts => starts(alloc, items, token),
        SourceStage::Declares { place, declaration } => {
            declares(alloc, items, place, declaration, token)
        }
        SourceStage::Parameters {
            place,
            title,
            parameters: list,
        } => parameters(alloc, items, place, title, list, token),
        SourceStage::Headed { place, head } => headed(alloc, items, place, head, token),
        SourceStage::Body { place, head, body } => in_body(alloc, items, place, head, body, token),
    }
}

//! Initialisers (C17 6.7.9).
ghost use Rattle.std.specs.Prelude.{◌≡◌, ◌++◌, ◌∷◌, [], IfOk, OnOk};
ghost use Rattle.k_parse_steps.specs.Initialisers as spec;

use k_num::{Box, NoMemory, Place, Seq, Stack};
use k_parse_steps::declaration::initialiser::{After, Brace, Opened};
use k_tree::{Declarator, Init, Mark};
use std::alloc::Global;
use std::mem;

/// One more initialiser in the innermost brace, which was taken off.
fn put(braces: &mut Stack<Brace>, brace: Brace, init: Init) -> Result<(), NoMemory>
    ensures { OnOk result (braces.new ≡ record { place = brace.place; items = brace.items ++ init ∷ [] } ∷ braces.old) }
{
    let Brace { place, mut items } = brace;
    items.push(init)?;
    braces.push(Brace { place, items })
}

/// An initialiser that ends belongs to the innermost brace, or to the declarator.
#[tactic(auto, unfolding(k_parse_steps::specs::Initialisers::plug))]
pub fn plug(alloc: Global, opened: Opened, init: Init) -> Result<Opened, NoMemory>
    ensures { IfOk result (λ made. made ≡ spec.plug opened init) }
{
    let Opened {
        declarator,
        mut braces,
    } = opened;
    match braces.pop() {
        None => {
            let declarator = initialised(alloc, declarator, init)?;
            Ok(Opened { declarator, braces })
        }
        Some(brace) => {
            put(&mut braces, brace, init)?;
            Ok(Opened { declarator, braces })
        }
    }
}

/// A declarator with its initialiser.
fn initialised(
    alloc: Global,
    declarator: Box<Declarator>,
    init: Init,
) -> Result<Box<Declarator>, NoMemory>
    ensures { IfOk result (λ made. made ≡ spec.initialised declarator init) }
{
    let mut declarator = declarator.into_inner();
    drop(mem::replace(&mut declarator.init, Some(init)));
    Box::new(alloc, declarator)
}

/// The mark behind an initialiser.
#[tactic(auto, unfolding(k_parse_steps::specs::Initialisers::after, k_parse_steps::specs::Initialisers::plug))]
pub fn behind(alloc: Global, opened: Opened, mark: Mark) -> Result<After, NoMemory>
    ensures { IfOk result (λ made. made ≡ spec.after opened mark) }
{
    let Opened {
        declarator,
        mut braces,
    } = opened;
    let Some(brace) = braces.pop() else {
        return Ok(After::Done { declarator });
    };
    match mark {
        Mark::Comma => {
            braces.push(brace)?;
            let opened = Opened { declarator, braces };
            Ok(After::Starts { opened })
        }
        Mark::RightBrace => {
            let opened = Opened { declarator, braces };
            let opened = plug(alloc, opened, listed(brace, false))?;
            Ok(After::Closed { opened })
        }
        _ => Ok(After::Refused),
    }
}

/// The initialisers of a brace that closes.
fn listed(brace: Brace, comma: bool) -> Init
    ensures { result ≡ spec.listed brace comma }
{
    let Brace { place, items } = brace;
    Init::List {
        place,
        items,
        comma,
    }
}

/// A closing brace behind a comma: some initialiser has to stand before that.
#[tactic(auto, unfolding(k_parse_steps::specs::Initialisers::last_comma, k_parse_steps::specs::Initialisers::plug))]
pub fn last_comma(alloc: Global, opened: Opened) -> Result<Option<Opened>, NoMemory>
    ensures { IfOk result (λ made. made ≡ spec.last_comma opened) }
{
    let Opened {
        declarator,
        mut braces,
    } = opened;
    let Some(brace) = braces.pop() else {
        return Ok(None);
    };
    if brace.items.len() == 0 {
        return Ok(None);
    }
    let opened = Opened { declarator, braces };
    Ok(Some(plug(alloc, opened, listed(brace, true))?))
}

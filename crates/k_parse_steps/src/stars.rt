//! Specifiers, and stars before a name, each with `const` behind it or not (C17 6.7.6.1).
ghost use Rattle.std.specs.Prelude.{◌≡◌, [], IfOk, false};
ghost use Rattle.k_parse_steps.specs.Stars as spec;

use crate::operators::is_spec;
use crate::tokens::is_word;
use k_num::{NoMemory, Seq};
use k_tree::Word;
use std::alloc::Global;

/// Stars so far: those that are done, and whether one more was read behind which `const` may come.
#[derive(Drop)]
pub struct Stars {
    pub done: Seq<bool>,
    pub pending: bool,
}

/// No stars.
pub fn no_stars(alloc: Global) -> Stars
    ensures { result ≡ spec.no_stars }
{
    Stars {
        done: Seq::new(alloc),
        pending: false,
    }
}

/// The stars, one by one.
pub fn all_stars(stars: Stars) -> Result<Seq<bool>, NoMemory>
    ensures { IfOk result (λ all. all ≡ spec.all_stars stars) }
{
    let Stars { mut done, pending } = stars;
    if pending {
        done.push(false)?;
    }
    Ok(done)
}

/// One star more.
pub fn star(stars: Stars) -> Result<Stars, NoMemory>
    ensures { IfOk result (λ more. more ≡ spec.star stars) }
{
    let done = all_stars(stars)?;
    Ok(Stars {
        done,
        pending: true,
    })
}

/// `const` behind the last star.
pub fn constant(stars: Stars) -> Result<Stars, NoMemory>
    ensures { IfOk result (λ more. more ≡ spec.constant stars) }
{
    let Stars { mut done, .. } = stars;
    done.push(true)?;
    Ok(Stars {
        done,
        pending: false,
    })
}

/// A word behind these specifiers and stars: `const` behind a star, or one more specifier before the first star, where `more`
/// says that one may stand. None: the word can't stand there.
#[tactic(auto, unfolding(crate::specs::Stars::type_word))]
pub fn type_word(
    mut specs: Seq<Word>,
    stars: Stars,
    more: bool,
    word: Word,
) -> Result<Option<(Seq<Word>, Stars)>, NoMemory>
    ensures { IfOk result (λ read. read ≡ spec.type_word specs stars more word) }
{
    if stars.pending {
        if !is_word(word, Word::Const) {
            return Ok(None);
        }
        let stars = constant(stars)?;
        return Ok(Some((specs, stars)));
    }
    if stars.done.len() > 0 || !more || !is_spec(word) {
        return Ok(None);
    }
    specs.push(word)?;
    Ok(Some((specs, stars)))
}

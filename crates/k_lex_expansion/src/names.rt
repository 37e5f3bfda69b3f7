//! Sets of names.
ghost use Rattle.std.specs.Prelude.{◌≡◌, [], ◌∷◌, ◌++◌, IfOk};
ghost use Rattle.k_lex_expansion.specs.Names as spec;

use crate::shared::Shared;
use crate::tokens::{Names, Spelling};
use k_lex_pieces::words::is_same;
use k_num::{NoMemory, Seq};
use std::alloc::Global;

/// Whether the set has the name.
pub fn has(names: &[Spelling], name: &[u8]) -> bool
    ensures { result ≡ spec.has names.now name.now }
{
    for one in names {
        if is_same(one.get().as_slice(), name) {
            return true;
        }
    }
    false
}

/// Copies of the names, in the same order.
fn copy_of(alloc: Global, names: &[Spelling]) -> Result<Seq<Spelling>, NoMemory>
    ensures { IfOk result (λ copy. copy ≡ names.now) }
{
    let mut copy = Seq::new(alloc);
    for name in names {
        copy.push(name.share()?)?;
    }
    Ok(copy)
}

/// The names of a set, and then those of another that it lacks.
fn joined(alloc: Global, a: &[Spelling], b: &[Spelling]) -> Result<Seq<Spelling>, NoMemory>
    ensures { IfOk result (λ all. all ≡ spec.joined a.now b.now) }
{
    let mut all = copy_of(alloc, a)?;
    for name in b {
        if !has(a, name.get().as_slice()) {
            all.push(name.share()?)?;
        }
    }
    Ok(all)
}

/// The names of either set.
pub fn either(alloc: Global, a: &Names, b: &Names) -> Result<Names, NoMemory>
    ensures { IfOk result (λ all. all ≡ spec.either a.now b.now) }
{
    match a.get().as_slice().split_first() {
        None => b.share(),
        Some(_) => Shared::new(
            alloc,
            joined(alloc, a.get().as_slice(), b.get().as_slice())?,
        ),
    }
}

/// The names that both sets have.
pub fn both(alloc: Global, a: &[Spelling], b: &[Spelling]) -> Result<Seq<Spelling>, NoMemory>
    ensures { IfOk result (λ all. all ≡ spec.both a.now b.now) }
{
    let mut all = Seq::new(alloc);
    for name in a {
        if has(b, name.get().as_slice()) {
            all.push(name.share()?)?;
        }
    }
    Ok(all)
}

/// The names of a set, and one more.
pub fn with_name(alloc: Global, names: &[Spelling], name: &Spelling) -> Result<Names, NoMemory>
    ensures { IfOk result (λ all. all ≡ names.now ++ name.now ∷ []) }
{
    let mut all = copy_of(alloc, names)?;
    all.push(name.share()?)?;
    Shared::new(alloc, all)
}

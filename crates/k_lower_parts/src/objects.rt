//! The objects that are made before a run: file objects, and behind them the strings.
ghost use Rattle.std.specs.Prelude.{◌≡◌, ◌++◌, map, IfOk, OnOk};
ghost use Rattle.k_lower_code.specs.Programs.{literal as literal_meant, plain as plain_meant};

use k_code::CodeObject;
use k_num::{NoMemory, Seq};
use k_types_meaning::{TObject, TString, TUnit};
use std::alloc::Global;

/// A file object.
fn plain(alloc: Global, object: &TObject) -> Result<CodeObject, NoMemory>
    ensures { IfOk result (λ o. o ≡ plain_meant object.now) }
{
    Ok(CodeObject::Plain {
        elements: object.elements,
        first: Seq::copy_of(alloc, object.first.as_slice())?,
        place: object.place,
    })
}

/// A string, with the 0 behind its bytes.
fn literal(alloc: Global, string: &TString) -> Result<CodeObject, NoMemory>
    ensures { IfOk result (λ o. o ≡ literal_meant string.now) }
{
    let mut bytes = Seq::copy_of(alloc, string.bytes.as_slice())?;
    bytes.push(0)?;
    Ok(CodeObject::Literal {
        bytes,
        place: string.place,
    })
}

/// Adds these file objects.
fn push_plain(alloc: Global, objects: &[TObject], to: &mut Seq<CodeObject>) -> Result<(), NoMemory>
    ensures { OnOk result (to.new ≡ to.old ++ map plain_meant objects.now) }
{
    for object in objects {
        to.push(plain(alloc, object)?)?;
    }
    Ok(())
}

/// Adds these strings.
fn push_literals(
    alloc: Global,
    strings: &[TString],
    to: &mut Seq<CodeObject>,
) -> Result<(), NoMemory>
    ensures { OnOk result (to.new ≡ to.old ++ map literal_meant strings.now) }
{
    for string in strings {
        to.push(literal(alloc, string)?)?;
    }
    Ok(())
}

/// The objects that are made before a run of a source.
pub(crate) fn objects(alloc: Global, unit: &TUnit) -> Result<Seq<CodeObject>, NoMemory>
    ensures { IfOk result (λ objects. objects ≡ map plain_meant unit.now.objects ++ map literal_meant unit.now.strings) }
{
    let mut all = Seq::new(alloc);
    push_plain(alloc, unit.objects.as_slice(), &mut all)?;
    push_literals(alloc, unit.strings.as_slice(), &mut all)?;
    Ok(all)
}

//! The dimensions of declarators and parameters (C17 6.7.6.2).
ghost use Rattle.std.specs.Prelude.{◌≡◌, IfOk};
ghost use Rattle.k_types_meaning.specs.Dimensions as rules;
ghost use Rattle.k_types_declarations.specs.Results.{GivesSizes};
ghost use Rattle.k_types_objects.specs.KeptSizes.{size_in};
ghost use Rattle.k_types_declarations.specs.Sizes.{GivesSize};

use k_num::{NoMemory, Seq};
use k_tree::Expr;
use k_types_expressions::judge;
use k_types_meaning::TypeFault;
use k_types_names::Scopes;
use k_types_objects::{Size, Sizes, constant};
use std::alloc::Global;

/// The sizes that dimensions have where these names are known. The variables to which `&` is applied in them are
/// put behind those in `taken`.
pub fn dimensions(
    alloc: Global,
    names: &Scopes,
    dims: &Seq<Option<Expr>>,
    taken: &mut Seq<u32>,
) -> Result<Sizes, TypeFault>
    ensures { GivesSizes result taken.old taken.new (rules.dimensions names.now dims.now) }
{
    let mut list = Seq::new(alloc);
    for dim in dims.as_slice() {
        let size = match dimension(alloc, names, dim, taken) {
            Ok(size) => size,
            Err(fault) => return Err(fault),
        };
        list.push(size)?;
    }
    Ok(Sizes::of_list(list))
}

/// The size that one dimension has.
fn dimension(
    alloc: Global,
    names: &Scopes,
    dim: &Option<Expr>,
    taken: &mut Seq<u32>,
) -> Result<Size, TypeFault>
    ensures { GivesSize result taken.old taken.new (rules.dimension names.now dim.now) }
{
    let Some(dim) = dim else {
        return Ok(Size::LeftOut);
    };
    let judged = judge(alloc, names, dim, taken)?;
    let value = constant(judged.tree.get());
    drop(judged);
    let size = size_of_constant(value?)?;
    Ok(size)
}

/// The size that a constant is.
fn size_of_constant(value: Option<i128>) -> Result<Size, NoMemory>
    ensures { IfOk result (λ size. size_in size ≡ rules.size_of_constant value) }
{
    let Some(value) = value else {
        return Ok(Size::NoSize);
    };
    if value < 1 {
        return Ok(Size::NoSize);
    }
    match u64::try_from(value) {
        Ok(value) => Ok(Size::Is(value)),
        Err(_) => Err(NoMemory),
    }
}

//! Declarators at file scope and in functions (C17 6.7.6).
ghost use Rattle.std.specs.Prelude.{◌≡◌, ◌++◌, ℕ, Bool, List, IfOk};
ghost use Rattle.k_types_meaning.specs.Declarations as rules;
ghost use Rattle.k_types_meaning.specs.Dimensions as sizing;
ghost use Rattle.k_types_meaning.specs.Made.{Fine};
ghost use Rattle.k_types_rules.specs.Views.{type_option};
ghost use Rattle.k_types_declarations.specs.Objects.{Comes, GivesType, IsTwice, MakesObject};

use crate::dimension::dimensions;
use crate::initialiser::{begun, first_given};
use k_num::{Box, Kind, NoMemory, Place, Seq, Text};
use k_tree::Declarator;
use k_types_meaning::{CType, Meaning, TInit, TypeFault};
use k_types_names::Scopes;
use k_types_objects::{
    Saying, copied_type, declared_type, has_type, is_fixed, object_sizes, sizes_or_known,
};
use k_types_rules::{TypeView, lent};
use std::alloc::Global;

/// What a declarator comes to: the type of its object, and with what that begins.
#[derive(Drop)]
pub(crate) struct Begun {
    pub(crate) of: Box<CType>,
    pub(crate) init: Box<TInit>,
}

/// The type of a declarator's object, if it has one, where a size is wrong by what is known of them; and whether the
/// sizes are right.
#[derive(Drop)]
pub(crate) struct Shape {
    pub(crate) of: Option<Box<CType>>,
    pub(crate) is_sized: bool,
}

/// Judges a declarator with its number among the variables or the file objects: its sizes, then its initialiser,
/// where its name is known, then the declarator itself (C17 6.7p3, 6.7.6, 6.7.9). Its name enters the innermost
/// scope, and the variables to which `&` is applied in it are put behind those in `taken`.
pub(crate) fn judge_declarator(
    alloc: Global,
    file: bool,
    saying: &Saying,
    number: u32,
    names: &mut Scopes,
    declarator: &Declarator,
    taken: &mut Seq<u32>,
) -> Result<Begun, TypeFault>
    ensures { Comes result file saying.now number names.old declarator.now taken.old taken.new names.new }
{
    let shape = match judge_sizes(alloc, file, saying, names, declarator, taken) {
        Ok(shape) => shape,
        Err(fault) => return Err(fault),
    };
    judge_beginning(alloc, file, saying, number, names, declarator, shape, taken)
}

/// Judges a declarator of which the sizes were judged.
fn judge_beginning(
    alloc: Global,
    file: bool,
    saying: &Saying,
    number: u32,
    names: &mut Scopes,
    declarator: &Declarator,
    shape: Shape,
    taken: &mut Seq<u32>,
) -> Result<Begun, TypeFault>
    ensures { (found : sizing.Sizes) (older : List ℕ) → sizing.dimensions names.old declarator.now.dims ≡ Fine found → shape.of ≡ rules.type_for file saying.now (Fine found) declarator.now → shape.is_sized ≡ rules.is_sized (Fine found) declarator.now → taken.old ≡ older ++ found.taken → Comes result file saying.now number names.old declarator.now older taken.new names.new }
{
    let Shape { of, is_sized } = shape;
    let fixed = is_fixed(saying.fixed(), declarator.stars.as_slice());
    let meaning = meaning_of(alloc, file, number, &of, fixed)?;
    let twice = names.declare(alloc, &declarator.name, meaning)?;
    let init = match begun(
        alloc,
        names,
        file,
        is_sized,
        lent_option(&of),
        &declarator.init,
        taken,
    ) {
        Ok(init) => init,
        Err(fault) => return Err(fault),
    };
    let typed = has_type(file, saying, declarator);
    made(
        alloc,
        declarator.place,
        &declarator.name,
        twice,
        typed,
        is_sized,
        of,
        init,
    )
}

/// Judges the sizes of a declarator.
fn judge_sizes(
    alloc: Global,
    file: bool,
    saying: &Saying,
    names: &Scopes,
    declarator: &Declarator,
    taken: &mut Seq<u32>,
) -> Result<Shape, TypeFault>
    ensures { GivesType result file saying.now declarator.now taken.old taken.new (sizing.dimensions names.now declarator.now.dims) }
{
    let sizes = dimensions(alloc, names, &declarator.dims, taken)?;
    let given = first_given(&declarator.init)?;
    let dims = object_sizes(alloc, &sizes, given)?;
    let is_sized = dims.is_some();
    let dims = sizes_or_known(alloc, &sizes, dims)?;
    let of = declared_type(
        alloc,
        file,
        saying,
        declarator.stars.as_slice(),
        dims.as_slice(),
    )?;
    Ok(Shape { of, is_sized })
}

/// What the name of a declarator means: a variable or a file object of this number. Where the declarator has no
/// type, it is an int, and the declaration is refused in any case.
fn meaning_of(
    alloc: Global,
    file: bool,
    number: u32,
    of: &Option<Box<CType>>,
    fixed: bool,
) -> Result<Meaning, NoMemory>
    ensures { IfOk result (λ meaning. meaning ≡ rules.as_meaning file number (rules.type_or_int of.now) fixed) }
{
    let of = type_or_int(alloc, of)?;
    if file {
        Ok(Meaning::Object { number, of, fixed })
    } else {
        Ok(Meaning::Variable { number, of, fixed })
    }
}

/// A copy of a type, and int where there is none.
fn type_or_int(alloc: Global, of: &Option<Box<CType>>) -> Result<CType, NoMemory>
    ensures { IfOk result (λ copy. copy ≡ rules.type_or_int of.now) }
{
    match of {
        None => Ok(CType::Number(Kind::I32)),
        Some(of) => copied_type(alloc, of.get()),
    }
}

/// A type that may be none, lent.
fn lent_option(of: &Option<Box<CType>>) -> Option<TypeView<'_>>
    ensures { type_option result ≡ of.now }
{
    match of {
        None => None,
        Some(of) => Some(lent(of.get())),
    }
}

/// What a declarator comes to whose parts are judged: its name is there twice; it has no type, but for its sizes;
/// it does not begin with what has its type; a size is wrong; or it is made.
fn made(
    alloc: Global,
    place: Place,
    name: &Text,
    twice: bool,
    typed: bool,
    is_sized: bool,
    of: Option<Box<CType>>,
    init: Option<Box<TInit>>,
) -> Result<Begun, TypeFault>
    ensures { (fixed : Bool) (taken : List ℕ) → MakesObject result place name.now fixed taken of (rules.object_made place name.now twice typed fixed taken (rules.where_sized is_sized of) init) }
{
    if twice {
        return Err(declared_twice(alloc, place, name));
    }
    if !typed {
        return Err(TypeFault::Kinds(place));
    }
    let Some(init) = init else {
        return Err(TypeFault::Kinds(place));
    };
    if !is_sized {
        return Err(TypeFault::BadSize(place));
    }
    let Some(of) = of else {
        return Err(TypeFault::BadSize(place));
    };
    Ok(Begun { of, init })
}

/// The fault of a name that is declared again in its scope.
fn declared_twice(alloc: Global, place: Place, name: &Text) -> TypeFault
    ensures { IsTwice result place name.now }
{
    match Text::copy_of(alloc, name.as_str()) {
        Ok(name) => TypeFault::Twice(name, place),
        Err(_) => TypeFault::Memory,
    }
}

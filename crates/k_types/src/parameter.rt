//! The parameters of functions (C17 6.7.6.3).
ghost use Rattle.std.specs.Prelude.{◌≡◌, ◌&&◌, ◌||◌, not, [], is_some, length, IfOk, OnOk};
ghost use Rattle.k_types_declarations.specs.Results.{seen};
ghost use Rattle.k_types_meaning.specs.declared.names.Meaning.TheVariants as meaning;
ghost use Rattle.k_types_meaning.specs.declared.types.CType.{CType};
ghost use Rattle.k_types_meaning.specs.Declarations.{object_fixed, object_type, type_or_int};
ghost use Rattle.k_types_meaning.specs.Functions as rules;
ghost use Rattle.k_types.specs.Parameters.{GoesAll, GoesOn, behind_variable, checked_type, type_with};
ghost use Rattle.k_types.specs.Results.{MakesOrRefuses};

use crate::standing::twice;
use k_num::{Kind, NoMemory, Seq, Text};
use k_tree::{Param, Params, Word};
use k_types_declarations::{Known, Variable, dimensions};
use k_types_meaning::{Base, CType, Dims, Element, Meaning, TypeFault};
use k_types_names::{Scopes, base_of, says_const, says_static};
use k_types_objects::{copied_type, param_sizes};
use std::alloc::Global;

/// The parameters between the parentheses of a head.
pub(crate) fn params_of(params: &Params) -> &[Param]
    ensures { result.now ≡ rules.params_of params.now }
{
    match params {
        Params::Empty | Params::Void => &[],
        Params::List(list) => list.as_slice(),
    }
}

/// Judges parameters one after the other: each is known from behind it on. `defines` says whether they are those of
/// a definition.
pub(crate) fn judge_params(
    alloc: Global,
    defines: bool,
    known: &mut Known,
    params: &[Param],
) -> Result<(), TypeFault>
    ensures { GoesAll result (seen known.new) (length params.now) (rules.params_in_order defines (seen known.old) params.now) }
{
    for param in params {
        judge_param(alloc, defines, known, param)?;
    }
    Ok(())
}

/// Judges a parameter, which is the next variable.
#[tactic(auto, unfolding(k_types_meaning::specs::Functions::param_judged))]
fn judge_param(
    alloc: Global,
    defines: bool,
    known: &mut Known,
    param: &Param,
) -> Result<(), TypeFault>
    ensures { GoesOn result (seen known.new) (rules.param_judged defines (seen known.old) param.now) }
{
    let sizes = dimensions(alloc, &known.names, &param.dims, &mut known.taken)?;
    let dims = param_sizes(alloc, &sizes)?;
    let fits = dims.is_some();
    let typed = is_typed(alloc, defines, param);
    let behind = sizes_or_none(alloc, dims)?;
    let of = type_of(alloc, param, behind);
    let twice = enter_variable(alloc, known, param, of)?;
    test_param(alloc, param, twice, typed, fits)
}

/// The sizes of a parameter behind the first, and none where they are wrong, since it is refused in any case.
fn sizes_or_none(alloc: Global, dims: Option<Seq<u32>>) -> Result<Dims, NoMemory>
    ensures { IfOk result (λ behind. behind ≡ rules.sizes_or_none dims) }
{
    match dims {
        Some(dims) => Dims::of(dims),
        None => Ok(Dims::none(alloc)),
    }
}

/// Makes a parameter the next variable, and says whether its name stood there already.
fn enter_variable(
    alloc: Global,
    known: &mut Known,
    param: &Param,
    of: CType,
) -> Result<bool, NoMemory>
    ensures twice { IfOk result (λ twice. twice ≡ rules.option_twice known.old.names param.now.name) }
    ensures after { OnOk result (seen known.new ≡ behind_variable (seen known.old) param.now of) }
{
    let Ok(number) = u32::try_from(known.variables.len()) else {
        drop(of);
        return Err(NoMemory);
    };
    match name_variable(alloc, &mut known.names, param, number, &of) {
        Ok(twice) => {
            known.variables.push(Variable {
                place: param.place,
                of,
            })?;
            Ok(twice)
        }
        Err(NoMemory) => {
            drop(of);
            Err(NoMemory)
        }
    }
}

/// Declares the name of a parameter, where it has one, as the variable of this number and type, and says whether
/// the name stood there already.
pub(crate) fn name_variable(
    alloc: Global,
    names: &mut Scopes,
    param: &Param,
    number: u32,
    of: &CType,
) -> Result<bool, NoMemory>
    ensures twice { IfOk result (λ twice. twice ≡ rules.option_twice names.old param.now.name) }
    ensures names { OnOk result (names.new ≡ rules.entered_option param.now.name (meaning.Variable number of.now (rules.param_fixed param.now)) names.old) }
{
    match &param.name {
        None => Ok(false),
        Some(name) => {
            let fixed = is_fixed(param);
            let of = copied_type(alloc, of)?;
            names.declare(alloc, name, Meaning::Variable { number, of, fixed })
        }
    }
}

/// Whether a parameter is const itself.
fn is_fixed(param: &Param) -> bool
    ensures { result ≡ rules.param_fixed param.now }
{
    has_no_dims(param) && is_object_fixed(says_const(&param.specs), param.stars.as_slice())
}

/// Whether an object of a base that is const or not is const itself.
fn is_object_fixed(fixed: bool, stars: &[bool]) -> bool
    ensures { result ≡ object_fixed fixed stars.now }
{
    match stars.split_first() {
        None => fixed,
        Some((star, _)) => *star,
    }
}

/// Whether a parameter is declared without dimensions.
fn has_no_dims(param: &Param) -> bool
    ensures { result ≡ rules.has_none param.now.dims }
{
    match param.dims.as_slice().split_first() {
        None => true,
        Some(_) => false,
    }
}

/// The type of a parameter with these sizes behind the first, and `int` where it has none, since it is refused in
/// any case.
fn type_of(alloc: Global, param: &Param, dims: Dims) -> CType
    ensures { result ≡ type_or_int (type_with param.now dims) }
{
    match param_type(alloc, param, dims) {
        Some(of) => of,
        None => CType::Number(Kind::I32),
    }
}

/// Whether a parameter has a type, and in a definition a name.
fn is_typed(alloc: Global, defines: bool, param: &Param) -> bool
    ensures { result ≡ (is_some (type_with param.now []) && (not defines || is_some param.now.name)) }
{
    has_type(alloc, param) && (!defines || param.name.is_some())
}

/// Whether a parameter has a type, whatever its sizes are.
fn has_type(alloc: Global, param: &Param) -> bool
    ensures { result ≡ is_some (type_with param.now []) }
{
    match param_type(alloc, param, Dims::none(alloc)) {
        Some(of) => {
            drop(of);
            true
        }
        None => false,
    }
}

/// The type of a parameter with these sizes behind the first, if it has one: an array is a pointer to its element
/// (C17 6.7.6.3p7).
fn param_type(alloc: Global, param: &Param, dims: Dims) -> Option<CType>
    ensures { result ≡ type_with param.now dims }
{
    let fixed = says_const(&param.specs);
    let base = local_base(&param.specs);
    if has_no_dims(param) {
        plain_type(alloc, fixed, base, param.stars.as_slice())
    } else {
        pointer_type(fixed, base, param.stars.as_slice(), dims)
    }
}

/// What the specifiers of a parameter name: no type where they say static.
fn local_base(specs: &Seq<Word>) -> Option<Base>
    ensures { result ≡ rules.local_base specs.now }
{
    if says_static(specs) {
        None
    } else {
        base_of(specs)
    }
}

/// The type of a parameter without dimensions: a number, or a pointer to one.
fn plain_type(alloc: Global, fixed: bool, base: Option<Base>, stars: &[bool]) -> Option<CType>
    ensures { result ≡ object_type fixed base stars.now [] }
{
    match base {
        None | Some(Base::Void) => None,
        Some(Base::Of(kind)) => match stars {
            [] => Some(CType::Number(kind)),
            [_] => Some(CType::Pointer(Element {
                kind,
                dims: Dims::none(alloc),
                fixed,
            })),
            _ => None,
        },
    }
}

/// The type of a parameter that is declared as an array: a pointer to its element.
fn pointer_type(fixed: bool, base: Option<Base>, stars: &[bool], dims: Dims) -> Option<CType>
    ensures { result ≡ rules.array_param fixed base stars.now dims }
{
    match base {
        None | Some(Base::Void) => None,
        Some(Base::Of(kind)) => match stars {
            [] => Some(CType::Pointer(Element { kind, dims, fixed })),
            _ => None,
        },
    }
}

/// The fault of a parameter: its name is there twice, it has no type or no name where it needs one, or its sizes are
/// wrong.
fn test_param(
    alloc: Global,
    param: &Param,
    stands_there: bool,
    typed: bool,
    fits: bool,
) -> Result<(), TypeFault>
    ensures { (of : CType) → MakesOrRefuses result of (checked_type stands_there typed fits param.now of) }
{
    if stands_there {
        return Err(twice(alloc, param.place, name_or_nothing(&param.name)));
    }
    if !typed {
        return Err(TypeFault::Kinds(param.place));
    }
    if fits {
        Ok(())
    } else {
        Err(TypeFault::BadSize(param.place))
    }
}

/// A name that may be left out; nothing in its place.
fn name_or_nothing(name: &Option<Text>) -> &str
    ensures { result.now ≡ rules.name_or_nothing name.now }
{
    match name {
        Some(name) => name.as_str(),
        None => "",
    }
}

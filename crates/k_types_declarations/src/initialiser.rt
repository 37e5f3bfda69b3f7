//! Initialisers of objects (C17 6.7.9).
ghost use Rattle.std.specs.Prelude.{◌≡◌, ℕ, Bool, List, Some, None, IfOk, map};
ghost use Rattle.std.specs.List.{concat};
ghost use Rattle.std.specs.Option.{option_copied};
ghost use Rattle.k_tree.specs.declared.tree.declaration.Init.{out-Init};
ghost use Rattle.k_types_meaning.specs.Conversions as conversions;
ghost use Rattle.k_types_meaning.specs.Dimensions as sizing;
ghost use Rattle.k_types_meaning.specs.Expressions as expressions;
ghost use Rattle.k_types_meaning.specs.Initialisers as rules;
ghost use Rattle.k_types_meaning.specs.Initialisers.{beginning, giving};
ghost use Rattle.k_types_meaning.specs.Made.{Fine, Finds, all_made, then_made};
ghost use Rattle.k_types_meaning.specs.Types.{elements};
ghost use Rattle.k_types_meaning.specs.declared.tree.declaration.TInit.TheVariants as begins;
ghost use Rattle.k_types_rules.specs.Views.{type_of, type_option, typed};
ghost use Rattle.k_types_declarations.specs.Objects.{GivesBeginning, kept_option};

use crate::alone::{judge_all_alone, judge_alone};
use crate::braces::{Filled, FilledItems, fitting, keep_bytes, may_begin, put_all, string_in};
use k_num::{Box, NoMemory, Seq};
use k_tree::{Expr, Init};
use k_types_expressions::judge;
use k_types_meaning::{TInit, TypeFault};
use k_types_names::Scopes;
use k_types_objects::room;
use k_types_rules::{ElementView, TypeView, TypedExpr, passed};
use std::alloc::Global;
use std::mem;

/// With what an object of a type that may not be known begins; none where its initialiser is not one of its type
/// (C17 6.7.9p10). Its items are kept or not. The variables to which `&` is applied in it are put behind those in
/// `taken`.
#[tactic(auto, unfolding(k_types_meaning::specs::Initialisers::begun))]
pub(crate) fn begun(
    alloc: Global,
    names: &Scopes,
    file: bool,
    kept: bool,
    of: Option<TypeView<'_>>,
    init: &Option<Init>,
    taken: &mut Seq<u32>,
) -> Result<Option<Box<TInit>>, TypeFault>
    ensures { GivesBeginning result kept taken.old taken.new (rules.begun names.now file (type_option of.entry) init.now) }
{
    let Some(init) = init else {
        return nothing(alloc);
    };
    match of {
        None => {
            judge_alone(alloc, names, init, taken)?;
            nothing(alloc)
        }
        Some(of) => begun_by(alloc, names, file, kept, of, init, taken),
    }
}

/// An object begins with nothing.
fn nothing(alloc: Global) -> Result<Option<Box<TInit>>, TypeFault>
    ensures { Finds result (Fine (Some begins.Nothing)) }
{
    let init = Box::new(alloc, TInit::Nothing)?;
    Ok(Some(init))
}

/// With what an object of a type begins.
fn begun_by(
    alloc: Global,
    names: &Scopes,
    file: bool,
    kept: bool,
    of: TypeView<'_>,
    init: &Init,
    taken: &mut Seq<u32>,
) -> Result<Option<Box<TInit>>, TypeFault>
    ensures { GivesBeginning result kept taken.old taken.new (rules.begun_step names.now file (type_of of.entry) (out-Init init.now)) }
{
    match init {
        Init::One { value, .. } => begun_by_one(alloc, names, file, kept, of, value, taken),
        Init::List { items, .. } => begun_by_list(alloc, names, file, kept, of, items, taken),
    }
}

/// With what an object begins by an expression.
fn begun_by_one(
    alloc: Global,
    names: &Scopes,
    file: bool,
    kept: bool,
    of: TypeView<'_>,
    value: &Expr,
    taken: &mut Seq<u32>,
) -> Result<Option<Box<TInit>>, TypeFault>
    ensures { GivesBeginning result kept taken.old taken.new (then_made (expressions.judge names.now value.now) (λ v. Fine (beginning (rules.one_given file (type_of of.entry) (rules.string_of value.now) v) v.taken))) }
{
    let judged = judge(alloc, names, value, taken)?;
    let init = one_given(alloc, file, kept, of, string_in(value), judged)?;
    Ok(init)
}

/// What an expression gives to an object: a number or a pointer takes a value, an array of char a string (C17
/// 6.7.9p11, p14).
fn one_given(
    alloc: Global,
    file: bool,
    kept: bool,
    of: TypeView<'_>,
    text: Option<&Seq<u8>>,
    judged: TypedExpr<'_>,
) -> Result<Option<Box<TInit>>, NoMemory>
    ensures { IfOk result (λ init. (t : List ℕ) → init ≡ kept_option kept (rules.one_given file (type_of of.entry) (option_copied text.entry) (typed judged.entry t))) }
{
    match of {
        TypeView::Void => {
            drop(judged);
            Ok(None)
        }
        TypeView::Number(_) => value_given(alloc, file, of, judged),
        TypeView::Pointer(_) => value_given(alloc, file, of, judged),
        TypeView::Array(count, element) => {
            drop(judged);
            string_given(alloc, kept, element, count, text)
        }
    }
}

/// A value that an object begins with, which has to be constant at file scope.
fn value_given(
    alloc: Global,
    file: bool,
    of: TypeView<'_>,
    judged: TypedExpr<'_>,
) -> Result<Option<Box<TInit>>, NoMemory>
    ensures { IfOk result (λ init. (kept : Bool) (t : List ℕ) → init ≡ kept_option kept (rules.value_given file (conversions.passed (type_of of.entry) (typed judged.entry t)))) }
{
    let Some(tree) = passed(alloc, of, judged)? else {
        return Ok(None);
    };
    let may = may_begin(file, tree.get())?;
    if !may {
        drop(tree);
        return Ok(None);
    }
    let init = Box::new(alloc, TInit::Value(tree.into_inner()))?;
    Ok(Some(init))
}

/// A string that an array begins with.
fn string_given(
    alloc: Global,
    kept: bool,
    element: ElementView<'_>,
    count: u32,
    text: Option<&Seq<u8>>,
) -> Result<Option<Box<TInit>>, NoMemory>
    ensures { IfOk result (λ init. init ≡ kept_option kept (rules.string_given (rules.fitting element.entry.kind element.entry.dims.now count (option_copied text.entry)))) }
{
    let Some(bytes) = fitting(element.kind, element.dims, count, text) else {
        return Ok(None);
    };
    let mut items = Seq::new(alloc);
    keep_bytes(alloc, kept, 0, bytes, &mut items)?;
    let init = Box::new(alloc, TInit::Elements(items))?;
    Ok(Some(init))
}

/// With what an object begins by braces: only an array has them (C17 6.7.9p16).
fn begun_by_list(
    alloc: Global,
    names: &Scopes,
    file: bool,
    kept: bool,
    of: TypeView<'_>,
    items: &Seq<Init>,
    taken: &mut Seq<u32>,
) -> Result<Option<Box<TInit>>, TypeFault>
    ensures { GivesBeginning result kept taken.old taken.new (rules.list_given file (type_of of.entry) (map (giving names.now) items.now)) }
{
    match of {
        TypeView::Array(count, element) => {
            elements_given(alloc, names, file, kept, count, element, items, taken)
        }
        TypeView::Void => no_list(alloc, names, kept, items, taken),
        TypeView::Number(_) => no_list(alloc, names, kept, items, taken),
        TypeView::Pointer(_) => no_list(alloc, names, kept, items, taken),
    }
}

/// Braces for what is no array.
fn no_list(
    alloc: Global,
    names: &Scopes,
    kept: bool,
    items: &Seq<Init>,
    taken: &mut Seq<u32>,
) -> Result<Option<Box<TInit>>, TypeFault>
    ensures { GivesBeginning result kept taken.old taken.new (then_made (all_made (map (λ (g : rules.Giving). g.alone) (map (giving names.now) items.now))) (λ all. Fine (beginning None (concat all)))) }
{
    judge_all_alone(alloc, names, items, taken)?;
    Ok(None)
}

/// With what an array begins by braces.
fn elements_given(
    alloc: Global,
    names: &Scopes,
    file: bool,
    kept: bool,
    count: u32,
    element: ElementView<'_>,
    items: &Seq<Init>,
    taken: &mut Seq<u32>,
) -> Result<Option<Box<TInit>>, TypeFault>
    ensures { GivesBeginning result kept taken.old taken.new (then_made (rules.items_within file element.entry.kind element.entry.dims.now (sizing.room count) 0 (map (giving names.now) items.now)) (λ found. Fine (beginning (Some (begins.Elements found.items)) found.taken))) }
{
    let filled = Filled {
        file,
        kind: element.kind,
        kept,
    };
    let older = mem::replace(taken, Seq::new(alloc));
    let mut found = FilledItems {
        items: Seq::new(alloc),
        taken: older,
    };
    put_all(
        alloc,
        names,
        filled,
        items,
        room(count),
        element.dims,
        element.each,
        0,
        &mut found,
    )?;
    let FilledItems { items, taken: more } = found;
    drop(mem::replace(taken, more));
    let init = Box::new(alloc, TInit::Elements(items))?;
    Ok(Some(init))
}

/// The count that an initialiser gives to a first dimension that is left out: of a string with the 0 behind it, of
/// braces their items (C17 6.7.9p22).
pub(crate) fn first_given(init: &Option<Init>) -> Result<Option<u32>, NoMemory>
    ensures { IfOk result (λ given. given ≡ rules.first_given init.now) }
{
    match init {
        None => Ok(None),
        Some(init) => count_given(init),
    }
}

/// The count that an initialiser gives.
fn count_given(init: &Init) -> Result<Option<u32>, NoMemory>
    ensures { IfOk result (λ given. given ≡ rules.first_step (out-Init init.now)) }
{
    match init {
        Init::One { value, .. } => length_with_end(string_in(value)),
        Init::List { items, .. } => {
            let Ok(count) = u32::try_from(items.len()) else {
                return Err(NoMemory);
            };
            Ok(Some(count))
        }
    }
}

/// The length of a string with the 0 behind it.
fn length_with_end(text: Option<&Seq<u8>>) -> Result<Option<u32>, NoMemory>
    ensures { IfOk result (λ given. given ≡ rules.length_with_end (option_copied text.entry)) }
{
    let Some(bytes) = text else {
        return Ok(None);
    };
    let Ok(length) = u32::try_from(bytes.len()) else {
        return Err(NoMemory);
    };
    match length.checked_add(1) {
        Some(count) => Ok(Some(count)),
        None => Err(NoMemory),
    }
}

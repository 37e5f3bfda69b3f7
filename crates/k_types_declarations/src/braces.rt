//! The items of the braces of an array: they are nested as its dimensions, and a string is an item for an array of
//! char (C17 6.7.9p2, p14, p16, p20).
ghost use Rattle.std.specs.Prelude.{◌≡◌, ℕ, ◌+◌, [], ◌∷◌, ◌++◌, Bool, List, Option, Some, IfOk, OnOk, ◌||◌, not, nat_le, is_some, map};
ghost use Rattle.std.specs.Option.{option_copied};
ghost use Rattle.k_types_meaning.specs.Constants as constants;
ghost use Rattle.k_types_meaning.specs.Initialisers as rules;
ghost use Rattle.k_types_meaning.specs.Initialisers.{giving};
ghost use Rattle.k_types_meaning.specs.Expressions as expressions;
ghost use Rattle.k_types_meaning.specs.Made.{then_made};
ghost use Rattle.k_types_meaning.specs.Names.{Names};
ghost use Rattle.k_types_meaning.specs.Types.{elements, same_kind};
ghost use Rattle.k_num.specs.declared.numbers.Kind as kinds;
ghost use Rattle.k_types_meaning.specs.declared.tree.declaration.TItem.TheVariants as item;
ghost use Rattle.k_types_rules.specs.Views.{typed};
ghost use Rattle.k_types_declarations.specs.Braces.{Puts, PutsItem, kept_items};

use crate::alone::{judge_all_alone, judge_alone};
use k_num::{Box, Kind, NoMemory, Place, Seq};
use k_tree::{Expr, Init};
use k_types_expressions::judge;
use k_types_meaning::{TExpr, TItem, TypeFault, part};
use k_types_names::Scopes;
use k_types_objects::{constant, room};
use k_types_rules::{TypeView, TypedExpr, passed};
use std::alloc::Global;

/// What braces give items to: numbers of a kind, at file scope or not. Where a size is wrong there may be more elements than an
/// object ever has, and the declaration is refused in any case: the items are judged, and none is kept.
#[derive(Clone, Copy)]
pub(crate) struct Filled {
    pub(crate) file: bool,
    pub(crate) kind: Kind,
    pub(crate) kept: bool,
}

/// What was found in braces: the items, and the variables to which `&` is applied in them.
#[derive(Drop)]
pub(crate) struct FilledItems {
    pub(crate) items: Seq<TItem>,
    pub(crate) taken: Seq<u32>,
}

/// An initialiser in braces, for the elements from this one on: for a number, or for an array in these
/// dimensions, which has `each` numbers.
#[cycle(braces)]
fn put(
    alloc: Global,
    names: &Scopes,
    filled: Filled,
    init: &Init,
    dims: &[u32],
    each: u64,
    element: u64,
    found: &mut FilledItems,
) -> Result<(), TypeFault>
    requires { each ≡ elements dims.now }
    ensures { Puts result filled.kept found.old found.new ((giving names.now init.now).within filled.file filled.kind dims.now element) }
{
    match init {
        Init::One { place, value } => {
            put_one(alloc, names, filled, *place, value, dims, element, found)
        }
        Init::List { place, items, .. } => {
            let Some((count, dims)) = dims.split_first() else {
                return refuse_all(alloc, names, *place, items, found);
            };
            let each = part(each, *count, dims)?;
            let count = room(*count);
            put_all(
                alloc, names, filled, items, count, dims, each, element, found,
            )
        }
    }
}

/// The items of braces for so many elements, each of which has these dimensions; one that is too many is a fault
/// (C17 6.7.9p2).
#[cycle(braces)]
pub(crate) fn put_all(
    alloc: Global,
    names: &Scopes,
    filled: Filled,
    items: &Seq<Init>,
    count: u32,
    dims: &[u32],
    each: u64,
    first: u64,
    found: &mut FilledItems,
) -> Result<(), TypeFault>
    requires { each ≡ elements dims.now }
    ensures { Puts result filled.kept found.old found.new (rules.items_within filled.file filled.kind dims.now count first (map (giving names.now) items.now)) }
{
    let mut left = count;
    let mut element = first;
    for item in items.as_slice() {
        if left == 0 {
            return refuse(alloc, names, item, found);
        }
        match put(alloc, names, filled, item, dims, each, element, found) {
            Ok(()) => {}
            Err(fault) => return Err(fault),
        }
        left -= 1;
        let next = behind(element, each)?;
        element = next;
    }
    Ok(())
}

/// The element behind one that has so many numbers.
fn behind(element: u64, each: u64) -> Result<u64, NoMemory>
    ensures { IfOk result (λ next. next ≡ element + each) }
{
    match element.checked_add(each) {
        Some(next) => Ok(next),
        None => Err(NoMemory),
    }
}

/// Braces where a number is wanted.
fn refuse_all(
    alloc: Global,
    names: &Scopes,
    place: Place,
    items: &Seq<Init>,
    found: &mut FilledItems,
) -> Result<(), TypeFault>
    ensures { (kept : Bool) (file : Bool) (kind : kinds.Kind) (n : ℕ) → Puts result kept found.old found.new (rules.braces file place kind [] n (map (giving names.now) items.now)) }
{
    judge_all_alone(alloc, names, items, &mut found.taken)?;
    Err(TypeFault::Kinds(place))
}

/// An item that is too many.
fn refuse(
    alloc: Global,
    names: &Scopes,
    item: &Init,
    found: &mut FilledItems,
) -> Result<(), TypeFault>
    ensures { (kept : Bool) → Puts result kept found.old found.new (then_made (giving names.now item.now).alone (λ taken. rules.excess (giving names.now item.now).place)) }
{
    judge_alone(alloc, names, item, &mut found.taken)?;
    Err(TypeFault::Kinds(place_of(item)))
}

/// Where an initialiser stands.
fn place_of(init: &Init) -> Place
    ensures { (names : Names) → result ≡ (giving names init.now).place }
{
    match init {
        Init::One { place, .. } => *place,
        Init::List { place, .. } => *place,
    }
}

/// An expression in braces: it is for a number, or it is a string for an array of char.
fn put_one(
    alloc: Global,
    names: &Scopes,
    filled: Filled,
    place: Place,
    value: &Expr,
    dims: &[u32],
    element: u64,
    found: &mut FilledItems,
) -> Result<(), TypeFault>
    ensures { Puts result filled.kept found.old found.new (then_made (expressions.judge names.now value.now) (rules.one_item filled.file place filled.kind dims.now element (rules.string_of value.now))) }
{
    let judged = judge(alloc, names, value, &mut found.taken)?;
    match dims.split_first() {
        None => put_number(alloc, filled, place, element, judged, &mut found.items),
        Some((count, dims)) => {
            drop(judged);
            let text = string_in(value);
            put_string(
                alloc,
                filled,
                place,
                *count,
                dims,
                element,
                text,
                &mut found.items,
            )
        }
    }
}

/// A value for a number, which has to be constant at file scope.
fn put_number(
    alloc: Global,
    filled: Filled,
    place: Place,
    element: u64,
    judged: TypedExpr<'_>,
    items: &mut Seq<TItem>,
) -> Result<(), TypeFault>
    ensures { (text : Option (List ℕ)) (t : List ℕ) → PutsItem result filled.kept t items.old items.new (rules.one_item filled.file place filled.kind [] element text (typed judged.entry t)) }
{
    let Some(tree) = passed(alloc, TypeView::Number(filled.kind), judged)? else {
        return Err(TypeFault::Kinds(place));
    };
    let may = may_begin(filled.file, tree.get())?;
    if !may {
        drop(tree);
        return Err(TypeFault::Kinds(place));
    }
    keep_value(filled.kept, place, element, tree, items)?;
    Ok(())
}

/// Puts a value behind other items, if it is kept.
#[tactic(auto, using(crate::proofs::BracesLaws::all_kept, crate::proofs::BracesLaws::not_kept))]
fn keep_value(
    kept: bool,
    place: Place,
    element: u64,
    value: Box<TExpr>,
    items: &mut Seq<TItem>,
) -> Result<(), NoMemory>
    ensures { OnOk result (items.new ≡ items.old ++ kept_items kept (item.Value place element value ∷ [])) }
{
    if kept {
        put_value(place, element, value, items)?;
        return Ok(());
    }
    drop(value);
    Ok(())
}

/// Puts a value behind other items.
fn put_value(
    place: Place,
    element: u64,
    value: Box<TExpr>,
    items: &mut Seq<TItem>,
) -> Result<(), NoMemory>
    ensures { OnOk result (items.new ≡ items.old ++ item.Value place element value ∷ []) }
{
    let element = within_object(element)?;
    let value = value.into_inner();
    items.push(TItem::Value {
        place,
        element,
        value,
    })?;
    Ok(())
}

/// Puts the bytes of a string behind other items, if they are kept.
#[tactic(auto, using(crate::proofs::BracesLaws::all_kept, crate::proofs::BracesLaws::not_kept))]
pub(crate) fn keep_bytes(
    alloc: Global,
    kept: bool,
    element: u64,
    bytes: &Seq<u8>,
    items: &mut Seq<TItem>,
) -> Result<(), NoMemory>
    ensures { OnOk result (items.new ≡ items.old ++ kept_items kept (item.Bytes element bytes.now ∷ [])) }
{
    if kept {
        put_bytes(alloc, element, bytes, items)?;
        return Ok(());
    }
    Ok(())
}

/// Puts the bytes of a string behind other items.
fn put_bytes(
    alloc: Global,
    element: u64,
    bytes: &Seq<u8>,
    items: &mut Seq<TItem>,
) -> Result<(), NoMemory>
    ensures { OnOk result (items.new ≡ items.old ++ item.Bytes element bytes.now ∷ []) }
{
    let element = within_object(element)?;
    let bytes = Seq::copy_of(alloc, bytes.as_slice())?;
    items.push(TItem::Bytes { element, bytes })?;
    Ok(())
}

/// An element of an object.
fn within_object(element: u64) -> Result<u32, NoMemory>
    ensures { IfOk result (λ n. n ≡ element) }
{
    match u32::try_from(element) {
        Ok(element) => Ok(element),
        Err(_) => Err(NoMemory),
    }
}

/// Whether an object may begin with a value, which has to be constant at file scope.
pub(crate) fn may_begin(file: bool, e: &TExpr) -> Result<bool, NoMemory>
    ensures { IfOk result (λ may. may ≡ (not file || is_some (constants.constant e.now))) }
{
    if !file {
        return Ok(true);
    }
    let value = constant(e)?;
    Ok(value.is_some())
}

/// A string for an array of char.
fn put_string(
    alloc: Global,
    filled: Filled,
    place: Place,
    count: u32,
    dims: &[u32],
    element: u64,
    text: Option<&Seq<u8>>,
    items: &mut Seq<TItem>,
) -> Result<(), TypeFault>
    ensures { (t : List ℕ) → PutsItem result filled.kept t items.old items.new (rules.string_item place element t (rules.fitting filled.kind dims.now count (option_copied text.entry))) }
{
    let Some(bytes) = fitting(filled.kind, dims, count, text) else {
        return Err(TypeFault::Kinds(place));
    };
    keep_bytes(alloc, filled.kept, element, bytes, items)?;
    Ok(())
}

/// The bytes of a string that begins an array of so many elements: an array of char that they fit; the 0 behind
/// them may fall away (C17 6.7.9p14).
pub(crate) fn fitting<'a>(
    kind: Kind,
    dims: &[u32],
    count: u32,
    text: Option<&'a Seq<u8>>,
) -> Option<&'a Seq<u8>>
    ensures { option_copied result ≡ rules.fitting kind dims.now count (option_copied text.entry) }
{
    let bytes = text?;
    match dims.split_first() {
        None => fitting_bytes(kind, count, bytes),
        Some(_) => None,
    }
}

/// The bytes, where they fit an array of char with so many elements.
fn fitting_bytes<'a>(kind: Kind, count: u32, bytes: &'a Seq<u8>) -> Option<&'a Seq<u8>>
    ensures { option_copied result ≡ rules.fitting kind [] count (Some bytes.now) }
{
    if is_char(kind) && is_within(bytes.len(), room(count)) {
        Some(bytes)
    } else {
        None
    }
}

/// Whether a kind is that of char.
fn is_char(kind: Kind) -> bool
    ensures { result ≡ same_kind kind Kind.I8 }
{
    kind == Kind::I8
}

/// Whether a length is at most a count.
fn is_within(length: usize, count: u32) -> bool
    ensures { result ≡ nat_le length count }
{
    length <= count as usize
}

/// The bytes of an expression that is a string; parentheses round it are looked through (C17 6.7.9p14).
pub(crate) fn string_in(e: &Expr) -> Option<&Seq<u8>>
    ensures { option_copied result ≡ rules.string_of e.now }
{
    match e {
        Expr::Str { bytes, .. } => Some(bytes),
        Expr::Paren { of, .. } => string_in(of.get()),
        _ => None,
    }
}

//! Calls of library functions (C17 7.21).
ghost use Rattle.std.specs.Prelude.{◌≡◌, ℕ, List, IfOk};
ghost use Rattle.std.specs.Option.{option_copied};
ghost use Rattle.k_types_meaning.specs.CallRules as rules;
ghost use Rattle.k_types_rules.specs.Views.{Agrees};
ghost use Rattle.k_types_expressions.specs.Arguments.{typed_all, format_in};

use crate::arguments::{all_formatted, next};
use k_num::{Box, Kind, NoMemory, Place, Seq};
use k_types_meaning::{Library, TExpr, TType, TypeFault};
use k_types_names::{Format, marks_of};
use k_types_rules::{TypeView, TypedExpr, at, passed};
use std::alloc::Global;
use std::collections::VecDeque;

/// A call of a library function.
pub(crate) fn library_called<'a>(
    alloc: Global,
    place: Place,
    library: Library,
    args: VecDeque<TypedExpr<'a>>,
) -> Result<TypedExpr<'a>, TypeFault>
    ensures { (ts : List (List ℕ)) → Agrees result (rules.all_taken (typed_all args.entry.items ts)) (rules.library_called place library (typed_all args.entry.items ts)) }
{
    match library {
        Library::Getchar => getchar_called(alloc, place, args),
        Library::Putchar => putchar_called(alloc, place, args),
        Library::Puts => puts_called(alloc, place, args),
        Library::Printf => printf_called(alloc, place, args),
    }
}

/// `getchar` takes nothing (C17 7.21.7.6).
fn getchar_called<'a>(
    alloc: Global,
    place: Place,
    args: VecDeque<TypedExpr<'a>>,
) -> Result<TypedExpr<'a>, TypeFault>
    ensures { (ts : List (List ℕ)) → Agrees result (rules.all_taken (typed_all args.entry.items ts)) (rules.getchar_called place (typed_all args.entry.items ts)) }
{
    let mut waiting = args;
    if let Some(arg) = next(&mut waiting) {
        drop(arg);
        return Err(TypeFault::Arity(place));
    }
    let node = at(place, TType::Number(Kind::I32));
    let tree = Box::new(alloc, TExpr::Getchar { node })?;
    Ok(TypedExpr {
        tree,
        of: TypeView::Number(Kind::I32),
        place: None,
    })
}

/// `putchar` takes an int (C17 7.21.7.8).
fn putchar_called<'a>(
    alloc: Global,
    place: Place,
    args: VecDeque<TypedExpr<'a>>,
) -> Result<TypedExpr<'a>, TypeFault>
    ensures { (ts : List (List ℕ)) → Agrees result (rules.all_taken (typed_all args.entry.items ts)) (rules.putchar_called place (typed_all args.entry.items ts)) }
{
    let mut waiting = args;
    let Some(arg) = next(&mut waiting) else {
        return Err(TypeFault::Arity(place));
    };
    let Some(of) = passed(alloc, TypeView::Number(Kind::I32), arg)? else {
        return Err(TypeFault::Kinds(place));
    };
    if let Some(more) = next(&mut waiting) {
        drop(more);
        return Err(TypeFault::Arity(place));
    }
    let node = at(place, TType::Number(Kind::I32));
    let tree = Box::new(alloc, TExpr::Putchar { node, of })?;
    Ok(TypedExpr {
        tree,
        of: TypeView::Number(Kind::I32),
        place: None,
    })
}

/// `puts` takes one string, which is written up to its end (C17 7.21.7.9).
fn puts_called<'a>(
    alloc: Global,
    place: Place,
    args: VecDeque<TypedExpr<'a>>,
) -> Result<TypedExpr<'a>, TypeFault>
    ensures { (ts : List (List ℕ)) → Agrees result (rules.all_taken (typed_all args.entry.items ts)) (rules.puts_called place (typed_all args.entry.items ts)) }
{
    let mut waiting = args;
    let Some(arg) = next(&mut waiting) else {
        return Err(TypeFault::Arity(place));
    };
    if let Some(more) = next(&mut waiting) {
        drop(more);
        drop(arg);
        return Err(TypeFault::Arity(place));
    }
    put_line(alloc, place, arg.tree)
}

/// `puts` of what may be a string.
fn put_line<'a>(alloc: Global, place: Place, of: Box<TExpr>) -> Result<TypedExpr<'a>, TypeFault>
    ensures { (taken : List ℕ) → Agrees result taken (rules.put_line place taken of (rules.bytes_in of)) }
{
    let Some(bytes) = bytes_in(of.get()) else {
        drop(of);
        return Err(TypeFault::BadFormat(place));
    };
    if has_zero(bytes.as_slice()) {
        drop(of);
        return Err(TypeFault::BadFormat(place));
    }
    let node = at(place, TType::Number(Kind::I32));
    let tree = Box::new(alloc, TExpr::Puts { node, of })?;
    Ok(TypedExpr {
        tree,
        of: TypeView::Number(Kind::I32),
        place: None,
    })
}

/// The bytes of an expression that is a string.
fn bytes_in(e: &TExpr) -> Option<&Seq<u8>>
    ensures { option_copied result ≡ rules.bytes_in e.now }
{
    match e {
        TExpr::Str { bytes, .. } => Some(bytes),
        _ => None,
    }
}

/// Whether bytes have a 0 among them.
fn has_zero(bytes: &[u8]) -> bool
    ensures { result ≡ rules.has_zero bytes.now }
{
    for byte in bytes {
        if *byte == 0 {
            return true;
        }
    }
    false
}

/// `printf` takes a format first, which is no object, and then an argument for each conversion (C17 7.21.6.1).
fn printf_called<'a>(
    alloc: Global,
    place: Place,
    args: VecDeque<TypedExpr<'a>>,
) -> Result<TypedExpr<'a>, TypeFault>
    ensures { (ts : List (List ℕ)) → Agrees result (rules.all_taken (typed_all args.entry.items ts)) (rules.printf_called place (typed_all args.entry.items ts)) }
{
    let mut waiting = args;
    let Some(arg) = next(&mut waiting) else {
        return Err(TypeFault::BadFormat(place));
    };
    let format = format_of(alloc, arg)?;
    let Some(format) = format else {
        return Err(TypeFault::BadFormat(place));
    };
    let Some(args) = all_formatted(alloc, format.kinds.as_slice(), waiting)? else {
        return Err(TypeFault::BadFormat(place));
    };
    let node = at(place, TType::Number(Kind::I32));
    let tree = Box::new(
        alloc,
        TExpr::Printf {
            node,
            format: format.pieces,
            args,
        },
    )?;
    Ok(TypedExpr {
        tree,
        of: TypeView::Number(Kind::I32),
        place: None,
    })
}

/// The format that an argument is, if it is a string and a format.
fn format_of(alloc: Global, arg: TypedExpr<'_>) -> Result<Option<Format>, NoMemory>
    ensures { IfOk result (λ format. format ≡ format_in (rules.bytes_in arg.entry.tree)) }
{
    let Some(bytes) = bytes_in(arg.tree.get()) else {
        drop(arg);
        return Ok(None);
    };
    marks_of(alloc, bytes.as_slice())
}

//! Assignments, once their operands are there (C17 6.5.2.4, 6.5.3.1, 6.5.16).
ghost use Rattle.std.specs.Prelude.{◌≡◌, ◌+◌, ◌^◌, ◌<◌};
ghost use Rattle.k_evaluation.specs.Assignments.{side_kind as side_kind_meant};
ghost use Rattle.k_lower_code.specs.Assignments.{after_old as after_old_meant, after_place as after_place_meant, changed as changed_meant, changes, changes_old, combined, converts_back, converts_between, converts_side, old_value as old_value_meant, writes};
ghost use Rattle.k_lower_expressions.specs.Arounds.{designates, program_of};
ghost use Rattle.k_lower_expressions.specs.Emits.{Emits};

use crate::around::Around;
use crate::designated::Designated;
use crate::instructions::{does, if_used, sets};
use crate::operators::{binary, convert, move_value};
use crate::places::offset;
use k_code::{Arg, Do, Instr};
use k_num::{Bin, Kind, NoMemory, Place, promote};
use k_typed_parts::{kind_of, kind_or_int, scale_of};
use k_types_meaning::{Change, Node};

/// The kind of the right operand of an operation in a kind.
fn side_kind(op: Bin, kind: Kind, from: Option<Kind>) -> Kind
    ensures { result ≡ side_kind_meant op kind from }
{
    match op {
        Bin::Shl | Bin::Shr => promote(kind_or_int(from)),
        _ => kind,
    }
}

/// A value is written to a place: to a register by a move, to memory by a store, whose value goes to a register where it is used.
pub fn write(
    around: &Around<'_>,
    place: Place,
    used: bool,
    r: u32,
    target: Designated,
    a: Arg,
    out: &mut Vec<Instr>,
) -> Result<Arg, NoMemory>
    ensures { Emits result (writes (program_of around.now) place used r (designates target) a) out.old.items out.new.items }
{
    match target {
        Designated::InRegister(number, _) => {
            does(around, place, Do::Move { a, to: number }, out)?;
            Ok(Arg::Reg(number, false))
        }
        Designated::InMemory(address) => {
            let to = if_used(used, r);
            does(around, place, Do::Store { at: address, a, to }, out)?;
            Ok(Arg::Reg(r, false))
        }
    }
}

/// The old value of a place that is changed.
fn old_value(
    around: &Around<'_>,
    place: Place,
    r: u32,
    target: Designated,
    out: &mut Vec<Instr>,
) -> Result<Arg, NoMemory>
    ensures { Emits result (old_value_meant (program_of around.now) place r (designates target)) out.old.items out.new.items }
{
    match target {
        Designated::InRegister(number, broken) => Ok(Arg::Reg(number, broken)),
        Designated::InMemory(address) => {
            sets(around, place, Do::Load { at: address, to: r }, r, out)
        }
    }
}

/// A value of one kind in another.
fn between(
    around: &Around<'_>,
    place: Place,
    from: Kind,
    to: Kind,
    r: u32,
    a: Arg,
    out: &mut Vec<Instr>,
) -> Result<Arg, NoMemory>
    ensures { Emits result (converts_between (program_of around.now) place from to r a) out.old.items out.new.items }
{
    if from == to {
        Ok(a)
    } else {
        convert(around, place, Some(to), r, a, out)
    }
}

/// The same of a value whose kind may not be known.
fn bring(
    around: &Around<'_>,
    place: Place,
    from: Option<Kind>,
    to: Kind,
    r: u32,
    a: Arg,
    out: &mut Vec<Instr>,
) -> Result<Arg, NoMemory>
    ensures { Emits result (converts_side (program_of around.now) place from to r a) out.old.items out.new.items }
{
    match from {
        None => Ok(a),
        Some(from) => between(around, place, from, to, r, a, out),
    }
}

/// A result is brought back to the kind of its place.
fn bring_back(
    around: &Around<'_>,
    place: Place,
    from: Kind,
    to: Option<Kind>,
    r: u32,
    a: Arg,
    out: &mut Vec<Instr>,
) -> Result<Arg, NoMemory>
    ensures { Emits result (converts_back (program_of around.now) place from to r a) out.old.items out.new.items }
{
    match to {
        None => Ok(a),
        Some(to) => between(around, place, from, to, r, a, out),
    }
}

/// What an operator makes of the old value of a place and a right operand, by the operator with its kind and by the kinds of both.
fn combine(
    around: &Around<'_>,
    place: Place,
    change: (Bin, Kind),
    kinds: (Option<Kind>, Option<Kind>),
    r: u32,
    old: Arg,
    by: Arg,
    out: &mut Vec<Instr>,
) -> Result<Arg, NoMemory>
    requires { r + 2 < 2 ^ 32 }
    ensures { Emits result (combined (program_of around.now) place change.0 change.1 kinds.0 kinds.1 r old by) out.old.items out.new.items }
{
    let (op, kind) = change;
    let (of, by_of) = kinds;
    let a = bring(around, place, of, kind, r + 1, old, out)?;
    let b = bring(
        around,
        place,
        by_of,
        side_kind(op, kind, by_of),
        r + 2,
        by,
        out,
    )?;
    let v = binary(around, place, op, kind, r + 1, a, b, out)?;
    bring_back(around, place, kind, of, r + 1, v, out)
}

/// What a change makes of the old value of a place and a right operand of this kind.
fn changed(
    around: &Around<'_>,
    node: &Node,
    change: Change,
    by_of: Option<Kind>,
    r: u32,
    old: Arg,
    by: Arg,
    out: &mut Vec<Instr>,
) -> Result<Arg, NoMemory>
    requires { r + 2 < 2 ^ 32 }
    ensures { Emits result (changed_meant (program_of around.now) node.now.place change node.now.of by_of r old by) out.old.items out.new.items }
{
    let place = node.place;
    match change {
        Change::Number(op, kind) => {
            let kinds = (kind_of(node.of), by_of);
            combine(around, place, (op, kind), kinds, r, old, by, out)
        }
        Change::Forward => offset(around, place, false, scale_of(node.of), r + 1, old, by, out),
        Change::Back => offset(around, place, true, scale_of(node.of), r + 1, old, by, out),
    }
}

/// A place is changed, behind its right operand and its old value.
fn change(
    around: &Around<'_>,
    node: &Node,
    how: Change,
    by_of: Option<Kind>,
    used: bool,
    r: u32,
    target: Designated,
    by: Arg,
    old: Arg,
    out: &mut Vec<Instr>,
) -> Result<Arg, NoMemory>
    requires { r + 3 < 2 ^ 32 }
    ensures { Emits result (changes (program_of around.now) node.now how by_of used r (designates target) by old) out.old.items out.new.items }
{
    let v = changed(around, node, how, by_of, r + 1, old, by, out)?;
    write(around, node.place, used, r, target, v, out)
}

/// A place is changed, behind its right operand.
pub fn change_old(
    around: &Around<'_>,
    node: &Node,
    how: Change,
    by_of: Option<Kind>,
    used: bool,
    r: u32,
    target: Designated,
    by: Arg,
    out: &mut Vec<Instr>,
) -> Result<Arg, NoMemory>
    requires { r + 3 < 2 ^ 32 }
    ensures { Emits result (changes_old (program_of around.now) node.now how by_of used r (designates target) by) out.old.items out.new.items }
{
    let old = old_value(around, node.place, r + 2, target, out)?;
    change(around, node, how, by_of, used, r, target, by, old, out)
}

/// Behind the old value of `place ++`: where it is used, it is moved first.
fn after_old(
    around: &Around<'_>,
    node: &Node,
    how: Change,
    used: bool,
    r: u32,
    target: Designated,
    old: Arg,
    out: &mut Vec<Instr>,
) -> Result<Arg, NoMemory>
    requires { r + 4 < 2 ^ 32 }
    ensures { Emits result (after_old_meant (program_of around.now) node.now how used r (designates target) old) out.old.items out.new.items }
{
    let one = Arg::Number(1);
    if !used {
        return change(around, node, how, None, false, r + 1, target, one, old, out);
    }
    let kept = move_value(around, node.place, r, old, out)?;
    change(around, node, how, None, false, r + 1, target, one, old, out)?;
    Ok(kept)
}

/// Behind the place of `place ++`.
pub fn after_place(
    around: &Around<'_>,
    node: &Node,
    how: Change,
    used: bool,
    r: u32,
    target: Designated,
    out: &mut Vec<Instr>,
) -> Result<Arg, NoMemory>
    requires { r + 4 < 2 ^ 32 }
    ensures { Emits result (after_place_meant (program_of around.now) node.now how used r (designates target)) out.old.items out.new.items }
{
    let old = old_value(around, node.place, r + 3, target, out)?;
    after_old(around, node, how, used, r, target, old, out)
}

//! Times of operations in lanes, one for each of the outermost levels.
ghost use Rattle.std.specs.Prelude.{◌≡◌, ℕ, ◌+◌, ◌*◌, ◌^◌, ◌<◌, ◌≤◌, true, false, [], ◌-◌, ◌∷◌, ◌++◌, length, map, slice_index, slice_index_or, take};
ghost use Rattle.k_shadow.specs.Content.{at_levels, depth};
ghost use Rattle.k_hcpa_meaning.specs.Calls.{arguments_handed};
ghost use Rattle.k_hcpa_meaning.specs.Timings.{Timing, Element, later, after, begun, raised_all, operated, settled};
ghost use Rattle.k_hcpa_times.specs.Seen.{AreBelow, NoLevelAbove, NoneAbove};
ghost use Rattle.k_hcpa_times.specs.Lanes.{locations_from, AreHanded, AreRegistersBelow, Holds, MayDelay, MayEnter};

use crate::laned::{From, Lanes};
use k_code::Arg;
use k_num::NoMemory;
use k_shadow::{Control, Shadow, Steps, TimeLanes, Times, widened};
use std::sync::ledger::Ledger;

/// The greatest time that a lane has.
pub const GREATEST: u64 = 4_294_967_295;

/// Makes room for a location's times, where these are of lanes, and tells whether there is.
#[inline(always)]
pub fn admit_lanes<S: Shadow>(shadow: &mut S, location: u32) -> bool
    requires below { location < (S.content shadow.old).limit }
    ensures same { S.content shadow.new ≡ S.content shadow.old }
    ensures room { result ≡ true → S.room shadow.new location 4294967295 }
{
    match shadow.admit(location, 1, GREATEST) {
        Ok(()) => true,
        Err(NoMemory) => false,
    }
}

/// Each time is at least the location's at its level, for which that is read once.
#[inline(always)]
pub fn raise_lanes<S: Shadow, V: TimeLanes, L: Ledger>(
    shadow: &S,
    location: u32,
    times: V,
    steps: &mut Steps<L>,
) -> V
    requires below { location < (S.content shadow.now).limit }
    requires holds { Holds V.count (S.content shadow.now) }
    ensures raised { at_levels (depth (S.content shadow.now)) (V.time result) ≡ later (at_levels (depth (S.content shadow.now)) (V.time times)) (map (λ level. level location) (S.content shadow.now).levels) }
    ensures steps { steps.new ≡ steps.old + depth (S.content shadow.now) }
{
    shadow.later_lanes(location, times, steps)
}

/// The times of an operation that depends on registers: each is at least the control source's, and theirs, for which these are read once.
#[inline(always)]
pub fn waited<S: Shadow, V: TimeLanes, L: Ledger>(
    registers: &S,
    control: V,
    from: From,
    steps: &mut Steps<L>,
) -> V
    requires holds { Holds V.count (S.content registers.now) }
    requires from { AreRegistersBelow (S.content registers.now).limit (locations_from from) }
    ensures waits { (t : Timing) → t.registers ≡ (S.content registers.now).levels → t.control ≡ at_levels (depth (S.content registers.now)) (V.time control) → raised_all (locations_from from) (begun t) ≡ record t { row = at_levels (depth (S.content registers.now)) (V.time result) } }
    ensures steps { steps.new ≡ steps.old + length (locations_from from) * depth (S.content registers.now) }
{
    if from.sources == 0 {
        return control;
    }
    let times = raise_lanes(registers, from.left, control, steps);
    if from.sources == 1 {
        return times;
    }
    raise_lanes(registers, from.right, times, steps)
}

/// The times of an operation that waits for these and takes so long; each path is at least that.
#[inline(always)]
pub fn settle_lanes<V: TimeLanes>(lanes: &mut Lanes<V>, waits: V, latency: u32) -> V
    ensures times { (count reach : ℕ) → count ≤ V.count → NoneAbove reach (at_levels count (V.time waits)) → reach + latency < 2 ^ 32 → at_levels count (V.time result) ≡ after latency (at_levels count (V.time waits)) }
    ensures paths { (count : ℕ) → count ≤ V.count → take count lanes.new.paths ≡ later (take count lanes.old.paths) (at_levels count (V.time result)) }
    ensures control { lanes.new.control ≡ lanes.old.control }
    ensures count { lanes.new.lanes ≡ V.count }
    ensures paths_lanes { length lanes.new.paths ≡ V.count }
{
    let times = waits.delayed(latency);
    lanes.paths = lanes.paths.later(times);
    times
}

/// The times of an operation that depends on registers and takes so long; each path is at least that.
#[inline(always)]
pub fn operate_lanes<S: Shadow, V: TimeLanes, L: Ledger>(
    registers: &S,
    lanes: &mut Lanes<V>,
    from: From,
    latency: u32,
    steps: &mut Steps<L>,
) -> V
    requires holds { Holds lanes.old.lanes (S.content registers.now) }
    requires from { AreRegistersBelow (S.content registers.now).limit (locations_from from) }
    requires may { MayDelay latency (take (depth (S.content registers.now)) lanes.old.control) (S.content registers.now).levels [] }
    ensures was { lanes.old.lanes ≡ V.count }
    ensures count { lanes.new.lanes ≡ V.count }
    ensures paths_lanes { length lanes.new.paths ≡ V.count }
    ensures control { lanes.new.control ≡ lanes.old.control }
    ensures operated { (t : Timing) → t.registers ≡ (S.content registers.now).levels → t.control ≡ take (depth (S.content registers.now)) lanes.old.control → t.paths ≡ take (depth (S.content registers.now)) lanes.old.paths → operated (locations_from from) latency t ≡ record t { row = at_levels (depth (S.content registers.now)) (V.time result); paths = take (depth (S.content registers.now)) lanes.new.paths } }
    ensures steps { steps.new ≡ steps.old + length (locations_from from) * depth (S.content registers.now) }
{
    let waits = waited(registers, lanes.control, from, steps);
    settle_lanes(lanes, waits, latency)
}

/// The times of an operation that depends on registers and an element and takes so long; each path is at least that.
#[inline(always)]
pub fn load_with<R: Shadow, P: Shadow, V: TimeLanes, L: Ledger>(
    registers: &R,
    elements: &P,
    lanes: &mut Lanes<V>,
    from: From,
    element: u32,
    latency: u32,
    steps: &mut Steps<L>,
) -> V
    requires registers { Holds lanes.old.lanes (R.content registers.now) }
    requires elements { Holds lanes.old.lanes (P.content elements.now) }
    requires same { depth (P.content elements.now) ≡ depth (R.content registers.now) }
    requires from { AreRegistersBelow (R.content registers.now).limit (locations_from from) }
    requires element { element < (P.content elements.now).limit }
    requires may { MayDelay latency (take (depth (R.content registers.now)) lanes.old.control) (R.content registers.now).levels (P.content elements.now).levels }
    ensures was { lanes.old.lanes ≡ V.count }
    ensures count { lanes.new.lanes ≡ V.count }
    ensures paths_lanes { length lanes.new.paths ≡ V.count }
    ensures control { lanes.new.control ≡ lanes.old.control }
    ensures operated { (t : Timing) → t.registers ≡ (R.content registers.now).levels → t.elements ≡ (P.content elements.now).levels → t.control ≡ take (depth (R.content registers.now)) lanes.old.control → t.paths ≡ take (depth (R.content registers.now)) lanes.old.paths → operated (locations_from from ++ Element element ∷ []) latency t ≡ record t { row = at_levels (depth (R.content registers.now)) (V.time result); paths = take (depth (R.content registers.now)) lanes.new.paths } }
    ensures steps { steps.new ≡ steps.old + (length (locations_from from) + 1) * depth (R.content registers.now) }
{
    let waits = waited(registers, lanes.control, from, steps);
    let waits = raise_lanes(elements, element, waits, steps);
    settle_lanes(lanes, waits, latency)
}

/// Hands what an operand holds to a parameter's register; the operation, which waits for these times, depends on it unless it is a constant or that
/// dependence is broken.
fn hand_lanes<S: Shadow, V: TimeLanes, L: Ledger>(
    registers: &mut S,
    waits: V,
    first: u32,
    arg: Arg,
    to: u32,
    steps: &mut Steps<L>,
) -> V
    requires holds { Holds V.count (S.content registers.old) }
    requires arg { AreBelow first (S.content registers.old).limit (arg ∷ []) }
    requires to { to < (S.content registers.old).limit }
    requires room { S.room registers.old to 4294967295 }
    ensures handed { AreHanded first to 1 (arg ∷ []) (S.content registers.old) (V.time waits) (S.content registers.new) (V.time result) }
    ensures kept { (at most : ℕ) → S.room registers.old at most → S.room registers.new at most }
    ensures least { steps.old ≤ steps.new }
    ensures steps { steps.new ≤ steps.old + depth (S.content registers.old) }
{
    match arg {
        Arg::Number(_) => {
            registers.clear(to, 1);
            waits
        }
        Arg::Reg(register, broken) => {
            let times = raise_lanes(registers, first + register, V::of(&[]), steps);
            registers.put_lanes(to, times);
            if broken { waits } else { waits.later(times) }
        }
    }
}

/// Hands the values of operands to parameters, whose registers, so many, are numbered from `to` on; the operation, which waits for these times, depends on
/// them. There are no more operands than parameters.
pub fn hand_all_lanes<S: Shadow, V: TimeLanes, L: Ledger>(
    registers: &mut S,
    waits: V,
    first: u32,
    to: u32,
    count: u32,
    args: &[Arg],
    steps: &mut Steps<L>,
) -> V
    requires holds { Holds V.count (S.content registers.old) }
    requires args { AreBelow first (S.content registers.old).limit args.now }
    requires few { length args.now ≤ count }
    requires to { to + count ≤ (S.content registers.old).limit }
    requires small { to + count < 2 ^ 32 }
    requires room { (r : ℕ) → to ≤ r → r < to + count → S.room registers.old r 4294967295 }
    ensures handed { AreHanded first to count args.now (S.content registers.old) (V.time waits) (S.content registers.new) (V.time result) }
    ensures least { steps.old ≤ steps.new }
    ensures steps { steps.new ≤ steps.old + length args.now * depth (S.content registers.old) }
{
    let mut waits = waits;
    let mut rest = args;
    let mut given = 0;
    while let Some((arg, more)) = rest.split_first() {
        waits = hand_lanes(registers, waits, first, *arg, to + given, steps);
        rest = more;
        given += 1;
    }
    waits
}

/// A call's operation is made: it depends on the operands, whose values are handed to the parameters, and takes so long; each path is at least that.
pub fn call_with<S: Shadow, V: TimeLanes, L: Ledger>(
    registers: &mut S,
    lanes: &mut Lanes<V>,
    first: u32,
    to: u32,
    count: u32,
    args: &[Arg],
    latency: u32,
    steps: &mut Steps<L>,
) -> V
    requires holds { Holds lanes.old.lanes (S.content registers.old) }
    requires args { AreBelow first (S.content registers.old).limit args.now }
    requires few { length args.now ≤ count }
    requires to { to + count ≤ (S.content registers.old).limit }
    requires small { to + count < 2 ^ 32 }
    requires room { (r : ℕ) → to ≤ r → r < to + count → S.room registers.old r 4294967295 }
    requires may { MayDelay latency (take (depth (S.content registers.old)) lanes.old.control) (S.content registers.old).levels [] }
    ensures was { lanes.old.lanes ≡ V.count }
    ensures count { lanes.new.lanes ≡ V.count }
    ensures paths_lanes { length lanes.new.paths ≡ V.count }
    ensures control { lanes.new.control ≡ lanes.old.control }
    ensures entries { (S.content registers.new).entries ≡ (S.content registers.old).entries }
    ensures limit { (S.content registers.new).limit ≡ (S.content registers.old).limit }
    ensures levels { depth (S.content registers.new) ≡ depth (S.content registers.old) }
    ensures within { (reach : ℕ) → NoLevelAbove reach (S.content registers.old).levels → NoLevelAbove reach (S.content registers.new).levels }
    ensures called { (t : Timing) → t.registers ≡ (S.content registers.old).levels → t.control ≡ take (depth (S.content registers.old)) lanes.old.control → t.paths ≡ take (depth (S.content registers.old)) lanes.old.paths → settled latency (arguments_handed first to count args.now (begun t)) ≡ record t { registers = (S.content registers.new).levels; row = at_levels (depth (S.content registers.old)) (V.time result); paths = take (depth (S.content registers.old)) lanes.new.paths } }
    ensures least { steps.old ≤ steps.new }
    ensures steps { steps.new ≤ steps.old + length args.now * depth (S.content registers.old) }
{
    let waits = hand_all_lanes(registers, lanes.control, first, to, count, args, steps);
    settle_lanes(lanes, waits, latency)
}

/// How many lanes there are.
#[inline(always)]
pub fn lane_count<V: TimeLanes>(lanes: &Lanes<V>) -> usize
    ensures { result ≡ lanes.now.lanes }
{
    let _control = lanes.control;
    V::count()
}

/// Whether a lane is left for the level of an instance that is entered where so many are open, if it has one, and entries are counted in 32 bits.
#[inline(always)]
pub fn may_enter(levels: usize, entries: u64, lanes: usize, depth: u32, opened: u64) -> bool
    ensures { result ≡ true → MayEnter levels entries lanes depth opened }
{
    if opened >= depth as u64 {
        return true;
    }
    levels < lanes && entries < GREATEST
}

/// The lanes get the times of the newest saved control source.
#[inline(always)]
pub fn restore_control<V: TimeLanes>(control: &Control, lanes: &mut Lanes<V>)
    requires most { lanes.old.lanes ≤ 32 }
    requires shallow { length control.now.current ≤ lanes.old.lanes }
    requires few { control.now.entries < 2 ^ 32 }
    requires some { 0 < length control.now.saved }
    requires small { (k : ℕ) → k < length control.now.current → slice_index (slice_index_or control.now.saved (length control.now.saved - 1) []) k < 2 ^ 32 }
    ensures control { take (length control.now.current) lanes.new.control ≡ slice_index_or control.now.saved (length control.now.saved - 1) [] }
    ensures control_lanes { length lanes.new.control ≡ lanes.old.lanes }
    ensures paths { lanes.new.paths ≡ lanes.old.paths }
    ensures count { lanes.new.lanes ≡ lanes.old.lanes }
{
    let paths = lanes.paths;
    *lanes = Lanes {
        control: control.saved_lanes(),
        paths,
    };
}

/// The times of the lanes are saved as a control source.
#[inline(always)]
pub fn save_control<V: TimeLanes>(control: &mut Control, lanes: &Lanes<V>)
    requires room { control.old.room ≡ true }
    requires most { lanes.now.lanes ≤ 32 }
    requires shallow { length control.old.current ≤ lanes.now.lanes }
    ensures saved { control.new.saved ≡ control.old.saved ++ take (length control.old.current) lanes.now.control ∷ [] }
    ensures current { control.new.current ≡ control.old.current }
    ensures entries { control.new.entries ≡ control.old.entries }
{
    control.save_lanes(lanes.control);
}

/// The control source gets the times of the lanes.
#[inline(always)]
pub fn set_control<V: TimeLanes>(control: &mut Control, lanes: &Lanes<V>)
    requires most { lanes.now.lanes ≤ 32 }
    requires shallow { length control.old.current ≤ lanes.now.lanes }
    ensures { control.new ≡ record control.old { current = take (length control.old.current) lanes.now.control } }
{
    control.set_lanes(lanes.control);
}

/// The paths become those of the lanes.
pub fn set_paths<V: TimeLanes>(paths: &mut Times, lanes: &Lanes<V>)
    requires most { lanes.now.lanes ≤ 32 }
    requires few { length paths.old ≤ lanes.now.lanes }
    ensures { paths.new ≡ take (length paths.old) lanes.now.paths }
{
    let wide = widened(lanes.paths);
    let paths = paths.as_mut_slice();
    let count = paths.len();
    paths.copy_from_slice(&wide[..count]);
}

/// A level that is entered has a lane, with time 0. It answers false where there is none for it.
#[inline(always)]
pub fn enter_lane<V: TimeLanes>(lanes: &mut Lanes<V>, level: usize) -> bool
    ensures room { result ≡ true → level < lanes.old.lanes }
    ensures sure { level < lanes.old.lanes → result ≡ true }
    ensures control { result ≡ true → take (level + 1) lanes.new.control ≡ take level lanes.old.control ++ 0 ∷ [] }
    ensures control_lanes { result ≡ true → length lanes.new.control ≡ lanes.old.lanes }
    ensures paths { result ≡ true → take (level + 1) lanes.new.paths ≡ take level lanes.old.paths ++ 0 ∷ [] }
    ensures paths_lanes { result ≡ true → length lanes.new.paths ≡ lanes.old.lanes }
    ensures count { lanes.new.lanes ≡ lanes.old.lanes }
    ensures same { result ≡ false → lanes.new ≡ lanes.old }
{
    let control = lanes.control;
    if level >= V::count() {
        return false;
    }
    lanes.control = control.with_time(level, 0);
    lanes.paths = lanes.paths.with_time(level, 0);
    true
}

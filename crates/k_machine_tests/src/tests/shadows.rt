//! Each call once with ample memory, and the generic calls at concrete types.

ghost use Rattle.std.specs.Prelude.{◌≡◌, ◌<◌, [], ◌∷◌, length};
ghost use Rattle.k_shadow.specs.Content.{empty};

use k_num::NoMemory;
use k_shadow::{Cell, Control, LevelMaps, Shadow, Steps, Times, Versions};
use std::alloc::Global;
use std::marker::Brand;
use std::process::Abort;
use std::sync::ledger::{Blank, Ledger};
use std::test::Fail;

/// A list of these times, of which there are two.
fn two_times(alloc: Global, outer: u64, inner: u64) -> Times
    ensures { result ≡ outer ∷ inner ∷ [] }
{
    let mut times = Times::new(alloc);
    times.push(outer);
    times.push(inner);
    times
}

#[test]
fn times(rt: HostRuntime) {
    let mut times = Times::new(rt.alloc());
    assert_eq!(rt; times.len(), 0);
    times.resize(32);
    assert_eq!(rt; times.len(), 32);
    assert_eq!(rt; times.get(31), 0);
    times.resize(1);
    times.push(7);
    assert_eq!(rt; times.len(), 2);
    let slots = times.as_mut_slice();
    slots[0] = 9;
    assert_eq!(rt; times.as_slice(), [9, 7].as_slice());
    assert_eq!(rt; times.get(1), 7);
}

#[test]
fn numbers_are_given_once(rt: HostRuntime) {
    let mut versions = Versions::new();
    versions.enter();
    versions.enter();
    versions.leave();
    versions.enter();
    assert_eq!(rt; versions.depth(), 2);
    assert_eq!(rt; versions.number(0), 1);
    assert_eq!(rt; versions.number(1), 3);
}

/// The current entry's times at both levels are these.
fn assert_current<L: Ledger>(
    rt: &impl Abort,
    control: &Control,
    want: [u64; 2],
    steps: &mut Steps<L>,
)
    requires { length control.now.current ≡ 2 }
{
    assert_eq!(rt; control.time(0, steps), want[0]);
    assert_eq!(rt; control.time(1, steps), want[1]);
}

/// An entry is saved, another made, and the first comes back and is saved again.
fn control_comes_back<L: Ledger>(
    rt: &impl Abort,
    alloc: Global,
    blank: Blank,
) -> Result<(), NoMemory>
    requires name { blank.name ≡ L.name }
    requires parts { blank.parts ≡ L.parts }
    requires some { 0 < blank.parts }
{
    let mut steps = Steps::<L>::new(blank);
    let mut control = Control::new(alloc);
    control.enter();
    control.enter();
    control.under(&two_times(alloc, 5, 3));
    control.reserve()?;
    control.save();
    control.under(&two_times(alloc, 8, 6));
    assert_current(rt, &control, [8, 6], &mut steps);
    control.reserve()?;
    control.back();
    control.save();
    assert_current(rt, &control, [5, 3], &mut steps);
    assert_eq!(rt; control.saved(), 1);
    control.leave();
    control.enter();
    assert_current(rt, &control, [5, 0], &mut steps);
    control.put([9, 9].as_slice());
    control.keep();
    assert_eq!(rt; control.times(&mut steps), [9, 9].as_slice());
    assert_eq!(rt; control.saved(), 0);
    assert_current(rt, &control, [9, 9], &mut steps);
    Ok(())
}

#[test]
fn control(rt: HostRuntime) -> Result<(), Fail> {
    control_comes_back::<Brand>(&rt, rt.alloc(), Blank::new(1))?;
    Ok(())
}

/// What was put into a cell is there at the levels that are still live.
fn cell_keeps_times<L: Ledger>(rt: &impl Abort, blank: Blank)
    requires name { blank.name ≡ L.name }
    requires parts { blank.parts ≡ L.parts }
    requires some { 0 < blank.parts }
{
    let mut steps = Steps::<L>::new(blank);
    let mut cell = Cell::new();
    assert_eq!(rt; cell.times(&mut steps).len(), 0);
    cell.enter();
    cell.enter();
    cell.put([5, 3].as_slice());
    assert_eq!(rt; cell.times(&mut steps), [5, 3].as_slice());
    cell.leave();
    cell.enter();
    assert_eq!(rt; cell.times(&mut steps), [5, 0].as_slice());
}

#[test]
fn cell(rt: HostRuntime) {
    cell_keeps_times::<Brand>(&rt, Blank::new(1));
}

/// A shadow through its trait: a time that was written is read at its level alone, and not after the level was left.
fn reads_back<S: Shadow, L: Ledger>(
    rt: &impl Abort,
    alloc: Global,
    mut shadow: S,
    steps: &mut Steps<L>,
) -> Result<(), NoMemory>
    requires new { S.content shadow ≡ empty 4294967295 }
{
    shadow.enter();
    shadow.enter();
    shadow.reserve(5, 3)?;
    shadow.write(6, &two_times(alloc, 5, 3));
    assert_eq!(rt; shadow.depth(), 2);
    assert_eq!(rt; shadow.read(6, 0, steps), 5);
    assert_eq!(rt; shadow.read(6, 1, steps), 3);
    assert_eq!(rt; shadow.read(4_294_967_294, 1, steps), 0);
    shadow.leave();
    shadow.enter();
    assert_eq!(rt; shadow.read(6, 0, steps), 5);
    assert_eq!(rt; shadow.read(6, 1, steps), 0);
    shadow.clear(6, 1);
    assert_eq!(rt; shadow.read(6, 0, steps), 0);
    Ok(())
}

fn level_maps_read_back<L: Ledger>(
    rt: &impl Abort,
    alloc: Global,
    blank: Blank,
) -> Result<(), NoMemory>
    requires name { blank.name ≡ L.name }
    requires parts { blank.parts ≡ L.parts }
    requires some { 0 < blank.parts }
{
    let mut steps = Steps::<L>::new(blank);
    reads_back(rt, alloc, LevelMaps::new(alloc), &mut steps)
}

#[test]
fn level_maps(rt: HostRuntime) -> Result<(), Fail> {
    level_maps_read_back::<Brand>(&rt, rt.alloc(), Blank::new(1))?;
    Ok(())
}

//! Three locations in two pages.
ghost use Rattle.std.specs.Prelude.{◌≡◌, ◌<◌, ◌+◌, ◌≤◌, [], ◌∷◌, IfOk, OnOk};
ghost use Rattle.k_shadow.specs.Content.{depth};
ghost use Rattle.k_spage.specs.ShadowPages.{pages_content};

use k_num::NoMemory;
use k_shadow::{Shadow, Steps, Times};
use k_spage::ShadowPages;
use std::alloc::Global;
use std::marker::Brand;
use std::process::Abort;
use std::sync::ledger::{Blank, Ledger};
use std::test::Fail;

/// The time of one level.
fn one_time(alloc: Global, time: u64) -> Times
    ensures { result ≡ time ∷ [] }
{
    let mut times = Times::new(alloc);
    times.push(time);
    times
}

/// Writes one location at depth 1.
#[tactic(auto, using(k_shadow::proofs::Laws::depth_written))]
fn write_one<S: Shadow>(alloc: Global, shadow: &mut S, loc: u32, time: u64) -> Result<(), NoMemory>
    requires below { loc + 1 ≤ (S.content shadow.old).limit }
    requires one { depth (S.content shadow.old) ≡ 1 }
    ensures one { OnOk result (depth (S.content shadow.new) ≡ 1) }
    ensures entries { (S.content shadow.new).entries ≡ (S.content shadow.old).entries }
    ensures limit { (S.content shadow.new).limit ≡ (S.content shadow.old).limit }
{
    shadow.reserve(loc, 1)?;
    shadow.write(loc, &one_time(alloc, time));
    Ok(())
}

/// Three locations are written at depth 1: 0, 255 and 256.
fn written(alloc: Global) -> Result<ShadowPages, NoMemory>
    ensures { IfOk result (λ shadow. (depth (pages_content shadow) ≡ 1) × ((pages_content shadow).entries ≡ 1) × ((pages_content shadow).limit ≡ 4194304)) }
{
    let mut shadow = ShadowPages::new(alloc);
    shadow.enter();
    write_one(alloc, &mut shadow, 0, 5)?;
    write_one(alloc, &mut shadow, 255, 6)?;
    write_one(alloc, &mut shadow, 256, 7)?;
    Ok(shadow)
}

fn two_pages<L: Ledger>(rt: &impl Abort, alloc: Global, blank: Blank) -> Result<(), NoMemory>
    requires name { blank.name ≡ L.name }
    requires parts { blank.parts ≡ L.parts }
    requires some { 0 < blank.parts }
{
    let mut steps = Steps::<L>::new(blank);
    assert_eq!(rt; ShadowPages::new(alloc).pages(), 0);
    let mut shadow = written(alloc)?;
    assert_eq!(rt; shadow.pages(), 2);
    for (loc, time) in [(0, 5), (255, 6), (256, 7), (512, 0)] {
        assert_eq!(rt; shadow.read(loc, 0, &mut steps), time, "at {loc}");
    }
    shadow.clear(255, 1000);
    assert_eq!(rt; shadow.pages(), 2);
    for (loc, time) in [(0, 5), (255, 0), (256, 0), (512, 0)] {
        assert_eq!(rt; shadow.read(loc, 0, &mut steps), time, "cleared, at {loc}");
    }
    shadow.leave();
    shadow.enter();
    assert_eq!(rt; shadow.read(0, 0, &mut steps), 0);
    assert_eq!(rt; shadow.pages(), 2);
    Ok(())
}

#[test]
fn pages(rt: HostRuntime) -> Result<(), Fail> {
    two_pages::<Brand>(&rt, rt.alloc(), Blank::new(1))?;
    Ok(())
}

/// A page is made for the last location, and none for no location.
fn last_page(alloc: Global) -> Result<u64, NoMemory> {
    let mut shadow = ShadowPages::new(alloc);
    shadow.enter();
    write_one(alloc, &mut shadow, 4_194_303, 5)?;
    shadow.reserve(4_194_304, 0)?;
    shadow.reserve(300, 0)?;
    Ok(shadow.pages())
}

#[test]
fn limit(rt: HostRuntime) -> Result<(), Fail> {
    assert_eq!(rt; last_page(rt.alloc())?, 1);
    Ok(())
}

//! A register that is written, and read in a later instance.
ghost use Rattle.std.specs.Prelude.{◌≡◌, ◌<◌, [], ◌∷◌};

use k_num::NoMemory;
use k_shadow::{Shadow, Steps, Times};
use k_sreg::ShadowRegs;
use std::alloc::Global;
use std::marker::Brand;
use std::process::Abort;
use std::sync::ledger::{Blank, Ledger};
use std::test::Fail;

fn one_register<L: Ledger>(rt: &impl Abort, alloc: Global, blank: Blank) -> Result<(), NoMemory>
    requires name { blank.name ≡ L.name }
    requires parts { blank.parts ≡ L.parts }
    requires some { 0 < blank.parts }
{
    let mut steps = Steps::<L>::new(blank);
    let mut times = Times::new(alloc);
    times.push(5);
    let mut shadow = ShadowRegs::new(alloc);
    shadow.enter();
    shadow.reserve(2, 2)?;
    shadow.write(3, &times);
    assert_eq!(rt; shadow.depth(), 1);
    assert_eq!(rt; shadow.read(3, 0, &mut steps), 5);
    assert_eq!(rt; shadow.read(2, 0, &mut steps), 0);
    assert_eq!(rt; shadow.read(2_097_151, 0, &mut steps), 0);
    let mut raised = [7];
    shadow.raise(3, &mut raised, &mut steps);
    assert_eq!(rt; raised[0], 7);
    shadow.clear(0, 2_097_152);
    assert_eq!(rt; shadow.read(3, 0, &mut steps), 0);
    Ok(())
}

#[test]
fn registers(rt: HostRuntime) -> Result<(), Fail> {
    one_register::<Brand>(&rt, rt.alloc(), Blank::new(1))?;
    Ok(())
}

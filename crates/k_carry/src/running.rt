//! What the loops of a program carry.
ghost use Rattle.std.specs.Prelude.{◌≡◌, ◌≤◌, Ok, Err, IfOk};
ghost use Rattle.k_code.specs.Valid.{IsValid};
ghost use Rattle.k_hcpa_store.specs.Leads.{Starts};
ghost use Rattle.k_carry_pairs.specs.Gathered.{nothing};
ghost use Rattle.k_carry.specs.Answer.{TellsOf};
ghost use Rattle.k_carry.specs.Running.{IsGathered, IsKept, IsSetting, IsToldOf};
ghost use Rattle.k_carry.specs.Sources.{ArePlaces, setting_of};

use crate::advance::function_at;
use crate::places::Places;
use crate::program::Program;
use crate::walk::{Noted, step};
use k_carry_pairs::{CarriedPairs, Gathering};
use k_code::Code;
use k_ending::End;
use k_hcpa_store::Store;
use k_num::NoMemory;
use k_world::Stop;
use std::alloc::Global;

/// The dependences that each loop carries from turn to turn in a run of valid code, of at most `budget` operations, where instances of depth below `depth` are
/// tracked, and how the run ends.
pub fn carried(
    alloc: Global,
    code: &Code,
    input: &[u8],
    budget: u64,
    depth: u32,
) -> Result<CarriedPairs, NoMemory>
    requires code { IsValid code.now }
    requires some { 1 ≤ budget }
    requires few { budget ≤ 1000000000 }
    requires tracks { 1 ≤ depth }
    requires shallow { depth ≤ 32 }
    ensures { IfOk result (λ c. TellsOf code.now input.now budget depth c) }
{
    let program = Program {
        alloc,
        code,
        input,
        budget,
        depth,
    };
    let mut noted = Noted {
        gathering: Gathering::new(alloc, code.regions.as_slice(), depth)?,
        places: Places::new(alloc),
        cited: Vec::new(alloc),
        origins: Vec::new(alloc),
    };
    match Store::start(alloc, code, input, budget) {
        Ok(store) => {
            let mut store = store;
            begin(&program, &mut store, &mut noted)
        }
        Err(stop) => stopped(&program, &noted, stop),
    }
}

/// The run has ended at once, or no memory was found.
fn stopped(program: &Program<'_>, noted: &Noted<'_>, stop: Stop) -> Result<CarriedPairs, NoMemory>
    requires starts { Starts program.now.code.now program.now.input.now program.now.budget (Err stop) }
    requires nothing { noted.now.gathering ≡ nothing program.now.code.now.regions program.now.depth }
    ensures { IfOk result (λ c. TellsOf program.now.code.now program.now.input.now program.now.budget program.now.depth c) }
{
    match stop {
        Stop::Ended(end) => tell(program.alloc, &noted.gathering, end),
        Stop::Memory => Err(NoMemory),
    }
}

/// The run begins with main's instance.
fn begin<'a>(
    program: &Program<'a>,
    store: &mut Store<'a>,
    noted: &mut Noted<'a>,
) -> Result<CarriedPairs, NoMemory>
    requires setting { IsSetting (setting_of program.now) }
    requires starts { Starts program.now.code.now program.now.input.now program.now.budget (Ok store.old) }
    requires nothing { noted.old.gathering ≡ nothing program.now.code.now.regions program.now.depth }
    requires places { ArePlaces (setting_of program.now) noted.old.places }
    ensures { IfOk result (λ c. TellsOf program.now.code.now program.now.input.now program.now.budget program.now.depth c) }
{
    let main = function_at(program.code.funcs.as_slice(), program.code.main);
    noted.gathering.enter(main.region, 0)?;
    let end = run(program, store, noted)?;
    tell(program.alloc, &noted.gathering, end)
}

/// Runs a program to its end.
fn run<'a>(
    program: &Program<'a>,
    store: &mut Store<'a>,
    noted: &mut Noted<'a>,
) -> Result<End, NoMemory>
    requires setting { IsSetting (setting_of program.now) }
    requires kept { IsKept (setting_of program.now) store.old noted.old.gathering noted.old.places }
    ensures { IfOk result (λ end. IsGathered (setting_of program.now) noted.new.gathering end) }
{
    loop {
        if let Some(end) = step(store, noted, program)? {
            return Ok(end);
        }
    }
}

/// What was gathered of a run that ended so.
fn tell(alloc: Global, gathering: &Gathering<'_>, end: End) -> Result<CarriedPairs, NoMemory>
    ensures { IfOk result (λ c. IsToldOf gathering.now end c) }
{
    Ok(CarriedPairs {
        end,
        loops: gathering.loops(alloc)?,
    })
}

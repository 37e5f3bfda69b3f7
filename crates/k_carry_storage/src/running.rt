//! What the turns of the loops of a program share.
ghost use Rattle.std.specs.Prelude.{◌≡◌, ◌≤◌, [], Ok, Err, IfOk};
ghost use Rattle.k_mem.specs.declared.pointer.Pointer.{Pointer};
ghost use Rattle.k_code.specs.Valid.{IsValid};
ghost use Rattle.k_hcpa_store.specs.Leads.{Starts};
ghost use Rattle.k_carry.specs.Running.{IsSetting};
ghost use Rattle.k_carry_storage_pairs.specs.Kept.{none_shared};
ghost use Rattle.k_carry_storage.specs.Answer.{TellsAllOf, TellsOf};
ghost use Rattle.k_carry_storage.specs.Running.{IsKept, IsOver, IsToldOf, setting_of};
ghost use Rattle.k_carry_storage.specs.Tables.{kept_at};

use crate::table::Table;
use crate::told::StorageTold;
use crate::walk::{Noted, Program, step};
use k_carry::advance::function_at;
use k_carry_storage_pairs::{SharedGathering, StoragePairs};
use k_code::Code;
use k_ending::End;
use k_hcpa_store::Store;
use k_num::NoMemory;
use k_world::Stop;
use std::alloc::Global;

/// The elements that turns of each loop share without handing them on, in a run of valid code, of at most `budget` operations, where instances of depth below
/// `depth` are tracked, and how the run ends. Each is told by where an earlier turn loads it or stores to it first, and where a later one stores to it.
pub fn storage(
    alloc: Global,
    code: &Code,
    input: &[u8],
    budget: u64,
    depth: u32,
) -> Result<StoragePairs, NoMemory>
    requires code { IsValid code.now }
    requires some { 1 ≤ budget }
    requires few { budget ≤ 1000000000 }
    requires tracks { 1 ≤ depth }
    requires shallow { depth ≤ 32 }
    ensures { IfOk result (λ s. TellsOf code.now input.now budget depth s) }
{
    let StorageTold { pairs, deep: _ } = storage_told(alloc, code, input, budget, depth)?;
    Ok(pairs)
}

/// What `storage` gives, and which regions had an instance in the same run that is not tracked, so that nothing is told of it.
pub fn storage_told(
    alloc: Global,
    code: &Code,
    input: &[u8],
    budget: u64,
    depth: u32,
) -> Result<StorageTold, NoMemory>
    requires code { IsValid code.now }
    requires some { 1 ≤ budget }
    requires few { budget ≤ 1000000000 }
    requires tracks { 1 ≤ depth }
    requires shallow { depth ≤ 32 }
    ensures { IfOk result (λ told. TellsAllOf code.now input.now budget depth told) }
{
    let program = Program {
        alloc,
        code,
        input,
        budget,
        depth,
    };
    let mut noted = Noted {
        gathering: SharedGathering::new(alloc, code.regions.as_slice(), depth)?,
        loads: Table::new(alloc),
        stores: Table::new(alloc),
        reads: Vec::new(alloc),
        first_loads: Vec::new(alloc),
        first_stores: Vec::new(alloc),
    };
    match Store::start(alloc, code, input, budget) {
        Ok(store) => {
            let mut store = store;
            begin(&program, &mut store, &mut noted)
        }
        Err(stop) => stopped(&program, &noted, stop),
    }
}

/// The run has ended at once, or no memory was found.
fn stopped(program: &Program<'_>, noted: &Noted<'_>, stop: Stop) -> Result<StorageTold, NoMemory>
    requires starts { Starts program.now.code.now program.now.input.now program.now.budget (Err stop) }
    requires nothing { noted.now.gathering ≡ none_shared program.now.code.now.regions program.now.depth }
    ensures { IfOk result (λ told. TellsAllOf program.now.code.now program.now.input.now program.now.budget program.now.depth told) }
{
    match stop {
        Stop::Ended(end) => tell(program.alloc, &noted.gathering, end),
        Stop::Memory => Err(NoMemory),
    }
}

/// The run begins with main's instance.
fn begin<'a>(
    program: &Program<'a>,
    store: &mut Store<'a>,
    noted: &mut Noted<'a>,
) -> Result<StorageTold, NoMemory>
    requires setting { IsSetting (setting_of program.now) }
    requires starts { Starts program.now.code.now program.now.input.now program.now.budget (Ok store.old) }
    requires nothing { noted.old.gathering ≡ none_shared program.now.code.now.regions program.now.depth }
    requires loads { (element : Pointer) → kept_at noted.old.loads element ≡ [] }
    requires stores { (element : Pointer) → kept_at noted.old.stores element ≡ [] }
    ensures { IfOk result (λ told. TellsAllOf program.now.code.now program.now.input.now program.now.budget program.now.depth told) }
{
    let main = function_at(program.code.funcs.as_slice(), program.code.main);
    noted.gathering.enter(main.region, 0)?;
    let end = run(program, store, noted)?;
    tell(program.alloc, &noted.gathering, end)
}

/// Runs a program to its end.
fn run<'a>(
    program: &Program<'a>,
    store: &mut Store<'a>,
    noted: &mut Noted<'a>,
) -> Result<End, NoMemory>
    requires setting { IsSetting (setting_of program.now) }
    requires kept { IsKept (setting_of program.now) store.old noted.old.gathering noted.old.loads noted.old.stores }
    ensures { IfOk result (λ end. IsOver (setting_of program.now) noted.new.gathering end) }
{
    loop {
        if let Some(end) = step(store, noted, program)? {
            return Ok(end);
        }
    }
}

/// What was gathered of a run that ended so.
fn tell(alloc: Global, gathering: &SharedGathering<'_>, end: End) -> Result<StorageTold, NoMemory>
    ensures { IfOk result (λ told. IsToldOf gathering.now end told) }
{
    let pairs = StoragePairs {
        end,
        loops: gathering.loops(alloc)?,
    };
    let deep = gathering.deep(alloc)?;
    Ok(StorageTold { pairs, deep })
}

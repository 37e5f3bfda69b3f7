//! How a run begins.
ghost use Rattle.std.specs.Prelude.{◌≡◌, ◌≤◌};
ghost use Rattle.k_hcpa_meaning.specs.Timings.{no_levels};
ghost use Rattle.k_hcpa_standing.specs.Standing.{IsSetting};
ghost use Rattle.k_hcpa_steps.specs.Starting.{StartsAt};

use crate::calls::function_at;
use crate::parts::Parts;
use k_code::Code;
use k_hcpa_store::Store;
use k_hcpa_summaries::Summaries;
use k_hcpa_times::Timed;
use k_world::Stop;
use std::alloc::Global;

impl<'a, T: Timed> Parts<'a, T> {
    /// A run of valid code begins, in which the instances of depth below `depth` are tracked, by times of which no level is live; or it has ended at once.
    pub fn start(
        alloc: Global,
        code: &'a Code,
        input: &'a [u8],
        budget: u64,
        depth: u32,
        times: T,
    ) -> Result<Parts<'a, T>, Stop>
        requires setting { IsSetting (record { code = code.now; input = input.now; budget = budget; depth = depth }) }
        requires timing { (T.seen times).timing ≡ no_levels }
        requires entries { (T.seen times).entries ≡ 0 }
        requires registers { 2097152 ≤ (T.seen times).registers }
        requires elements { 4194304 ≤ (T.seen times).elements }
        ensures { StartsAt T.seen (record { code = code.now; input = input.now; budget = budget; depth = depth }) result }
    {
        let store = match Store::start(alloc, code, input, budget) {
            Ok(store) => store,
            Err(stop) => {
                drop(times);
                return Err(stop);
            }
        };
        let Ok(summaries) = Summaries::new(alloc) else {
            drop(times);
            return Err(Stop::Memory);
        };
        let main = function_at(code, code.main);
        let mut parts = Parts {
            store,
            times,
            summaries,
            depth,
        };
        parts.enter_instance(main.region);
        Ok(parts)
    }
}

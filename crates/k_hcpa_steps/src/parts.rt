//! The parts of a machine.
use k_hcpa_store::Store;
use k_hcpa_summaries::Summaries;
use k_hcpa_times::Timed;

/// The values of a machine, its times, and its summaries, of which the instances of depth below `depth` are kept.
#[derive(Drop)]
pub struct Parts<'a, T: Timed> {
    pub store: Store<'a>,
    pub times: T,
    pub summaries: Summaries,
    pub depth: u32,
}

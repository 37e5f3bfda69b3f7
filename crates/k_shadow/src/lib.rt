//! Shadow storage: one time for each location and live level of a running program's regions, and the control stack,
//! whose entries have one time for each live level too.
#![tactic(auto)]

mod cell;
mod control;
mod level_maps;
mod lists;
mod maps;
mod row;
mod saved_rows;
mod shadow;
mod steps;
mod time_lanes;
mod times;
mod versions;

pub use cell::Cell;
pub use control::Control;
pub use level_maps::LevelMaps;
pub use lists::{
    advance, copy_behind, copy_to, live_levels, narrowed, raise_each, times_after, widened,
};
pub use row::{Carried, LevelRow, NarrowRow, Row};
pub use shadow::Shadow;
pub use steps::Steps;
pub use time_lanes::TimeLanes;
pub use times::Times;
pub use versions::Versions;

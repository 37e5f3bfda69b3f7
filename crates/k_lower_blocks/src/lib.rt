//! What stands around the statements in a block and in an `if`, emitted instruction by instruction: the pads and the end of a text whose
//! objects die, the control source that is saved and taken back, and the test and the jump around arms.
#![tactic(auto)]

mod arms;
mod block;
mod closing;
mod place;
mod settled;

pub use arms::{arms_left, pass_arm, test_one, test_two};
pub use block::{BlockRest, Ending, end_all, enter_block, enter_rest, pass_statement, site_behind};
pub use closing::{close, closed_site};
pub use place::place_of;
pub use settled::{back_unless, save_unless};

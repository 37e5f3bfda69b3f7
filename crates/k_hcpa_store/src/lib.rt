//! The values of the machine that runs flat code: an exact configuration with its sources, but without its events and without the output that
//! was taken.
#![tactic(auto)]

mod answer;
mod at_once;
mod call;
mod made;
mod operands;
mod register;
mod registers;
mod said;
mod state;
mod store;

pub use answer::{Alone, Calling};
pub use operands::act_in;
pub use register::Slot;
pub use said::Next;
pub use store::Store;

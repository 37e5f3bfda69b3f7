//! What stands around the statements of a program's flat code: the parameters that are memory, the end of a function, how many registers
//! a function has, the objects that are made before a run, and the code as a whole.
#![tactic(auto)]

mod code;
mod end;
mod objects;
mod parameter;
mod registers;

pub use code::{code_func, code_of};
pub use end::end_function;
pub use parameter::serve;

//! What the rules of types look up: the names that are known at a place of a source, the types that
//! specifiers name, and what the formats of `printf` take.
#![tactic(auto)]

mod formats;
mod scopes;
mod specifiers;

// Laws of the definition of formats.
pub mod laws;

pub use formats::{Format, marks_of};
pub use scopes::{Scopes, is_library};
pub use specifiers::{base_of, says_const, says_static, starred, type_named};

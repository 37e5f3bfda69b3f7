//! The typing of statements (C17 6.8): what each comes to where names are known, and what is known behind it. A
//! part is judged before the statement that it stands in, in text order.
#![tactic(auto)]

mod around;
mod loops;
mod rules;
mod scope;
mod statement;
mod switch;
mod valued;

pub use around::Around;
pub use statement::judge_body;

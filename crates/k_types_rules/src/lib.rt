//! The typing of expressions: the rules, one function for each, over finished operands (C17 6.5). What a rule
//! gives is a tree, a type and whether it is a place, or its fault.
#![tactic(auto)]

mod assignment;
mod cast;
mod constant;
mod conversion;
mod element;
mod judged;
mod name;
mod operator;
mod place;
mod step;
mod unary;
mod view;

pub use assignment::assign_rule;
pub use cast::{cast_to_named, sizeof_named, sizeof_rule};
pub use constant::{char_rule, number_rule, string_rule};
pub use conversion::{at, in_kind, passed};
pub use element::ElementView;
pub use judged::TypedExpr;
pub use name::named;
pub use operator::{binary_rule, comma_rule, cond_rule};
pub use place::index_rule;
pub use step::{post_rule, pre_rule};
pub use unary::unary_rule;
pub use view::{TypeView, are_equal, decayed, kind_of, lent, lent_element, pointed_by, size, told};

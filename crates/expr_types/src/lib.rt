//! The scope of a program, and the types of expressions in it.
#![tactic(auto)]

mod fields;
mod names;
mod place;
mod scopes;
mod sizes;
mod types;

pub use fields::{param_width, std_width};
pub use names::broken_name;
pub use place::{Place, top};
pub use scopes::Scope;
pub use sizes::Sizes;
pub use types::{
    Sort, Ty, bits_of, is_index, is_width, left_giver, lie_within, lval_type, of_width,
    right_giver, sort_at, taking, type_of,
};

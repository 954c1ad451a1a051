//! The expressions of a program: which words spell one, and which tree these are.
#![tactic(auto)]

mod depth_laws;
mod examples;
mod forms;
mod level_laws;
mod operators;
mod parts;
mod pieces;
mod reading;

pub use depth_laws::{law_of_greater_depths, law_of_open_brackets};
pub use examples::{
    examples_are_spelled, more_examples_are_spelled, most_operators_are_few,
    operators_stand_at_their_levels, parted_signs_are_no_operator,
};
pub use level_laws::law_of_levels;
pub use parts::{amount, bits, header, index, lval, no_arguments, number, register};
pub use reading::{expr, read_expr};

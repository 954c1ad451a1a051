//! The parser: from the tokens of a text to the tree of the program that they spell.
#![tactic(auto)]

mod actions;
mod cases;
mod controls;
mod grammar_examples;
mod grammar_laws;
mod parameters;
mod parsing;
mod states;

pub use grammar_examples::{
    block_of_a_stage_is_one_statement, conditions_need_a_depth_of_their_number,
    else_goes_to_the_inner_if, no_condition_without_depth,
    no_constant_has_a_number_of_another_width, no_table_has_two_empty_keys, no_width_is_too_wide,
    touching_signs_close_two_types, worked_declarations_are_spelled,
};
pub use grammar_laws::{
    law_of_action_bodies, law_of_begun_statements, law_of_few_declarations, law_of_greater_depths,
    law_of_open_brackets, law_of_open_ends, no_table_has_two_key_properties,
};
pub use parsing::parse;

//! Laws over the definitions of elastic_ast, each the contract of an empty function: of typed programs, of packets, of units and
//! their instances, of vectors and of registers; and worked examples, as equations that are computed when the crate is checked.
#![tactic(auto)]

mod meaning_examples;
mod meaning_laws;
mod packet_examples;
mod packet_laws;
mod register_laws;
mod typing_details;
mod typing_examples;
mod typing_laws;
mod unit_examples;
mod unit_laws;
mod vector_laws;

pub use meaning_examples::{
    law_of_packets, law_of_statements, law_of_values, operators_are_told_by_codes,
};
pub use meaning_laws::shifts_are_of_words;
pub use packet_examples::{examples_of_answers, examples_of_registers};
pub use packet_laws::{law_of_parser_ends, law_of_taken_locations};
pub use register_laws::{cells_are_apart, names_lead_to_cells};
pub use typing_details::{
    faults_stand_alone, names_in_detail, sizes_in_detail, tables_in_detail, values_in_detail,
};
pub use typing_examples::{
    names_are_declared_once_and_known, names_may_break_two_rules, parts_belong_together,
    registers_are_named_by_one_unit, sizes_and_indices_agree, tables_and_calls_agree,
    whole_programs_are_typed, widths_agree,
};
pub use typing_laws::{
    parsers_end_and_headers_are_declared, registers_are_apart, tables_run_what_they_list,
    typed_programs_meet_the_premises, types_are_known_and_wide,
};
pub use unit_examples::{
    flat_names, orders_of_two_units, units_of_a_sketch, units_of_conditions,
    units_of_loops_and_blocks, units_of_tables_and_calls, units_with_registers, what_instances_do,
};
pub use unit_laws::{
    cut_keeps_the_meaning, free_neighbours_exchange, instances_are_kept, instances_have_footprints,
    lists_agree, one_piece_is_counted,
};
pub use vector_laws::{law_of_places, law_of_writes};

//! Tests of the types, the checker, the terms and the integer programs, in one place: the gate proves a crate that has tests
//! twice.
#![tactic(auto)]

#[cfg(test)]
mod action_rules;
#[cfg(test)]
mod declaration_rules;
#[cfg(test)]
mod expression_rules;
#[cfg(test)]
mod integer_programs;
#[cfg(test)]
mod parser_rules;
#[cfg(test)]
mod pipelines;
#[cfg(test)]
mod register_rules;
#[cfg(test)]
mod registers;
#[cfg(test)]
mod rules;
#[cfg(test)]
mod sources;
#[cfg(test)]
mod table_rules;
#[cfg(test)]
mod terms;
#[cfg(test)]
mod typed_sources;
#[cfg(test)]
mod units;
#[cfg(test)]
mod vectors;

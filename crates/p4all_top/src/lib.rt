//! The top call of the compiler, and one call for each command.
#![tactic(auto)]

#[cfg(test)]
mod bound_tests;
mod output;
mod parsing;
mod printing;
mod reading;
mod rule_names;
#[cfg(test)]
mod rule_tests;
#[cfg(test)]
mod run_tests;
#[cfg(test)]
mod search_tests;
mod size_command;
#[cfg(test)]
mod size_tests;
mod sizing;
mod status;
mod stopping;
mod top;
mod unfinished;
#[cfg(test)]
mod unit_tests;

pub use size_command::do_size;
pub use status::{Status, code};
pub use top::p4all;

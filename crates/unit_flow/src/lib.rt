//! The units of work of a program.
#![tactic(auto)]

mod body;
mod called;
mod header;
mod limit;
mod listing;
mod naming;
mod program;
mod summaries;
mod table_bits;

pub use limit::UnitError;
pub use program::units;

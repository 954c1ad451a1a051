//! The assume clauses and the utility of a program, as rows and terms with one coefficient a symbol, and step tables.
#![tactic(auto)]

mod building;
mod comparisons;
mod ones;
mod places;
mod sums;
mod tables;
mod worth;

pub use building::{rows_say_comparisons, terms};
pub use places::Places;
pub use worth::{holds, utility};

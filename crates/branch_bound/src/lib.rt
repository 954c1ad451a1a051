//! The search of an integer program's best point by boxes, with the tree of cases that shows it.
#![tactic(auto)]

mod boxes;
mod choosing;
mod columns;
mod deciding;
mod diving;
mod found;
mod guide;
mod line;
mod open;
mod ranges;
mod searching;
mod states;
mod table;
mod testing;

pub use found::Found;
pub use searching::search;

//! The tables of a program: which words spell one, and how these are read.
#![tactic(auto)]

mod entries;
mod properties;
mod reading;
mod sets;

pub use reading::table;
pub use sets::set;

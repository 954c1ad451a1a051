//! The best sizes and placement of a program on a target, by a search of its integer program.
#![tactic(auto)]

mod choosing;

pub use choosing::{Choice, Placed, choose};

//! The sizes and the placement that a point of the integer program of units gives.
#![tactic(auto)]

mod layout;

pub use layout::{Layout, place};

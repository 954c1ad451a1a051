//! Whether a state of a parser can reach itself: a depth-first search over the transitions of its states.
#![tactic(auto)]

mod graph;
mod search;

pub use search::loops;

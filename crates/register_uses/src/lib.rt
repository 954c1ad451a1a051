//! Which registers the units of work of a program name, and which of them more than once or never.
#![tactic(auto)]

mod actions;
mod program;
mod summary;
mod tables;
mod uses;
mod walk;

pub use program::RegisterUses;

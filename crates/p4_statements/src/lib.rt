//! The statements of a program: which words spell one, and how these are read.
#![tactic(auto)]

mod brackets;
mod calls;
mod plain;
mod simple;
mod statement;

pub use brackets::bracketed;
pub use plain::plain_statements;
pub use statement::statements;

//! What each declaration asks, over the scope before it.
#![tactic(auto)]

mod actions;
mod callers;
mod declarations;
mod locals;
mod match_tables;
mod named_parts;
mod parts;
mod pipelines;
mod refusal;
mod register_free;
mod states;

pub use declarations::check_declaration;
pub use refusal::Refusal;

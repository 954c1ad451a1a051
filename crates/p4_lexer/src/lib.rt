//! The tokens of an elastic P4-16 text.
#![tactic(auto)]

mod lexing;
mod numbers;
mod spacing;
mod tables;
mod token;
mod words;

pub use lexing::{lex, one_list_of_tokens};
pub use tables::{RESERVED, SIGNS};
pub use token::{Kind, LexError, Token};

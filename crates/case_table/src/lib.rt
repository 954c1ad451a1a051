//! Tables of words with their codes, as the reserved words and the signs of a language.
#![tactic(auto)]

mod rows;

pub use rows::{Case, distinct, find, munch, word_of};

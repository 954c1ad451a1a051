//! The spelling of texts: an algebra of grammars over words, a word being a token with its bytes, and a reader of tokens
//! whose contracts speak in it.
#![tactic(auto)]

mod brackets;
mod collecting;
mod error;
mod parts;
mod reader;

pub use brackets::{Brackets, in_brackets};
pub use collecting::keep;
pub use error::{Parsed, SyntaxError};
pub use parts::{End, commas, separated, then_sign, until, until_closed};
pub use reader::Reader;

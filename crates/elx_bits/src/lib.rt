//! The values that every crate of the compiler shares: lists that a tree may lead back through, and names.
#![tactic(auto)]

mod bits;
mod items;
mod name;

pub use bits::{Bits, hash};
pub use items::Items;
pub use name::Name;

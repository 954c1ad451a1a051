//! The text of certificates: a claim about the sizes of a program on a target, and the tree of cases that shows it.
#![tactic(auto)]

mod claim;
mod nodes;
mod writing;

pub use claim::{Claim, ClaimKind};
pub use writing::{put_certificate, write};

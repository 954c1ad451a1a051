//! The description of a target: how many stages a switch has, and what each stage offers.
#![tactic(auto)]

mod key_name;
mod reading;
mod target;

pub use key_name::KeyName;
pub use reading::{at_most_one_target, read};
pub use target::{Target, TargetError};

//! The bounds of sizes that the units of a program and a target give.
#![tactic(auto)]

mod cells;
mod certain;
mod counting;
mod excess;
mod finding;
mod gathering;
mod joining;
mod law;
mod loop_uses;
mod order_rows;
mod rules;
mod tally;
mod unit_bounds;

pub use counting::turns_at;
pub use law::{instances_are_counted, known_units_are_of_the_program, sizes_are_within_bounds};
pub use loop_uses::{LoopUse, uses_of_loops};
pub use unit_bounds::{BoundError, BoundList, What, bounds};

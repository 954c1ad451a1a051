//! The integer program of units on a target, and the laws that its points and the feasible sizes and placements agree.
#![tactic(auto)]

mod fitting;
mod instance_groups;
mod instance_numbers;
mod instance_rows;
mod laws;
mod listing;
mod modelling;
mod numbering;
mod order_rows;
mod parts;
mod size_groups;
mod size_rows;
mod step_keys;
mod tops;
mod use_rows;

pub use fitting::numbers_fit;
pub use laws::{best_points_are_best, points_and_feasible_pairs_agree, programs_are_in_limits};
pub use listing::{Candidate, candidates};
pub use modelling::model;
pub use numbering::{Numbering, numbers};

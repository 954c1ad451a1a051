//! What a program may be given on a target: the order of two instances of its units, what instances take of a stage and sizes of the
//! header, feasible sizes and placements, and the best of them.
#![tactic(auto)]

mod relation;
mod resource;

pub use relation::{Relation, order, order_at_indices};
pub use resource::Resource;

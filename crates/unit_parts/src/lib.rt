//! What units of work are made of: the pieces that the body of a control is cut into, and what each of them reads, may
//! assign and takes of a target, where it is known what it calls.
#![tactic(auto)]

mod assembly;
mod assigns;
mod callee;
mod copies;
mod cutting;
mod footprint;
mod operators;
mod pieces;
mod reads;
mod shape;
mod tasks;

pub use assembly::{Found, Needs, needs_of, unit_of};
pub use callee::{Callee, Summary, summary_of};
pub use cutting::cut_body;
pub use footprint::Footprint;
pub use pieces::{InLoop, Piece, Task};
pub use tasks::first_register;

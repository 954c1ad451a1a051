//! The names of a program's parts, and what stands under each.
#![tactic(auto)]

mod first_named;
mod local_names;
mod name_places;
mod names;
mod param_names;
mod state_names;

pub use first_named::enter;
pub use local_names::LocalNames;
pub use name_places::{NamePlaces, thing_named};
pub use names::{Names, name_of};
pub use param_names::ParamNames;
pub use state_names::StateNames;

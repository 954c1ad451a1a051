//! Whether sizes and a placement are feasible on a target, and what they use of it.
#![tactic(auto)]

mod checking;
mod conditions;
mod fault;
mod instances;
mod listing;
mod order;
mod overfull;
mod units;
mod uses;

pub use checking::{check, faults_exclude_feasible};
pub use conditions::{are_sizes_of, names_units};
pub use dep_graph::Resource;
pub use fault::PlaceFault;
pub use instances::list_instances;
pub use listing::listed_instances_stand;
pub use order::{Known, known_order};
pub use units::{best_units_alike, feasible_units_alike, infeasible_units_alike};
pub use uses::{StageUse, UseTable, report};

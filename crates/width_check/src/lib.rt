//! The rules of types.
#![tactic(auto)]

mod checking;
mod kinds;
mod walk;
mod whole;

pub use checking::{CheckError, Checked, TypeError, check, program, scope};
pub use elastic_ast::Rule;
pub use expr_types::Scope;

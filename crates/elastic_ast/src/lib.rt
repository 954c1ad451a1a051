//! The tree of an elastic program as its text spells it, and the flat forms that the compiler works on.
#![tactic(auto)]

mod chains;
mod declarations;
mod flat;
mod key_hash;
mod location_ref;
mod registers;
mod rule;
mod slot;
mod statements;
mod vector;

pub use chains::Chains;
pub use declarations::{
    Action, Comp, Decl, Entry, Field, Key, Keyset, LinTerm, Local, Next, Param, Program, Rel,
    State, Table, UtilTerm,
};
pub use flat::{
    At, Cells, Linear, Lit, Location, Out, Packet, Placement, Sizes, Steps, Terms, Unit, Units,
    Work,
};
pub use location_ref::{LocationRef, parts};
pub use registers::Registers;
pub use rule::Rule;
pub use statements::{Amount, Expr, Lval, RegRef, Stmt};
pub use vector::Vector;

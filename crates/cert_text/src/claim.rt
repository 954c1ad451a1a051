//! What a certificate claims.

use elastic_ast::Placement;
use elx_bits::{Items, Name};

/// What is claimed of a program on a target.
#[derive(Clone, Copy, Debug, PartialEq, Eq)]
pub enum ClaimKind {
    /// No sizes and placement have a greater utility than this.
    Best(i128),
    /// No sizes and placement are feasible.
    Infeasible,
    /// The search was cut off, and this is the best utility so far.
    Unfinished(Option<i128>),
}

/// A claim, with the size of each symbol and the placement where there is a utility.
#[derive(Drop)]
pub struct Claim {
    pub kind: ClaimKind,
    pub sizes: Items<(Name, u64)>,
    pub placement: Placement,
}

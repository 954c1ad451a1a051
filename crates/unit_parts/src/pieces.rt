//! The pieces of work that the body of a control is cut into.

use elastic_ast::{Expr, Lit, Stmt};
use elx_bits::Name;

/// What a piece does.
#[derive(Clone, Copy)]
pub enum Task<'a> {
    Plain(&'a Stmt),
    Call(&'a Stmt),
    Apply(&'a Name),
    Pred { number: u32, cond: &'a Expr },
}

/// The loop around a piece: its number, its index and its size.
#[derive(Clone, Copy)]
pub struct InLoop<'a> {
    pub number: u32,
    pub index: &'a Name,
    pub size: &'a Name,
}

/// A piece of work, with its tests, the loop around it, and the stage that the text gives it.
#[derive(Drop)]
pub struct Piece<'a> {
    pub lits: Vec<Lit>,
    pub conds: Vec<&'a Expr>,
    pub task: Task<'a>,
    pub stage: Option<u8>,
    pub around: Option<InLoop<'a>>,
}

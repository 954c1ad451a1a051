//! The flat forms: terms and units of a program, sizes and placements, packets and answers. A symbol's number is its
//! place among the symbols, in the order of declaration.

use crate::statements::{Expr, Stmt};
use elx_bits::{Items, Name};

/// What a unit may read or write. An `own` location is one element of an array, that of the unit's own index.
#[derive(Drop)]
pub enum Location {
    Header { header: Name, field: Name },
    Valid { header: Name },
    Meta { name: Name, own: bool },
    Std { name: Name },
    Pred { number: u32, own: bool },
    Reg { name: Name, own: bool },
}

/// A test of a predicate: whether it is on.
#[derive(Clone, Copy, Debug, PartialEq, Eq)]
pub struct Lit {
    pub number: u32,
    pub own: bool,
    pub on: bool,
}

/// What a unit does.
#[derive(Drop)]
pub enum Work {
    Plain(Stmt),
    Call(Stmt),
    Apply(Name),
    Pred { number: u32, cond: Expr },
}

/// How many cells a register has: a number, or the size of a symbol.
#[derive(Clone, Copy, Debug, PartialEq, Eq)]
pub enum Cells {
    Fixed(u32),
    Symbol(u32),
}

/// A unit of work, which stands in one stage.
#[derive(Drop)]
pub struct Unit {
    pub lits: Items<Lit>,
    pub conds: Items<Expr>,
    pub work: Work,
    pub loop_no: Option<u32>,
    pub size: Option<u32>,
    pub index: Option<Name>,
    pub stage: Option<u8>,
    pub reads: Items<Location>,
    pub writes: Items<Location>,
    pub cells: Option<Cells>,
    pub cell_width: u8,
    pub cost: u32,
    pub ops: u32,
    pub table_bits: u64,
    pub ternary_bits: u64,
}

/// A row: the sum of each coefficient times the size of its symbol is at most `most`. There is one coefficient a symbol.
#[derive(Drop)]
pub struct Linear {
    pub by: Items<i128>,
    pub most: i128,
}

/// A step table over a symbol: each key, and the value from that key on.
#[derive(Drop)]
pub struct Steps {
    pub minus: bool,
    pub symbol: u32,
    pub pairs: Items<(u64, u64)>,
}

/// What a program says of its sizes: the symbols, the rows of its comparisons, the symbols that are at least 1, and the
/// utility as a constant, one coefficient a symbol, and step tables.
#[derive(Drop)]
pub struct Terms {
    pub symbols: Items<Name>,
    pub rows: Items<Linear>,
    pub ones: Items<u32>,
    pub base: i128,
    pub by: Items<i128>,
    pub steps: Items<Steps>,
}

/// The units of a program in the order of the text, with its terms and the header bits that it takes.
#[derive(Drop)]
pub struct Units {
    pub terms: Terms,
    pub list: Items<Unit>,
    pub fixed_bits: u64,
    pub symbol_bits: Items<u64>,
}

/// One size per symbol, in the order of declaration.
#[derive(Drop)]
pub struct Sizes {
    pub values: Items<u64>,
}

/// The stage of one instance of a unit.
#[derive(Clone, Copy, Debug, PartialEq, Eq)]
pub struct At {
    pub unit: u32,
    pub index: u32,
    pub stage: u8,
}

/// The stage of each instance, in the order of the instances.
#[derive(Drop)]
pub struct Placement {
    pub at: Items<At>,
}

/// A packet, and the port at which it came in.
#[derive(Drop)]
pub struct Packet {
    pub port: u16,
    pub bytes: Items<u8>,
}

/// What became of a packet.
#[derive(Drop)]
pub enum Out {
    Sent { port: u16, bytes: Items<u8> },
    Dropped,
}

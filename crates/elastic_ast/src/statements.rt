//! Expressions and statements.

use elx_bits::{Items, Name};

/// A number, or the name of a symbol or an index that stands for one.
#[derive(Drop)]
pub enum Amount {
    Num(u32),
    Named(Name),
}

/// A place that a statement may assign to: a header's field, a metadata field or element, or a field of `std`.
#[derive(Drop)]
pub enum Lval {
    Header { header: Name, field: Name },
    Meta { name: Name, index: Option<Name> },
    Std(Name),
}

/// A register, or the register of an array at an index.
#[derive(Drop)]
pub struct RegRef {
    pub name: Name,
    pub index: Option<Name>,
}

/// An expression. An operator's code is its place in the table of operators.
#[derive(Drop)]
pub enum Expr {
    Num {
        width: Option<u8>,
        value: u128,
    },
    Bool(bool),
    Named(Name),
    Field(Lval),
    IsValid(Name),
    Unary {
        op: u16,
        of: Box<Expr>,
    },
    Binary {
        op: u16,
        left: Box<Expr>,
        right: Box<Expr>,
    },
    Cast {
        width: u8,
        of: Box<Expr>,
    },
    Slice {
        of: Box<Expr>,
        high: u8,
        low: u8,
    },
    Hash {
        k: Amount,
        of: Box<Expr>,
        modulus: Amount,
    },
}

/// A statement. A branch of an `if` is the list of its statements.
#[derive(Drop)]
pub enum Stmt {
    Block {
        stage: Option<u8>,
        body: Items<Stmt>,
    },
    If {
        cond: Expr,
        yes: Items<Stmt>,
        no: Option<Items<Stmt>>,
    },
    For {
        index: Name,
        size: Name,
        body: Items<Stmt>,
    },
    Assign {
        to: Lval,
        value: Expr,
    },
    Read {
        to: Lval,
        reg: RegRef,
        cell: Expr,
    },
    Write {
        reg: RegRef,
        cell: Expr,
        value: Expr,
    },
    Valid {
        header: Name,
        on: bool,
    },
    Call {
        action: Name,
        index: Option<Name>,
        args: Items<Expr>,
    },
    Apply(Name),
}

//! Declarations, and the program as the list of them.

use crate::statements::{Amount, Expr, Lval, Stmt};
use elx_bits::{Items, Name};

/// A field of a header or of the metadata, in bits. One with a size is an array of that symbol's size.
#[derive(Drop)]
pub struct Field {
    pub name: Name,
    pub width: u8,
    pub size: Option<Name>,
}

/// A parameter of an action, in bits.
#[derive(Drop)]
pub struct Param {
    pub name: Name,
    pub width: u8,
}

/// An action; one with an index is called from loops.
#[derive(Drop)]
pub struct Action {
    pub name: Name,
    pub index: Option<Name>,
    pub params: Items<Param>,
    pub body: Items<Stmt>,
}

/// What a key is compared with: one value, a value under a mask, or anything.
#[derive(Drop)]
pub enum Keyset {
    One(Expr),
    Masked { value: Expr, mask: Expr },
    Any,
}

/// A constant entry of a table.
#[derive(Drop)]
pub struct Entry {
    pub keys: Items<Keyset>,
    pub action: Name,
    pub args: Items<Expr>,
}

/// A key of a table.
#[derive(Drop)]
pub struct Key {
    pub field: Lval,
    pub ternary: bool,
}

/// A table with constant entries, its default action and its size, where it has these.
#[derive(Drop)]
pub struct Table {
    pub name: Name,
    pub keys: Items<Key>,
    pub actions: Items<Name>,
    pub entries: Items<Entry>,
    pub fallback: Option<(Name, Items<Expr>)>,
    pub size: Option<u32>,
}

/// What a control declares before its body.
#[derive(Drop)]
pub enum Local {
    Action(Action),
    Table(Table),
}

/// Where a parser's state goes.
#[derive(Drop)]
pub enum Next {
    To(Name),
    Select {
        of: Expr,
        cases: Items<(Keyset, Name)>,
    },
}

/// A state of the parser: the headers that it extracts, and where it goes.
#[derive(Drop)]
pub struct State {
    pub name: Name,
    pub extracts: Items<Name>,
    pub next: Next,
}

/// A term of a sum: a number, or a number of times a symbol. `minus` says that it is subtracted.
#[derive(Drop)]
pub struct LinTerm {
    pub minus: bool,
    pub by: u64,
    pub symbol: Option<Name>,
}

/// How the two sides of a comparison relate.
#[derive(Clone, Copy, Debug, PartialEq, Eq)]
pub enum Rel {
    Le,
    Lt,
    Ge,
    Gt,
    Eq,
}

/// A comparison of two sums.
#[derive(Drop)]
pub struct Comp {
    pub left: Items<LinTerm>,
    pub rel: Rel,
    pub right: Items<LinTerm>,
}

/// A term of the utility: linear, or steps over a symbol, each a key and the value from that key on.
#[derive(Drop)]
pub enum UtilTerm {
    Lin(LinTerm),
    Steps {
        minus: bool,
        symbol: Name,
        pairs: Items<(u64, u64)>,
    },
}

/// A declaration.
#[derive(Drop)]
pub enum Decl {
    Include(u8),
    Symbol(Name),
    Assume(Items<Comp>),
    Maximize(Items<UtilTerm>),
    Const {
        name: Name,
        width: u8,
        value: u128,
    },
    Header {
        name: Name,
        fields: Items<Field>,
    },
    Headers(Items<(Name, Name)>),
    Meta(Items<Field>),
    Register {
        name: Name,
        width: u8,
        cells: Amount,
        size: Option<Name>,
    },
    Parser {
        name: Name,
        states: Items<State>,
    },
    Control {
        name: Name,
        locals: Items<Local>,
        body: Items<Stmt>,
    },
    Deparser {
        name: Name,
        emits: Items<Name>,
    },
    Main {
        parser: Name,
        control: Name,
        deparser: Name,
    },
}

/// A program: its declarations in the order of the text.
#[derive(Drop)]
pub struct Program {
    pub decls: Items<Decl>,
}

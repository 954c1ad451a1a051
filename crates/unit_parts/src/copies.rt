//! Copies of what a program says, for the units that keep it.

ghost use Rattle.std.specs.Prelude.{◌≡◌, IfOk, map};
ghost use Rattle.std.specs.Box.{box_value};
ghost use Rattle.elastic_ast.specs.Seen.{seen_expr, seen_exprs, seen_stmt};
ghost use Rattle.elastic_ast.specs.Units.SeenUnits.{seen_work};
ghost use Rattle.elastic_ast.specs.Containers.LocationRefs.{seen_ref};
ghost use Rattle.unit_parts.specs.SeenPieces.{seen_conds, seen_task};

use crate::pieces::Task;
use elastic_ast::{Amount, Expr, Location, LocationRef, Lval, RegRef, Stmt, Work};
use elx_bits::{Items, Name};
use std::alloc::{AllocError, Global};

pub fn copy_name(alloc: Global, name: &Name) -> Result<Name, AllocError>
    ensures { IfOk result (λ copy. copy ≡ name.now) }
{
    Name::of(alloc, name.as_slice())
}

pub fn copy_index(alloc: Global, index: &Option<Name>) -> Result<Option<Name>, AllocError>
    ensures { IfOk result (λ copy. copy ≡ index.now) }
{
    match index {
        Some(name) => Ok(Some(copy_name(alloc, name)?)),
        None => Ok(None),
    }
}

fn copy_amount(alloc: Global, amount: &Amount) -> Result<Amount, AllocError>
    ensures { IfOk result (λ copy. copy ≡ amount.now) }
{
    match amount {
        Amount::Num(number) => Ok(Amount::Num(*number)),
        Amount::Named(name) => Ok(Amount::Named(copy_name(alloc, name)?)),
    }
}

fn copy_lval(alloc: Global, at: &Lval) -> Result<Lval, AllocError>
    ensures { IfOk result (λ copy. copy ≡ at.now) }
{
    match at {
        Lval::Header { header, field } => Ok(Lval::Header {
            header: copy_name(alloc, header)?,
            field: copy_name(alloc, field)?,
        }),
        Lval::Meta { name, index } => Ok(Lval::Meta {
            name: copy_name(alloc, name)?,
            index: copy_index(alloc, index)?,
        }),
        Lval::Std(name) => Ok(Lval::Std(copy_name(alloc, name)?)),
    }
}

fn copy_register(alloc: Global, register: &RegRef) -> Result<RegRef, AllocError>
    ensures { IfOk result (λ copy. copy ≡ register.now) }
{
    Ok(RegRef {
        name: copy_name(alloc, &register.name)?,
        index: copy_index(alloc, &register.index)?,
    })
}

/// A copy of an expression.
#[cycle(expressions)]
#[tactic(auto, using(elastic_ast::proofs::SeenLaws::seen))]
pub fn copy_expr(alloc: Global, expr: &Expr) -> Result<Expr, AllocError>
    ensures { IfOk result (λ copy. seen_expr copy ≡ seen_expr expr.now) }
{
    match expr {
        Expr::Num { width, value } => Ok(Expr::Num {
            width: *width,
            value: *value,
        }),
        Expr::Bool(truth) => Ok(Expr::Bool(*truth)),
        Expr::Named(name) => Ok(Expr::Named(copy_name(alloc, name)?)),
        Expr::Field(at) => Ok(Expr::Field(copy_lval(alloc, at)?)),
        Expr::IsValid(header) => Ok(Expr::IsValid(copy_name(alloc, header)?)),
        Expr::Unary { op, of } => {
            let of = copy_boxed(alloc, of)?;
            Ok(Expr::Unary { op: *op, of })
        }
        Expr::Binary { op, left, right } => {
            let left = copy_boxed(alloc, left)?;
            let right = copy_boxed(alloc, right)?;
            Ok(Expr::Binary {
                op: *op,
                left,
                right,
            })
        }
        Expr::Cast { width, of } => {
            let of = copy_boxed(alloc, of)?;
            Ok(Expr::Cast { width: *width, of })
        }
        Expr::Slice { of, high, low } => {
            let of = copy_boxed(alloc, of)?;
            Ok(Expr::Slice {
                of,
                high: *high,
                low: *low,
            })
        }
        Expr::Hash { k, of, modulus } => {
            let k = copy_amount(alloc, k)?;
            let of = copy_boxed(alloc, of)?;
            let modulus = copy_amount(alloc, modulus)?;
            Ok(Expr::Hash { k, of, modulus })
        }
    }
}

/// A copy of an expression, in a box.
#[cycle(expressions)]
fn copy_boxed(alloc: Global, expr: &Expr) -> Result<Box<Expr>, AllocError>
    ensures { IfOk result (λ copy. seen_expr (box_value copy) ≡ seen_expr expr.now) }
{
    let copy = copy_expr(alloc, expr)?;
    Ok(Box::new(alloc, copy)?)
}

/// Copies of expressions.
pub fn copy_exprs(alloc: Global, exprs: &[Expr]) -> Result<Items<Expr>, AllocError>
    ensures { IfOk result (λ copies. seen_exprs copies ≡ seen_exprs exprs.now) }
{
    let mut copies = Items::new(alloc);
    for expr in exprs {
        copies.push(copy_expr(alloc, expr)?)?;
    }
    Ok(copies)
}

/// Copies of conditions.
pub fn copy_conds(alloc: Global, conds: &[&Expr]) -> Result<Items<Expr>, AllocError>
    ensures { IfOk result (λ copies. seen_exprs copies ≡ seen_conds conds.now) }
{
    let mut copies = Items::new(alloc);
    for cond in conds {
        copies.push(copy_expr(alloc, cond)?)?;
    }
    Ok(copies)
}

/// A location with its names.
pub fn own_location(alloc: Global, at: LocationRef<'_>) -> Result<Location, AllocError>
    ensures { IfOk result (λ location. location ≡ seen_ref at.entry) }
{
    match at {
        LocationRef::Header { header, field } => Ok(Location::Header {
            header: copy_name(alloc, header)?,
            field: copy_name(alloc, field)?,
        }),
        LocationRef::Valid { header } => Ok(Location::Valid {
            header: copy_name(alloc, header)?,
        }),
        LocationRef::Meta { name, own } => Ok(Location::Meta {
            name: copy_name(alloc, name)?,
            own,
        }),
        LocationRef::Std { name } => Ok(Location::Std {
            name: copy_name(alloc, name)?,
        }),
        LocationRef::Pred { number, own } => Ok(Location::Pred { number, own }),
        LocationRef::Reg { name, own } => Ok(Location::Reg {
            name: copy_name(alloc, name)?,
            own,
        }),
    }
}

/// Locations with their names.
pub fn own_locations(
    alloc: Global,
    locations: &[LocationRef<'_>],
) -> Result<Items<Location>, AllocError>
    ensures { IfOk result (λ owned. owned ≡ map seen_ref locations.now) }
{
    let mut owned = Items::new(alloc);
    for at in locations {
        owned.push(own_location(alloc, *at)?)?;
    }
    Ok(owned)
}

/// A copy of a statement.
#[cycle(copies)]
#[tactic(auto, using(elastic_ast::proofs::SeenLaws::seen))]
fn copy_stmt(alloc: Global, stmt: &Stmt) -> Result<Stmt, AllocError>
    ensures { IfOk result (λ copy. seen_stmt copy ≡ seen_stmt stmt.now) }
{
    match stmt {
        Stmt::Block { stage, body } => Ok(Stmt::Block {
            stage: *stage,
            body: copy_stmts(alloc, body.as_slice())?,
        }),
        Stmt::If { cond, yes, no } => Ok(Stmt::If {
            cond: copy_expr(alloc, cond)?,
            yes: copy_stmts(alloc, yes.as_slice())?,
            no: match no {
                None => None,
                Some(no) => Some(copy_stmts(alloc, no.as_slice())?),
            },
        }),
        Stmt::For { index, size, body } => Ok(Stmt::For {
            index: copy_name(alloc, index)?,
            size: copy_name(alloc, size)?,
            body: copy_stmts(alloc, body.as_slice())?,
        }),
        Stmt::Assign { to, value } => Ok(Stmt::Assign {
            to: copy_lval(alloc, to)?,
            value: copy_expr(alloc, value)?,
        }),
        Stmt::Read { to, reg, cell } => Ok(Stmt::Read {
            to: copy_lval(alloc, to)?,
            reg: copy_register(alloc, reg)?,
            cell: copy_expr(alloc, cell)?,
        }),
        Stmt::Write { reg, cell, value } => Ok(Stmt::Write {
            reg: copy_register(alloc, reg)?,
            cell: copy_expr(alloc, cell)?,
            value: copy_expr(alloc, value)?,
        }),
        Stmt::Valid { header, on } => Ok(Stmt::Valid {
            header: copy_name(alloc, header)?,
            on: *on,
        }),
        Stmt::Call {
            action,
            index,
            args,
        } => Ok(Stmt::Call {
            action: copy_name(alloc, action)?,
            index: copy_index(alloc, index)?,
            args: copy_exprs(alloc, args.as_slice())?,
        }),
        Stmt::Apply(table) => Ok(Stmt::Apply(copy_name(alloc, table)?)),
    }
}

/// Copies of statements.
#[cycle(copies)]
fn copy_stmts(alloc: Global, stmts: &[Stmt]) -> Result<Items<Stmt>, AllocError>
    ensures { IfOk result (λ copies. map seen_stmt copies ≡ map seen_stmt stmts.now) }
{
    let mut copies = Items::new(alloc);
    for stmt in stmts {
        copies.push(copy_stmt(alloc, stmt)?)?;
    }
    Ok(copies)
}

/// What a piece does, with the text of it.
pub fn own_work(alloc: Global, task: Task<'_>) -> Result<Work, AllocError>
    ensures { IfOk result (λ work. seen_work work ≡ seen_task task.entry) }
{
    match task {
        Task::Plain(stmt) => Ok(Work::Plain(copy_stmt(alloc, stmt)?)),
        Task::Call(stmt) => Ok(Work::Call(copy_stmt(alloc, stmt)?)),
        Task::Apply(table) => Ok(Work::Apply(copy_name(alloc, table)?)),
        Task::Pred { number, cond } => Ok(Work::Pred {
            number,
            cond: copy_expr(alloc, cond)?,
        }),
    }
}

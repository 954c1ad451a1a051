//! What expressions and statements read.

ghost use Rattle.std.specs.Prelude.{◌≡◌, OnOk, map};
ghost use Rattle.elastic_ast.specs.Seen.{seen_expr, seen_exprs, seen_stmt, seen_stmts, seen_keyset, seen_entry};
ghost use Rattle.elastic_ast.specs.Containers.LocationRefs.{seen_ref};
ghost use Rattle.elastic_ast.specs.Units.Reach.{location_of as location_of_lval, register_location as location_of_register, expr_reads, exprs_read, plain_reads, body_reads, set_reads, sets_read, entries_read, keys_read};
ghost use Rattle.unit_parts.specs.Gathered.{Adds, entry_reads};

use crate::footprint::Footprint;
use elastic_ast::{Entry, Expr, Key, Keyset, LocationRef, Lval, RegRef, Stmt};
use std::alloc::AllocError;

/// What an assignment or an expression names.
pub fn location_of<'a>(at: &'a Lval) -> LocationRef<'a>
    ensures { seen_ref result ≡ location_of_lval at.now }
{
    match at {
        Lval::Header { header, field } => LocationRef::Header { header, field },
        Lval::Meta { name, index } => LocationRef::Meta {
            name,
            own: index.is_some(),
        },
        Lval::Std(name) => LocationRef::Std { name },
    }
}

/// The location of a register.
pub fn register_location<'a>(register: &'a RegRef) -> LocationRef<'a>
    ensures { seen_ref result ≡ location_of_register register.now }
{
    LocationRef::Reg {
        name: &register.name,
        own: register.index.is_some(),
    }
}

/// Adds what an expression reads.
#[tactic(auto, using(elastic_ast::proofs::SeenLaws::seen, crate::proofs::GatheredLaws::gathered))]
pub fn add_expr<'a>(reads: &mut Footprint<'a>, expr: &'a Expr) -> Result<(), AllocError>
    ensures { OnOk result (Adds reads.old reads.new (expr_reads (seen_expr expr.now))) }
{
    match expr {
        Expr::Num { .. } | Expr::Bool(_) | Expr::Named(_) => Ok(()),
        Expr::Field(at) => reads.add(location_of(at)),
        Expr::IsValid(header) => reads.add(LocationRef::Valid { header }),
        Expr::Unary { of, .. }
        | Expr::Cast { of, .. }
        | Expr::Slice { of, .. }
        | Expr::Hash { of, .. } => add_expr(reads, of),
        Expr::Binary { left, right, .. } => {
            add_expr(reads, left)?;
            add_expr(reads, right)
        }
    }
}

/// Adds what expressions read.
#[tactic(auto, using(crate::proofs::GatheredLaws::gathered))]
pub fn add_exprs<'a>(reads: &mut Footprint<'a>, exprs: &'a [Expr]) -> Result<(), AllocError>
    ensures { OnOk result (Adds reads.old reads.new (exprs_read (seen_exprs exprs.now))) }
{
    for expr in exprs {
        add_expr(reads, expr)?;
    }
    Ok(())
}

/// Adds what a statement reads that stands in the body of an action.
#[tactic(auto, using(elastic_ast::proofs::SeenLaws::seen, crate::proofs::GatheredLaws::gathered))]
pub fn add_plain<'a>(reads: &mut Footprint<'a>, stmt: &'a Stmt) -> Result<(), AllocError>
    ensures { OnOk result (Adds reads.old reads.new (plain_reads (seen_stmt stmt.now))) }
{
    match stmt {
        Stmt::Assign { value, .. } => add_expr(reads, value),
        Stmt::Read { reg, cell, .. } => {
            add_expr(reads, cell)?;
            reads.add(register_location(reg))
        }
        Stmt::Write { reg, cell, value } => {
            add_expr(reads, cell)?;
            add_expr(reads, value)?;
            reads.add(register_location(reg))
        }
        Stmt::Block { .. }
        | Stmt::If { no: None, .. }
        | Stmt::If { no: Some(_), .. }
        | Stmt::For { .. }
        | Stmt::Valid { .. }
        | Stmt::Call { .. }
        | Stmt::Apply(_) => Ok(()),
    }
}

/// Adds what the body of an action reads.
#[tactic(auto, using(crate::proofs::GatheredLaws::gathered))]
pub fn add_body<'a>(reads: &mut Footprint<'a>, body: &'a [Stmt]) -> Result<(), AllocError>
    ensures { OnOk result (Adds reads.old reads.new (body_reads (seen_stmts body.now))) }
{
    for stmt in body {
        add_plain(reads, stmt)?;
    }
    Ok(())
}

/// Adds what a set of a key reads.
#[tactic(auto, using(crate::proofs::GatheredLaws::gathered))]
fn add_set<'a>(reads: &mut Footprint<'a>, set: &'a Keyset) -> Result<(), AllocError>
    ensures { OnOk result (Adds reads.old reads.new (set_reads (seen_keyset set.now))) }
{
    match set {
        Keyset::One(value) => add_expr(reads, value),
        Keyset::Masked { value, mask } => {
            add_expr(reads, value)?;
            add_expr(reads, mask)
        }
        Keyset::Any => Ok(()),
    }
}

#[tactic(auto, using(crate::proofs::GatheredLaws::gathered))]
fn add_sets<'a>(reads: &mut Footprint<'a>, sets: &'a [Keyset]) -> Result<(), AllocError>
    ensures { OnOk result (Adds reads.old reads.new (sets_read (map seen_keyset sets.now))) }
{
    for set in sets {
        add_set(reads, set)?;
    }
    Ok(())
}

/// Adds what an entry of a table reads.
#[tactic(auto, using(crate::proofs::GatheredLaws::gathered))]
fn add_entry<'a>(reads: &mut Footprint<'a>, entry: &'a Entry) -> Result<(), AllocError>
    ensures { OnOk result (Adds reads.old reads.new (entry_reads (seen_entry entry.now))) }
{
    add_sets(reads, entry.keys.as_slice())?;
    add_exprs(reads, entry.args.as_slice())
}

#[tactic(auto, using(crate::proofs::GatheredLaws::gathered))]
pub fn add_entries<'a>(reads: &mut Footprint<'a>, entries: &'a [Entry]) -> Result<(), AllocError>
    ensures { OnOk result (Adds reads.old reads.new (entries_read (map seen_entry entries.now))) }
{
    for entry in entries {
        add_entry(reads, entry)?;
    }
    Ok(())
}

/// Adds the fields of the keys of a table.
#[tactic(auto, using(crate::proofs::GatheredLaws::gathered))]
pub fn add_keys<'a>(reads: &mut Footprint<'a>, keys: &'a [Key]) -> Result<(), AllocError>
    ensures { OnOk result (Adds reads.old reads.new (keys_read keys.now)) }
{
    for key in keys {
        reads.add(location_of(&key.field))?;
    }
    Ok(())
}

//! What statements may assign.

ghost use Rattle.std.specs.Prelude.{◌≡◌, OnOk};
ghost use Rattle.elastic_ast.specs.Seen.{seen_stmt, seen_stmts};
ghost use Rattle.elastic_ast.specs.Units.Reach.{plain_assigns, body_assigns};
ghost use Rattle.unit_parts.specs.Gathered.{Adds};

use crate::footprint::Footprint;
use crate::reads::{location_of, register_location};
use elastic_ast::{LocationRef, Stmt};
use std::alloc::AllocError;

/// Adds what a statement may assign that stands in the body of an action.
#[tactic(auto, using(elastic_ast::proofs::SeenLaws::seen, crate::proofs::GatheredLaws::gathered))]
pub fn add_plain<'a>(writes: &mut Footprint<'a>, stmt: &'a Stmt) -> Result<(), AllocError>
    ensures { OnOk result (Adds writes.old writes.new (plain_assigns (seen_stmt stmt.now))) }
{
    match stmt {
        Stmt::Assign { to, .. } => writes.add(location_of(to)),
        Stmt::Read { to, reg, .. } => {
            writes.add(location_of(to))?;
            writes.add(register_location(reg))
        }
        Stmt::Write { reg, .. } => writes.add(register_location(reg)),
        Stmt::Valid { header, .. } => writes.add(LocationRef::Valid { header }),
        Stmt::Block { .. }
        | Stmt::If { no: None, .. }
        | Stmt::If { no: Some(_), .. }
        | Stmt::For { .. }
        | Stmt::Call { .. }
        | Stmt::Apply(_) => Ok(()),
    }
}

/// Adds what the body of an action may assign.
#[tactic(auto, using(crate::proofs::GatheredLaws::gathered))]
pub fn add_body<'a>(writes: &mut Footprint<'a>, body: &'a [Stmt]) -> Result<(), AllocError>
    ensures { OnOk result (Adds writes.old writes.new (body_assigns (seen_stmts body.now))) }
{
    for stmt in body {
        add_plain(writes, stmt)?;
    }
    Ok(())
}

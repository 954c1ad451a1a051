//! What a piece of work calls: an action, or a table with its actions.

ghost use Rattle.std.specs.Prelude.{◌≡◌, OnOk, IfOk};
ghost use Rattle.elastic_ast.specs.Seen.{seen_exprs};
ghost use Rattle.elastic_ast.specs.Units.Reach.{action_reads, action_assigns, fallback_reads};
ghost use Rattle.elastic_ast.specs.Units.Costs.{action_ops};
ghost use Rattle.unit_parts.specs.Capped.{capped};
ghost use Rattle.unit_parts.specs.Gathered.{Adds};
ghost use Rattle.unit_parts.specs.Summaries.{IsSummary};
ghost use Rattle.expr_types.specs.ProgramParts.{action_shown, table_shown};
ghost use Rattle.unit_parts.specs.Called.{actions_shown, callee_table, callee_actions, seen_fallback, tabled_reads, bodies_read, callee_reads, callee_assigns, greatest_ops};

use crate::assigns;
use crate::footprint::Footprint;
use crate::operators::body_operators;
use crate::reads::{add_body, add_entries, add_exprs, add_keys};
use elastic_ast::{Action, Expr, Table};
use elx_bits::{Items, Name};
use std::alloc::{AllocError, Global};

/// The table that a piece applies, and the actions that it may run, each if it is declared.
#[derive(Drop)]
pub struct Callee<'a> {
    pub table: Option<&'a Table>,
    pub actions: Vec<Option<&'a Action>>,
}

/// What is read by what a piece calls, what it may assign, each location once, and how many operators it has at most.
#[derive(Drop)]
pub struct Summary<'a> {
    pub reads: Footprint<'a>,
    pub writes: Footprint<'a>,
    pub ops: u32,
}

/// Adds what an action reads.
fn add_action<'a>(reads: &mut Footprint<'a>, action: Option<&'a Action>) -> Result<(), AllocError>
    ensures { OnOk result (Adds reads.old reads.new (action_reads (action_shown action.entry))) }
{
    match action {
        Some(action) => add_body(reads, action.body.as_slice()),
        None => Ok(()),
    }
}

/// Adds what actions read.
fn add_actions<'a>(
    reads: &mut Footprint<'a>,
    actions: &[Option<&'a Action>],
) -> Result<(), AllocError>
    ensures { OnOk result (Adds reads.old reads.new (bodies_read (actions_shown actions.now))) }
{
    for action in actions {
        add_action(reads, *action)?;
    }
    Ok(())
}

/// Adds what a default action reads.
fn add_fallback<'a>(
    reads: &mut Footprint<'a>,
    fallback: &'a Option<(Name, Items<Expr>)>,
) -> Result<(), AllocError>
    ensures { OnOk result (Adds reads.old reads.new (fallback_reads (seen_fallback fallback.now))) }
{
    match fallback {
        Some(fallback) => add_exprs(reads, fallback.1.as_slice()),
        None => Ok(()),
    }
}

/// Adds what a table reads, its actions aside.
#[tactic(auto, using(crate::proofs::GatheredLaws::gathered))]
fn add_table<'a>(reads: &mut Footprint<'a>, table: Option<&'a Table>) -> Result<(), AllocError>
    ensures { OnOk result (Adds reads.old reads.new (tabled_reads (table_shown table.entry))) }
{
    match table {
        Some(table) => {
            add_keys(reads, table.keys.as_slice())?;
            add_entries(reads, table.entries.as_slice())?;
            add_fallback(reads, &table.fallback)
        }
        None => Ok(()),
    }
}

/// Adds what is read by what a piece calls.
#[tactic(auto, using(crate::proofs::GatheredLaws::gathered))]
fn add_callee<'a>(reads: &mut Footprint<'a>, callee: &Callee<'a>) -> Result<(), AllocError>
    ensures { OnOk result (Adds reads.old reads.new
        (callee_reads (callee_table callee.now) (callee_actions callee.now))) }
{
    add_table(reads, callee.table)?;
    add_actions(reads, callee.actions.as_slice())
}

/// Adds what an action may assign.
fn add_assigns<'a>(writes: &mut Footprint<'a>, action: Option<&'a Action>) -> Result<(), AllocError>
    ensures { OnOk result (Adds writes.old writes.new (action_assigns (action_shown action.entry))) }
{
    match action {
        Some(action) => assigns::add_body(writes, action.body.as_slice()),
        None => Ok(()),
    }
}

/// Adds what actions may assign.
fn add_all_assigns<'a>(
    writes: &mut Footprint<'a>,
    actions: &[Option<&'a Action>],
) -> Result<(), AllocError>
    ensures { OnOk result (Adds writes.old writes.new (callee_assigns (actions_shown actions.now))) }
{
    for action in actions {
        add_assigns(writes, *action)?;
    }
    Ok(())
}

/// Adds what may be assigned by what a piece calls.
fn add_callee_assigns<'a>(writes: &mut Footprint<'a>, callee: &Callee<'a>) -> Result<(), AllocError>
    ensures { OnOk result (Adds writes.old writes.new (callee_assigns (callee_actions callee.now))) }
{
    add_all_assigns(writes, callee.actions.as_slice())
}

/// How many operators an action has.
fn action_operators(action: Option<&Action>) -> u32
    ensures { result ≡ capped (action_ops (action_shown action.entry)) }
{
    match action {
        Some(action) => body_operators(action.body.as_slice()),
        None => 0,
    }
}

/// How many operators the action has that has the most.
fn most_operators(actions: &[Option<&Action>]) -> u32
    ensures { result ≡ capped (greatest_ops (actions_shown actions.now)) }
{
    let mut most = 0;
    for action in actions {
        most = action_operators(*action).max(most);
    }
    most
}

/// How many operators there are at most in what a piece calls.
fn callee_operators(callee: &Callee<'_>) -> u32
    ensures { result ≡ capped (greatest_ops (callee_actions callee.now)) }
{
    most_operators(callee.actions.as_slice())
}

/// The summary of what a piece calls. Actions and tables that several pieces call want one each.
#[tactic(auto, using(crate::proofs::GatheredLaws::gathered_once))]
pub fn summary_of<'a>(alloc: Global, callee: &Callee<'a>) -> Result<Summary<'a>, AllocError>
    ensures { IfOk result (IsSummary (callee_table callee.now) (callee_actions callee.now)) }
{
    let mut reads = Footprint::new(alloc);
    add_callee(&mut reads, callee)?;
    let mut writes = Footprint::new(alloc);
    add_callee_assigns(&mut writes, callee)?;
    Ok(Summary {
        reads,
        writes,
        ops: callee_operators(callee),
    })
}

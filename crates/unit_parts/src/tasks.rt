//! What a piece of work reads, may assign and takes of operators, where it is known what it calls.

ghost use Rattle.std.specs.Prelude.{◌≡◌, ◌+◌, ◌-◌, ◌++◌, IfOk, OnOk, length, map, sum_by, is_some};
ghost use Rattle.std.specs.Option.{option_copied};
ghost use Rattle.elastic_ast.specs.Containers.LocationRefs.{seen_ref};
ghost use Rattle.elastic_ast.specs.Seen.{seen_stmt};
ghost use Rattle.elastic_ast.specs.Typing.Scope.{found};
ghost use Rattle.elastic_ast.specs.Units.Reach.{lits_read, exprs_read, each_once};
ghost use Rattle.elastic_ast.specs.Units.Costs.{exprs_ops, guard_ops, stateless_units, cost_of, register_of};
ghost use Rattle.unit_parts.specs.Capped.{capped};
ghost use Rattle.unit_parts.specs.Gathered.{Adds};
ghost use Rattle.unit_parts.specs.SeenPieces.{seen_task, seen_conds, seen_piece};
ghost use Rattle.unit_parts.specs.Called.{leaf_own_reads, leaf_own_ops, own_reads, own_assigns, own_ops, reads_with, writes_with, ops_with};

use crate::assigns;
use crate::callee::Summary;
use crate::footprint::Footprint;
use crate::operators::{capped_sum, operators, operators_of_all, plain_operators};
use crate::pieces::{Piece, Task};
use crate::reads::{add_expr, add_exprs, add_plain};
use elastic_ast::{Expr, Lit, LocationRef, Stmt};
use elx_bits::Name;
use std::alloc::{AllocError, Global};

/// More of a count than this doesn't matter.
const MANY: usize = 0x1_0000_0000;

/// Adds locations.
#[tactic(auto, using(crate::proofs::GatheredLaws::gathered))]
fn add_all<'a>(found: &mut Footprint<'a>, locations: &[LocationRef<'a>]) -> Result<(), AllocError>
    ensures { OnOk result (Adds found.old found.new (map seen_ref locations.now)) }
{
    for at in locations {
        found.add(*at)?;
    }
    Ok(())
}

/// Adds the predicates that literals test.
#[tactic(auto, using(crate::proofs::GatheredLaws::gathered))]
fn add_lits<'a>(reads: &mut Footprint<'a>, lits: &[Lit]) -> Result<(), AllocError>
    ensures { OnOk result (Adds reads.old reads.new (lits_read lits.now)) }
{
    for lit in lits {
        reads.add(LocationRef::Pred {
            number: lit.number,
            own: lit.own,
        })?;
    }
    Ok(())
}

/// Adds what conditions read.
fn add_conds<'a>(reads: &mut Footprint<'a>, conds: &[&'a Expr]) -> Result<(), AllocError>
    ensures { OnOk result (Adds reads.old reads.new (exprs_read (seen_conds conds.now))) }
{
    for cond in conds {
        add_expr(reads, cond)?;
    }
    Ok(())
}

/// Adds what a statement reads by itself.
#[tactic(auto, using(elastic_ast::proofs::SeenLaws::seen))]
fn add_leaf<'a>(reads: &mut Footprint<'a>, stmt: &'a Stmt) -> Result<(), AllocError>
    ensures { OnOk result (Adds reads.old reads.new (leaf_own_reads (seen_stmt stmt.now))) }
{
    match stmt {
        Stmt::Call { args, .. } => add_exprs(reads, args.as_slice()),
        Stmt::Block { .. }
        | Stmt::If { no: None, .. }
        | Stmt::If { no: Some(_), .. }
        | Stmt::For { .. }
        | Stmt::Assign { .. }
        | Stmt::Read { .. }
        | Stmt::Write { .. }
        | Stmt::Valid { .. }
        | Stmt::Apply(_) => add_plain(reads, stmt),
    }
}

/// Adds what a piece reads by itself.
fn add_task<'a>(reads: &mut Footprint<'a>, task: Task<'a>) -> Result<(), AllocError>
    ensures { OnOk result (Adds reads.old reads.new (own_reads (seen_task task.entry))) }
{
    match task {
        Task::Plain(stmt) => add_leaf(reads, stmt),
        Task::Call(stmt) => add_leaf(reads, stmt),
        Task::Apply(_) => Ok(()),
        Task::Pred { cond, .. } => add_expr(reads, cond),
    }
}

/// What the tests and the work of a piece read.
#[tactic(auto, using(crate::proofs::GatheredLaws::gathered, crate::proofs::GatheredLaws::gathered_once))]
pub fn reads_of<'a>(
    alloc: Global,
    piece: &Piece<'a>,
    callee: &Summary<'a>,
) -> Result<Footprint<'a>, AllocError>
    ensures { IfOk result (λ reads. reads ≡ reads_with (seen_piece piece.now) callee.now.reads) }
{
    let mut reads = Footprint::new(alloc);
    add_lits(&mut reads, piece.lits.as_slice())?;
    add_conds(&mut reads, piece.conds.as_slice())?;
    add_task(&mut reads, piece.task)?;
    add_all(&mut reads, callee.reads.locations())?;
    Ok(reads)
}

/// Adds what a piece may assign by itself.
fn add_assigned<'a>(writes: &mut Footprint<'a>, own: bool, task: Task<'a>) -> Result<(), AllocError>
    ensures { OnOk result (Adds writes.old writes.new (own_assigns own (seen_task task.entry))) }
{
    match task {
        Task::Plain(stmt) => assigns::add_plain(writes, stmt),
        Task::Call(stmt) => assigns::add_plain(writes, stmt),
        Task::Apply(_) => Ok(()),
        Task::Pred { number, .. } => writes.add(LocationRef::Pred { number, own }),
    }
}

/// What a piece may assign.
#[tactic(auto, using(crate::proofs::GatheredLaws::gathered, crate::proofs::GatheredLaws::gathered_once))]
pub fn writes_of<'a>(
    alloc: Global,
    piece: &Piece<'a>,
    callee: &Summary<'a>,
) -> Result<Footprint<'a>, AllocError>
    ensures { IfOk result (λ writes. writes ≡
        writes_with (is_some piece.now.around) (seen_task piece.now.task) callee.now.writes) }
{
    let mut writes = Footprint::new(alloc);
    add_assigned(&mut writes, piece.around.is_some(), piece.task)?;
    add_all(&mut writes, callee.writes.locations())?;
    Ok(writes)
}

/// How many operators a statement has by itself.
#[tactic(auto, using(elastic_ast::proofs::SeenLaws::seen))]
fn leaf_operators(stmt: &Stmt) -> u32
    ensures { result ≡ capped (leaf_own_ops (seen_stmt stmt.now)) }
{
    match stmt {
        Stmt::Call { args, .. } => operators_of_all(args.as_slice()),
        Stmt::Block { .. }
        | Stmt::If { no: None, .. }
        | Stmt::If { no: Some(_), .. }
        | Stmt::For { .. }
        | Stmt::Assign { .. }
        | Stmt::Read { .. }
        | Stmt::Write { .. }
        | Stmt::Valid { .. }
        | Stmt::Apply(_) => plain_operators(stmt),
    }
}

/// How many operators a piece has by itself. A condition that is kept is cast to one bit.
#[tactic(auto, using(crate::proofs::CappedLaws::caps))]
fn task_operators(task: Task<'_>) -> u32
    ensures { result ≡ capped (own_ops (seen_task task.entry)) }
{
    match task {
        Task::Plain(stmt) => leaf_operators(stmt),
        Task::Call(stmt) => leaf_operators(stmt),
        Task::Apply(_) => 0,
        Task::Pred { cond, .. } => capped_sum(1, operators(cond)),
    }
}

/// How many operators conditions have together.
fn conds_operators(conds: &[&Expr]) -> u32
    ensures { result ≡ capped (exprs_ops (seen_conds conds.now)) }
{
    let mut sum = 0;
    for cond in conds {
        sum = capped_sum(sum, operators(cond));
    }
    sum
}

/// A number of things.
fn capped_count(count: usize) -> u32
    ensures { result ≡ capped count }
{
    count.min(MANY - 1) as u32
}

/// How many signs stand between tests that are put together.
fn signs_between(lits: usize, conds: usize) -> u32
    ensures { result ≡ capped (lits + conds - 1) }
{
    let tests = lits.min(MANY) + conds.min(MANY);
    capped_count(tests.saturating_sub(1))
}

/// How many operators the tests of a piece have, put together.
#[tactic(auto, using(crate::proofs::CappedLaws::caps))]
fn guard_operators(lits: &[Lit], conds: &[&Expr]) -> u32
    ensures { result ≡ capped (guard_ops lits.now (seen_conds conds.now)) }
{
    let tests = capped_sum(capped_count(lits.len()), conds_operators(conds));
    capped_sum(tests, signs_between(lits.len(), conds.len()))
}

/// How many operators a piece has.
#[tactic(auto, using(crate::proofs::CappedLaws::caps))]
pub fn operators_of(piece: &Piece<'_>, callee: &Summary<'_>) -> u32
    ensures { result ≡ capped (ops_with (seen_piece piece.now) callee.now.ops) }
{
    let guard = guard_operators(piece.lits.as_slice(), piece.conds.as_slice());
    let work = capped_sum(task_operators(piece.task), callee.ops);
    capped_sum(guard, work)
}

/// The stateless unit of a location: none for a register.
fn stateless(at: LocationRef<'_>) -> u32
    ensures { result ≡ stateless_units (seen_ref at.entry) }
{
    match at {
        LocationRef::Reg { .. } => 0,
        LocationRef::Header { .. }
        | LocationRef::Valid { .. }
        | LocationRef::Meta { .. }
        | LocationRef::Std { .. }
        | LocationRef::Pred { .. } => 1,
    }
}

/// How many locations are no registers.
fn count_stateless(writes: &[LocationRef<'_>]) -> u32
    ensures { result ≡ capped (sum_by stateless_units (map seen_ref writes.now)) }
{
    let mut sum = 0;
    for at in writes {
        sum = capped_sum(sum, stateless(*at));
    }
    sum
}

/// How many stateless units what may be assigned takes: 1 at least.
pub fn cost(writes: &[LocationRef<'_>]) -> u32
    ensures { result ≡ capped (cost_of (map seen_ref writes.now)) }
{
    count_stateless(writes).max(1)
}

/// The name of a register.
fn register_named<'a>(at: LocationRef<'a>) -> Option<&'a Name>
    ensures { option_copied result ≡ register_of (seen_ref at.entry) }
{
    match at {
        LocationRef::Reg { name, .. } => Some(name),
        LocationRef::Header { .. }
        | LocationRef::Valid { .. }
        | LocationRef::Meta { .. }
        | LocationRef::Std { .. }
        | LocationRef::Pred { .. } => None,
    }
}

/// The first register among locations.
pub fn first_register<'a>(writes: &[LocationRef<'a>]) -> Option<&'a Name>
    ensures { option_copied result ≡ found register_of (map seen_ref writes.now) }
{
    for at in writes {
        if let Some(name) = register_named(*at) {
            return Some(name);
        }
    }
    None
}

//! What pieces of work call, by the names of the program.

ghost use Rattle.std.specs.Prelude.{◌≡◌, List, IfOk};
ghost use Rattle.elastic_ast.specs.Tree.{PlainDecl};
ghost use Rattle.elastic_ast.specs.Seen.{seen_stmt};
ghost use Rattle.expr_types.specs.Scoped.{before_of};
ghost use Rattle.unit_parts.specs.Called.{leaf_called, called as called_by, OfAction, OfTable, Nothing};
ghost use Rattle.unit_parts.specs.SeenPieces.{seen_task};
ghost use Rattle.unit_flow.specs.Callees.{AreActions, AreActionsOf, IsCallee, IsSummaryOf, seen_call};

use elastic_ast::{Action, Stmt, Table};
use elx_bits::Name;
use expr_types::Scope;
use std::alloc::{AllocError, Global};
use unit_parts::{Callee, Summary, Task, summary_of};

/// The action or the table that a piece calls.
#[derive(Clone, Copy)]
pub enum Call<'a> {
    Nothing,
    Action(&'a Name),
    Table(&'a Name),
}

/// What a statement calls.
#[tactic(auto, using(elastic_ast::proofs::SeenLaws::seen))]
fn call_of_leaf<'a>(stmt: &'a Stmt) -> Call<'a>
    ensures { seen_call result ≡ leaf_called (seen_stmt stmt.now) }
{
    match stmt {
        Stmt::Call { action, .. } => Call::Action(action),
        Stmt::Apply(table) => Call::Table(table),
        Stmt::Block { .. }
        | Stmt::If { no: None, .. }
        | Stmt::If { no: Some(_), .. }
        | Stmt::For { .. }
        | Stmt::Assign { .. }
        | Stmt::Read { .. }
        | Stmt::Write { .. }
        | Stmt::Valid { .. } => Call::Nothing,
    }
}

/// What a piece calls.
pub fn call_of<'a>(task: Task<'a>) -> Call<'a>
    ensures { seen_call result ≡ called_by (seen_task task.entry) }
{
    match task {
        Task::Plain(stmt) => call_of_leaf(stmt),
        Task::Call(stmt) => call_of_leaf(stmt),
        Task::Apply(table) => Call::Table(table),
        Task::Pred { .. } => Call::Nothing,
    }
}

/// The actions of some names.
fn actions_named<'a>(
    alloc: Global,
    scope: &Scope<'a>,
    names: &[Name],
) -> Result<Vec<Option<&'a Action>>, AllocError>
    ensures { IfOk result (λ list. AreActions (before_of scope.now) names.now list.items) }
{
    let mut actions = Vec::new(alloc);
    for name in names {
        actions.push(scope.action(name))?;
    }
    Ok(actions)
}

/// The actions of a table, if there is one.
fn actions_of<'a>(
    alloc: Global,
    scope: &Scope<'a>,
    table: Option<&'a Table>,
) -> Result<Vec<Option<&'a Action>>, AllocError>
    ensures { IfOk result (λ list. AreActionsOf (before_of scope.now) table.entry list.items) }
{
    match table {
        Some(table) => actions_named(alloc, scope, table.actions.as_slice()),
        None => Ok(Vec::new(alloc)),
    }
}

/// The table of a name, with its actions.
fn table_callee<'a>(alloc: Global, scope: &Scope<'a>, name: &Name) -> Result<Callee<'a>, AllocError>
    ensures { IfOk result (IsCallee (before_of scope.now) (OfTable name.now)) }
{
    let table = scope.table(name);
    let actions = actions_of(alloc, scope, table)?;
    Ok(Callee { table, actions })
}

/// The action of a name.
fn action_callee<'a>(
    alloc: Global,
    scope: &Scope<'a>,
    name: &Name,
) -> Result<Callee<'a>, AllocError>
    ensures { IfOk result (IsCallee (before_of scope.now) (OfAction name.now)) }
{
    let mut actions = Vec::new(alloc);
    actions.push(scope.action(name))?;
    Ok(Callee {
        table: None,
        actions,
    })
}

/// What is called where nothing is.
fn no_callee<'a>(alloc: Global) -> Callee<'a>
    ensures { (decls : List PlainDecl) → IsCallee decls Nothing result }
{
    Callee {
        table: None,
        actions: Vec::new(alloc),
    }
}

/// What is declared under the name that a piece calls.
fn callee_of<'a>(alloc: Global, scope: &Scope<'a>, call: Call<'_>) -> Result<Callee<'a>, AllocError>
    ensures { IfOk result (IsCallee (before_of scope.now) (seen_call call.entry)) }
{
    match call {
        Call::Nothing => Ok(no_callee(alloc)),
        Call::Action(name) => action_callee(alloc, scope, name),
        Call::Table(name) => table_callee(alloc, scope, name),
    }
}

/// The summary of what is declared under the name that a piece calls.
pub fn summary<'a>(
    alloc: Global,
    scope: &Scope<'a>,
    call: Call<'_>,
) -> Result<Summary<'a>, AllocError>
    ensures { IfOk result (IsSummaryOf (before_of scope.now) (seen_call call.entry)) }
{
    let callee = callee_of(alloc, scope, call)?;
    let summary = summary_of(alloc, &callee)?;
    Ok(summary)
}

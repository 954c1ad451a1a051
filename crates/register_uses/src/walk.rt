//! The walk over the units of a control, in the order of the text.

ghost use Rattle.std.specs.Prelude.{◌∷◌, [], IfOk, OnOk};
ghost use Rattle.register_uses.specs.LocalTables.{named_by_action, named_by_actions, named_by_table};
ghost use Rattle.register_uses.specs.Walks.{AddsControl, HasAdded, HasAddedStmt, HasAddedStmts, HasMarked, IsMarked};

use crate::actions::ActionTable;
use crate::summary::Summary;
use crate::tables::LocalTable;
use crate::uses::{Use, add_plain, mark_body, note};
use elastic_ast::{Local, Stmt};
use elx_bits::Name;
use indexmap::{IndexMap, IndexSet};
use std::alloc::{AllocError, Global};

/// How the units so far use each register, and the actions and tables of the control whose registers are counted as named
/// twice already, so that no body is gone over again.
#[derive(Drop)]
pub struct Walk<'a> {
    pub uses: IndexMap<&'a [u8], Use>,
    pub actions: IndexSet<&'a [u8]>,
    pub tables: IndexSet<&'a [u8]>,
}

/// Counts each register of an action as named twice: it is named beside another one, so how many units name it doesn't
/// matter any more.
fn mark_action<'a>(
    actions: &ActionTable<'a>,
    walk: &mut Walk<'a>,
    name: &'a Name,
) -> Result<(), AllocError>
    requires { IsMarked actions.now walk.old }
    ensures { OnOk result (HasMarked actions.now walk.old walk.new
        (named_by_action actions.now name.now)) }
{
    if !walk.actions.contains(name.as_slice()) {
        mark_body(&mut walk.uses, actions.body_of(name))?;
        walk.actions.insert(name.as_slice())?;
    }
    Ok(())
}

fn mark_actions<'a>(
    actions: &ActionTable<'a>,
    walk: &mut Walk<'a>,
    names: &'a [Name],
) -> Result<(), AllocError>
    requires { IsMarked actions.now walk.old }
    ensures { OnOk result (HasMarked actions.now walk.old walk.new
        (named_by_actions actions.now names.now)) }
{
    for name in names {
        mark_action(actions, walk, name)?;
    }
    Ok(())
}

/// Counts each register of a table as named twice.
fn mark_table<'a>(
    locals: &LocalTable<'a>,
    walk: &mut Walk<'a>,
    name: &'a Name,
) -> Result<(), AllocError>
    requires { IsMarked locals.now walk.old }
    ensures { OnOk result (HasMarked locals.now walk.old walk.new
        (named_by_table locals.now name.now)) }
{
    if !walk.tables.contains(name.as_slice()) {
        mark_actions(locals.actions(), walk, locals.actions_of(name))?;
        walk.tables.insert(name.as_slice())?;
    }
    Ok(())
}

/// Counts the unit of a call.
fn add_action<'a>(
    locals: &LocalTable<'a>,
    walk: &mut Walk<'a>,
    looped: bool,
    name: &'a Name,
) -> Result<(), AllocError>
    requires { IsMarked locals.now walk.old }
    ensures { OnOk result (HasAdded locals.now walk.old walk.new
        ((looped, named_by_action locals.now name.now) ∷ [])) }
{
    match locals.actions().summary_of(name) {
        Summary::Nothing => Ok(()),
        Summary::Only(register) => note(&mut walk.uses, register, Use::Once { looped }),
        Summary::Several => mark_action(locals.actions(), walk, name),
    }
}

/// Counts the unit of the application of a table.
fn add_table<'a>(
    locals: &LocalTable<'a>,
    walk: &mut Walk<'a>,
    looped: bool,
    name: &'a Name,
) -> Result<(), AllocError>
    requires { IsMarked locals.now walk.old }
    ensures { OnOk result (HasAdded locals.now walk.old walk.new
        ((looped, named_by_table locals.now name.now) ∷ [])) }
{
    match locals.summary_of(name) {
        Summary::Nothing => Ok(()),
        Summary::Only(register) => note(&mut walk.uses, register, Use::Once { looped }),
        Summary::Several => mark_table(locals, walk, name),
    }
}

/// Counts the units of a statement.
#[cycle(walk)]
#[tactic(auto, using(elastic_ast::proofs::SeenLaws::seen))]
fn add_stmt<'a>(
    locals: &LocalTable<'a>,
    walk: &mut Walk<'a>,
    looped: bool,
    stmt: &'a Stmt,
) -> Result<(), AllocError>
    requires { IsMarked locals.now walk.old }
    ensures { OnOk result (HasAddedStmt locals.now walk.old walk.new
        looped stmt.now) }
{
    match stmt {
        Stmt::Block { body, .. } => add_stmts(locals, walk, looped, body.as_slice()),
        Stmt::If { yes, no, .. } => {
            add_stmts(locals, walk, looped, yes.as_slice())?;
            match no {
                Some(no) => add_stmts(locals, walk, looped, no.as_slice()),
                None => Ok(()),
            }
        }
        Stmt::For { body, .. } => add_stmts(locals, walk, true, body.as_slice()),
        Stmt::Call { action, .. } => add_action(locals, walk, looped, action),
        Stmt::Apply(table) => add_table(locals, walk, looped, table),
        Stmt::Assign { .. } | Stmt::Read { .. } | Stmt::Write { .. } | Stmt::Valid { .. } => {
            add_plain(&mut walk.uses, looped, stmt)
        }
    }
}

#[cycle(walk)]
#[tactic(auto, using(elastic_ast::proofs::SeenLaws::seen))]
fn add_stmts<'a>(
    locals: &LocalTable<'a>,
    walk: &mut Walk<'a>,
    looped: bool,
    stmts: &'a [Stmt],
) -> Result<(), AllocError>
    requires { IsMarked locals.now walk.old }
    ensures { OnOk result (HasAddedStmts locals.now walk.old walk.new
        looped stmts.now) }
{
    for stmt in stmts {
        add_stmt(locals, walk, looped, stmt)?;
    }
    Ok(())
}

/// The uses of the registers with the units of a control counted too.
pub fn with_control<'a>(
    alloc: Global,
    uses: IndexMap<&'a [u8], Use>,
    locals: &'a [Local],
    body: &'a [Stmt],
) -> Result<IndexMap<&'a [u8], Use>, AllocError>
    ensures { IfOk result (λ new. AddsControl uses.entry.entries new.entries locals.now body.now) }
{
    let table = LocalTable::of(alloc, locals)?;
    let mut walk = Walk {
        uses,
        actions: IndexSet::new(alloc),
        tables: IndexSet::new(alloc),
    };
    add_stmts(&table, &mut walk, false, body)?;
    let Walk { uses, .. } = walk;
    Ok(uses)
}

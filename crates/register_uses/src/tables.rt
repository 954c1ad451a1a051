//! The registers that the actions and the tables of a control name.

ghost use Rattle.std.specs.Prelude.{◌≡◌, IfOk, OnOk};
ghost use Rattle.register_uses.specs.Summaries.{plain_summary, summed};
ghost use Rattle.register_uses.specs.LocalTables.{EntersTable, IsTableOf, HasTables, named_by_action, named_by_actions, named_by_table};

use crate::actions::ActionTable;
use crate::summary::{Summary, together};
use elastic_ast::Local;
use elx_bits::Name;
use indexmap::IndexMap;
use program_names::enter;
use std::alloc::{AllocError, Global};
use std::marker::Model;

/// A table: what its actions name, and these.
#[derive(Clone, Copy)]
pub struct TableNames<'a> {
    pub summary: Summary<'a>,
    pub actions: &'a [Name],
}

/// The actions and the tables of a control, by their names. A contract sees what the control declares before its body.
#[derive(Drop)]
pub struct LocalTable<'a> {
    actions: ActionTable<'a>,
    tables: IndexMap<&'a [u8], TableNames<'a>>,
}

impl<'a> Model for LocalTable<'a> {
    ghost use Rattle.std.specs.Prelude.{List};
    ghost use Rattle.std.specs.Coded.{coded_list};
    ghost use Rattle.elastic_ast.specs.declared.declarations.Local.{Local};
    ghost use Rattle.elastic_ast.specs.contracts.declarations.Local as local;
    ghost use Rattle.register_uses.specs.LocalTables.{HasTables};

    ghost Value = { List Local };

    ghost coded = { coded_list local.the_row.coded };

    ghost view = { λ locals. locals.actions };

    ghost invariant = { λ locals. HasTables locals.actions locals.tables.entries };
}

/// What some actions name together.
fn of_actions<'a>(actions: &ActionTable<'a>, names: &[Name]) -> Summary<'a>
    ensures { plain_summary result ≡ summed (named_by_actions actions.now names.now) }
{
    let mut summary = Summary::Nothing;
    for name in names {
        summary = together(summary, actions.summary_of(name));
    }
    summary
}

/// Adds a table to a table, if none of its name stands there.
fn enter_table<'a>(
    actions: &ActionTable<'a>,
    known: &mut IndexMap<&'a [u8], TableNames<'a>>,
    local: &'a Local,
) -> Result<(), AllocError>
    ensures { OnOk result (EntersTable actions.now known.old.entries known.new.entries local.now) }
{
    match local {
        Local::Table(table) => {
            let names = TableNames {
                summary: of_actions(actions, table.actions.as_slice()),
                actions: table.actions.as_slice(),
            };
            enter(known, table.name.as_slice(), names)
        }
        Local::Action(_) => Ok(()),
    }
}

/// The table of the tables that a control declares.
fn table_of_tables<'a>(
    alloc: Global,
    actions: &ActionTable<'a>,
    locals: &'a [Local],
) -> Result<IndexMap<&'a [u8], TableNames<'a>>, AllocError>
    requires { actions.now ≡ locals.now }
    ensures { IfOk result (λ tables. HasTables locals.now tables.entries) }
{
    let mut tables: IndexMap<&'a [u8], TableNames<'a>> = IndexMap::new(alloc);
    for local in locals {
        enter_table(actions, &mut tables, local)?;
    }
    Ok(tables)
}

impl<'a> LocalTable<'a> {
    /// The table of the actions and the tables that a control declares.
    pub fn of(alloc: Global, locals: &'a [Local]) -> Result<LocalTable<'a>, AllocError>
        ensures { IfOk result (λ table. table ≡ locals.now) }
    {
        let actions = ActionTable::of(alloc, locals)?;
        let tables = table_of_tables(alloc, &actions, locals)?;
        Ok(LocalTable { actions, tables })
    }

    /// The actions alone.
    pub fn actions(&self) -> &ActionTable<'a>
        ensures { result.now ≡ self.now }
    {
        &self.actions
    }

    /// The table of a name, if there is one.
    fn find(&self, name: &Name) -> Option<TableNames<'a>>
        ensures { IsTableOf self.now (named_by_table self.now name.now) result }
    {
        // A field is named, so that what holds of the fields is known.
        let _ = &self.actions;
        self.tables.get(name.as_slice()).copied()
    }

    /// What a table names: nothing, if there is none of this name.
    pub fn summary_of(&self, name: &Name) -> Summary<'a>
        ensures { plain_summary result ≡ summed (named_by_table self.now name.now) }
    {
        match self.find(name) {
            Some(names) => names.summary,
            None => Summary::Nothing,
        }
    }

    /// The actions of a table: none, if there is none of this name.
    pub fn actions_of(&self, name: &Name) -> &'a [Name]
        ensures { named_by_actions self.now result.now ≡ named_by_table self.now name.now }
    {
        match self.find(name) {
            Some(names) => names.actions,
            None => &[],
        }
    }
}

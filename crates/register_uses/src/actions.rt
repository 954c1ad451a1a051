//! The registers that the actions of a control name.

ghost use Rattle.std.specs.Prelude.{◌≡◌, IfOk, OnOk};
ghost use Rattle.elastic_ast.specs.Seen.{seen_stmts};
ghost use Rattle.elastic_ast.specs.Typing.NamedRegisters.{body_registers};
ghost use Rattle.register_uses.specs.Summaries.{plain_summary, summed};
ghost use Rattle.register_uses.specs.LocalTables.{EntersAction, IsActionOf, named_by_action};

use crate::summary::{Summary, of_body};
use elastic_ast::{Local, Stmt};
use elx_bits::Name;
use indexmap::IndexMap;
use program_names::enter;
use std::alloc::{AllocError, Global};
use std::marker::Model;

/// An action: what its body names, and the body.
#[derive(Clone, Copy)]
pub struct ActionNames<'a> {
    pub summary: Summary<'a>,
    pub body: &'a [Stmt],
}

/// The actions of a control, by their names. A contract sees what the control declares before its body.
#[derive(Drop)]
pub struct ActionTable<'a> {
    locals: &'a [Local],
    table: IndexMap<&'a [u8], ActionNames<'a>>,
}

impl<'a> Model for ActionTable<'a> {
    ghost use Rattle.std.specs.Prelude.{List};
    ghost use Rattle.std.specs.Coded.{coded_list};
    ghost use Rattle.elastic_ast.specs.declared.declarations.Local.{Local};
    ghost use Rattle.elastic_ast.specs.contracts.declarations.Local as local;
    ghost use Rattle.register_uses.specs.LocalTables.{HasActions};

    ghost Value = { List Local };

    ghost coded = { coded_list local.the_row.coded };

    ghost view = { λ actions. actions.locals.now };

    ghost invariant = { λ actions. HasActions actions.locals.now actions.table.entries };
}

/// Adds an action to a table, if none of its name stands there.
fn enter_action<'a>(
    table: &mut IndexMap<&'a [u8], ActionNames<'a>>,
    local: &'a Local,
) -> Result<(), AllocError>
    ensures { OnOk result (EntersAction table.old.entries table.new.entries local.now) }
{
    match local {
        Local::Action(action) => {
            let body = action.body.as_slice();
            let names = ActionNames {
                summary: of_body(body),
                body,
            };
            enter(table, action.name.as_slice(), names)
        }
        Local::Table(_) => Ok(()),
    }
}

impl<'a> ActionTable<'a> {
    /// The table of the actions that a control declares.
    pub fn of(alloc: Global, locals: &'a [Local]) -> Result<ActionTable<'a>, AllocError>
        ensures { IfOk result (λ actions. actions ≡ locals.now) }
    {
        let mut table: IndexMap<&'a [u8], ActionNames<'a>> = IndexMap::new(alloc);
        for local in locals {
            enter_action(&mut table, local)?;
        }
        Ok(ActionTable { locals, table })
    }

    /// The action of a name, if there is one.
    fn find(&self, name: &Name) -> Option<ActionNames<'a>>
        ensures { IsActionOf (named_by_action self.now name.now) result }
    {
        // A field is named, so that what holds of the fields is known.
        let _ = &self.locals;
        self.table.get(name.as_slice()).copied()
    }

    /// What an action names: nothing, if there is none of this name.
    pub fn summary_of(&self, name: &Name) -> Summary<'a>
        ensures { plain_summary result ≡ summed (named_by_action self.now name.now) }
    {
        match self.find(name) {
            Some(names) => names.summary,
            None => Summary::Nothing,
        }
    }

    /// The body of an action: empty, if there is none of this name.
    pub fn body_of(&self, name: &Name) -> &'a [Stmt]
        ensures { body_registers (seen_stmts result.now) ≡ named_by_action self.now name.now }
    {
        match self.find(name) {
            Some(names) => names.body,
            None => &[],
        }
    }
}

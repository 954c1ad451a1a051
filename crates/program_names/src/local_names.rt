//! The names of a control's actions and tables.

ghost use Rattle.std.specs.Prelude.{◌≡◌, ◌≤◌, length, map, take, option_map};
ghost use Rattle.std.specs.Option.{option_copied};
ghost use Rattle.elastic_ast.specs.Seen.{seen_action, seen_table};
ghost use Rattle.program_names.specs.LocalParts.{local_action, local_table, name_of_local, IsUnder};

use crate::name_places::{NamePlaces, thing_named};
use elastic_ast::{Action, Local, Table};
use elx_bits::Name;
use std::marker::Model;

/// The first actions and tables of a control, which are found by their names. A contract sees the list of them.
#[derive(Drop)]
pub struct LocalNames<'a> {
    locals: &'a [Local],
    count: usize,
    names: &'a NamePlaces,
}

impl<'a> Model for LocalNames<'a> {
    ghost use Rattle.std.specs.Prelude.{List, take};
    ghost use Rattle.std.specs.Coded.{coded_list};
    ghost use Rattle.elastic_ast.specs.declared.declarations.Local.{Local};
    ghost use Rattle.elastic_ast.specs.contracts.declarations.Local as local;
    ghost use Rattle.program_names.specs.LocalParts.{AreLocals};

    ghost Value = { List Local };

    ghost coded = { coded_list local.the_row.coded };

    ghost view = { λ names. take names.count names.locals.now };

    ghost invariant = { λ names. AreLocals names.names.now names.locals.now names.count };
}

impl<'a> LocalNames<'a> {
    /// All actions and tables of a control, with a table of their names.
    pub fn new(locals: &'a [Local], names: &'a NamePlaces) -> LocalNames<'a>
        requires { names.now ≡ map name_of_local locals.now }
        ensures { result ≡ locals.now }
    {
        LocalNames {
            locals,
            count: locals.len(),
            names,
        }
    }

    /// The first of them, so many.
    pub fn before(&self, count: usize) -> LocalNames<'a>
        requires { count ≤ length self.now }
        ensures { result ≡ take count self.now }
    {
        LocalNames {
            locals: self.locals,
            count,
            names: self.names,
        }
    }

    /// The action or table of a name.
    fn named(&self, name: &Name) -> Option<&'a Local>
        ensures { IsUnder name.now self.now result }
    {
        thing_named(&self.locals[..self.count], self.names, name)
    }

    /// The action of a name.
    pub fn action(&self, name: &Name) -> Option<&'a Action>
        ensures { option_map seen_action (option_copied result) ≡ local_action self.now name.now }
    {
        match self.named(name) {
            Some(Local::Action(action)) => Some(action),
            _ => None,
        }
    }

    /// The table of a name.
    pub fn table(&self, name: &Name) -> Option<&'a Table>
        ensures { option_map seen_table (option_copied result) ≡ local_table self.now name.now }
    {
        match self.named(name) {
            Some(Local::Table(table)) => Some(table),
            _ => None,
        }
    }
}

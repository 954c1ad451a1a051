//! The names of an action's parameters.

ghost use Rattle.std.specs.Prelude.{◌≡◌, map};
ghost use Rattle.std.specs.Option.{option_copied};
ghost use Rattle.elastic_ast.specs.Typing.AskedInLocals.{param_name};
ghost use Rattle.program_names.specs.Named.{first_named};

use crate::name_places::{NamePlaces, thing_named};
use elastic_ast::Param;
use elx_bits::Name;
use std::marker::Model;

/// The parameters of an action, which are found by their names. A contract sees the list of them.
#[derive(Drop)]
pub struct ParamNames<'a> {
    params: &'a [Param],
    names: &'a NamePlaces,
}

impl<'a> Model for ParamNames<'a> {
    ghost use Rattle.std.specs.Prelude.{◌≡◌, List, map};
    ghost use Rattle.std.specs.Coded.{coded_list};
    ghost use Rattle.elastic_ast.specs.declared.declarations.Param.{Param};
    ghost use Rattle.elastic_ast.specs.contracts.declarations.Param as param;
    ghost use Rattle.elastic_ast.specs.Typing.AskedInLocals.{param_name};

    ghost Value = { List Param };

    ghost coded = { coded_list param.the_row.coded };

    ghost view = { λ names. names.params.now };

    ghost invariant = { λ names. names.names.now ≡ map param_name names.params.now };
}

impl<'a> ParamNames<'a> {
    /// The parameters of an action, with a table of their names.
    pub fn new(params: &'a [Param], names: &'a NamePlaces) -> ParamNames<'a>
        requires { names.now ≡ map param_name params.now }
        ensures { result ≡ params.now }
    {
        ParamNames { params, names }
    }

    /// The parameter of a name.
    pub fn named(&self, name: &Name) -> Option<&'a Param>
        ensures { option_copied result ≡ first_named param_name self.now name.now }
    {
        thing_named(self.params, self.names, name)
    }
}

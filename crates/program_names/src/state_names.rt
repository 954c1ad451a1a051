//! The names of a parser's states.

ghost use Rattle.std.specs.Prelude.{◌≡◌};
ghost use Rattle.elastic_ast.specs.Typing.Scope.{among};
ghost use Rattle.elastic_ast.specs.Typing.ParserLoops.{state_names};
ghost use Rattle.program_names.specs.LocalParts.{seen_states};

use crate::name_places::NamePlaces;
use elastic_ast::State;
use elx_bits::Name;
use std::marker::Model;

/// The states of a parser, which are found by their names. A contract sees the list of them.
#[derive(Drop)]
pub struct StateNames<'a> {
    states: &'a [State],
    names: &'a NamePlaces,
}

impl<'a> Model for StateNames<'a> {
    ghost use Rattle.std.specs.Prelude.{◌≡◌, List};
    ghost use Rattle.std.specs.Coded.{coded_list};
    ghost use Rattle.elastic_ast.specs.declared.declarations.State.{State};
    ghost use Rattle.elastic_ast.specs.contracts.declarations.State as state;
    ghost use Rattle.elastic_ast.specs.Typing.ParserLoops.{state_names};
    ghost use Rattle.program_names.specs.LocalParts.{seen_states};

    ghost Value = { List State };

    ghost coded = { coded_list state.the_row.coded };

    ghost view = { λ names. names.states.now };

    ghost invariant = { λ names. names.names.now ≡ state_names (seen_states names.states.now) };
}

impl<'a> StateNames<'a> {
    /// The states of a parser, with a table of their names.
    pub fn new(states: &'a [State], names: &'a NamePlaces) -> StateNames<'a>
        requires { names.now ≡ state_names (seen_states states.now) }
        ensures { result ≡ states.now }
    {
        StateNames { states, names }
    }

    /// Whether a name is that of a state.
    pub fn has(&self, name: &Name) -> bool
        ensures { result ≡ among (state_names (seen_states self.now)) name.now }
    {
        self.names.has(name)
    }
}

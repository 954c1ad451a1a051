//! The names of the scopes within a declaration.

ghost use Rattle.std.specs.Prelude.{◌≡◌, OnOk, None, map};
ghost use Rattle.elastic_ast.specs.Seen.{seen_local};
ghost use Rattle.elastic_ast.specs.Typing.Asked.{field_name};
ghost use Rattle.elastic_ast.specs.Typing.AskedInLocals.{local_name as local_name_of};
ghost use Rattle.elastic_ast.specs.Typing.LookUps.{member_name};
ghost use Rattle.elastic_ast.specs.Typing.ParserLoops.{state_names as state_names_of};
ghost use Rattle.program_names.specs.LocalParts.{seen_states, name_of_local};
ghost use Rattle.decl_check.specs.Refusals.{RefusedBy, IsTableOf};
ghost use Rattle.decl_check.specs.FirstRules.{field_names_break};
ghost use Rattle.decl_check.specs.NamedParts.{member_names_break, state_names_break, local_names_break};

use crate::refusal::{Refusal, put};
use elastic_ast::{Field, Local, State};
use elx_bits::Name;
use program_names::NamePlaces;
use std::alloc::Global;

/// The names of fields, which may stand in one scope.
pub fn field_names(
    alloc: Global,
    allow_reserved: bool,
    fields: &[Field],
) -> Result<NamePlaces, Refusal>
    ensures table { IsTableOf (map field_name fields.now) result }
    ensures fresh { OnOk result (field_names_break allow_reserved fields.now ≡ None) }
    ensures refused { RefusedBy (field_names_break allow_reserved fields.now) result }
{
    let mut names = NamePlaces::new(alloc);
    for field in fields {
        put(&mut names, &field.name, allow_reserved)?;
    }
    Ok(names)
}

/// The names of the members of `headers_t`, which may stand in one scope.
pub fn member_names(
    alloc: Global,
    allow_reserved: bool,
    members: &[(Name, Name)],
) -> Result<NamePlaces, Refusal>
    ensures table { IsTableOf (map member_name members.now) result }
    ensures fresh { OnOk result (member_names_break allow_reserved members.now ≡ None) }
    ensures refused { RefusedBy (member_names_break allow_reserved members.now) result }
{
    let mut names = NamePlaces::new(alloc);
    for member in members {
        put(&mut names, &member.1, allow_reserved)?;
    }
    Ok(names)
}

/// The names of the states of a parser, which may stand in one scope.
pub fn state_names(
    alloc: Global,
    allow_reserved: bool,
    states: &[State],
) -> Result<NamePlaces, Refusal>
    ensures table { IsTableOf (state_names_of (seen_states states.now)) result }
    ensures fresh { OnOk result (state_names_break allow_reserved states.now ≡ None) }
    ensures refused { RefusedBy (state_names_break allow_reserved states.now) result }
{
    let mut names = NamePlaces::new(alloc);
    for state in states {
        put(&mut names, &state.name, allow_reserved)?;
    }
    Ok(names)
}

/// The name of an action or a table.
fn local_name(local: &Local) -> &Name
    ensures { result.now ≡ local_name_of (seen_local local.now) }
{
    match local {
        Local::Action(action) => &action.name,
        Local::Table(table) => &table.name,
    }
}

/// The names of the actions and tables of a control, which may stand in one scope.
pub fn local_names(
    alloc: Global,
    allow_reserved: bool,
    locals: &[Local],
) -> Result<NamePlaces, Refusal>
    ensures table { IsTableOf (map name_of_local locals.now) result }
    ensures fresh { OnOk result (local_names_break allow_reserved locals.now ≡ None) }
    ensures refused { RefusedBy (local_names_break allow_reserved locals.now) result }
{
    let mut names = NamePlaces::new(alloc);
    for local in locals {
        match put(&mut names, local_name(local), allow_reserved) {
            Ok(()) => {}
            Err(refusal) => return Err(refusal),
        }
    }
    Ok(names)
}

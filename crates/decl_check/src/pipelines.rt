//! What parsers and controls ask, their names aside.

ghost use Rattle.std.specs.Prelude.{map};
ghost use Rattle.elastic_ast.specs.Typing.ParserLoops.{state_names as state_names_of};
ghost use Rattle.program_names.specs.LocalParts.{seen_states, name_of_local};
ghost use Rattle.decl_check.specs.Refusals.{IsTableOf, PassesOn, RefusedBy};
ghost use Rattle.decl_check.specs.PartRules.{parser_breaks, control_breaks};

use crate::callers::callers;
use crate::locals::check_locals;
use crate::named_parts::{local_names, state_names};
use crate::parts::check_structs;
use crate::refusal::{Refusal, refusal_of, with_parts};
use crate::register_free::{RegisterFree, register_free_locals};
use crate::states::check_states;
use elastic_ast::{Local, State, Stmt};
use expr_types::{Scope, top};
use program_names::{LocalNames, NamePlaces, StateNames};
use std::alloc::Global;
use stmt_check::check_stmts;

/// What a parser asks, its name aside. The names are those of its states.
#[tactic(auto, using(elastic_ast::proofs::Typing::First::firsts))]
pub fn check_parser(
    alloc: Global,
    allow_reserved: bool,
    scope: &Scope<'_>,
    states: &[State],
) -> Result<NamePlaces, Refusal>
    ensures parts { IsTableOf (state_names_of (seen_states states.now)) result }
    ensures fine { PassesOn (parser_breaks allow_reserved scope.now states.now) result }
    ensures refused { RefusedBy (parser_breaks allow_reserved scope.now states.now) result }
{
    refusal_of(check_structs(allow_reserved, scope))?;
    let names = state_names(alloc, allow_reserved, states)?;
    let known = StateNames::new(states, &names);
    let broken = check_states(allow_reserved, scope, &known, states);
    with_parts(names, broken)
}

/// What a control asks, its name aside. The names are those of its actions and tables.
#[tactic(auto, using(elastic_ast::proofs::Typing::First::firsts))]
pub fn check_control(
    alloc: Global,
    allow_reserved: bool,
    scope: &Scope<'_>,
    locals: &[Local],
    body: &[Stmt],
) -> Result<NamePlaces, Refusal>
    ensures parts { IsTableOf (map name_of_local locals.now) result }
    ensures fine { PassesOn (control_breaks allow_reserved scope.now locals.now body.now) result }
    ensures refused { RefusedBy (control_breaks allow_reserved scope.now locals.now body.now) result }
{
    refusal_of(check_structs(allow_reserved, scope))?;
    let names = local_names(alloc, allow_reserved, locals)?;
    let known = LocalNames::new(locals, &names);
    let Ok(free) = register_free_locals(alloc, locals) else {
        return Err(Refusal::Memory);
    };
    let free = RegisterFree::new(locals, &names, free.as_slice());
    let Ok(sizes) = callers(alloc, &names, locals.len(), body) else {
        return Err(Refusal::Memory);
    };
    check_locals(
        alloc,
        allow_reserved,
        scope,
        body,
        sizes.as_slice(),
        &known,
        &free,
        locals,
    )?;
    let broken = check_stmts(allow_reserved, &top(scope), &known, body);
    with_parts(names, broken)
}

//! What the actions of a control ask.

ghost use Rattle.std.specs.Prelude.{◌≡◌, [], OnOk, None, map};
ghost use Rattle.elastic_ast.specs.Typing.AskedInLocals.{asks_param, param_name};
ghost use Rattle.decl_check.specs.CallerSizes.{AreCallers};
ghost use Rattle.expr_types.specs.Placed.{scope_at};
ghost use Rattle.decl_check.specs.Refusals.{RefusedBy, PassesOn, IsTableOf};
ghost use Rattle.stmt_check.specs.PlaceRules.{each_breaks};
ghost use Rattle.decl_check.specs.NamedParts.{behind, names_break, own_names, params_break};
ghost use Rattle.decl_check.specs.ActionRules.{scope_in_action, body_breaks, action_breaks};

use crate::refusal::{Refusal, put_behind, refusal_of};
use elastic_ast::{Action, Param, Rule, Stmt};
use elx_bits::Name;
use expr_types::{Place, Scope, Sizes, broken_name, is_width};
use program_names::{LocalNames, NamePlaces, ParamNames};
use std::alloc::Global;
use stmt_check::check_stmts;

/// The rule that the index of an action breaks by its name.
fn check_index_name(allow_reserved: bool, index: Option<&Name>) -> Option<Rule>
    ensures { result ≡ names_break allow_reserved (behind index.entry []) }
{
    match index {
        Some(index) => broken_name(allow_reserved, false, index.as_slice()),
        None => None,
    }
}

/// The names of parameters, if they may be declared behind an index.
fn param_names(
    alloc: Global,
    allow_reserved: bool,
    index: Option<&Name>,
    params: &[Param],
) -> Result<NamePlaces, Refusal>
    ensures table { IsTableOf (map param_name params.now) result }
    ensures fresh { OnOk result (params_break allow_reserved (behind index.entry []) params.now ≡ None) }
    ensures refused { RefusedBy (params_break allow_reserved (behind index.entry []) params.now) result }
{
    let mut names = NamePlaces::new(alloc);
    for param in params {
        put_behind(&mut names, index, &param.name, allow_reserved)?;
    }
    Ok(names)
}

/// The names of an action's parameters, if its index and these have names of their own.
#[tactic(auto, using(crate::proofs::ActionLaws::own_parts))]
fn check_own_names(
    alloc: Global,
    allow_reserved: bool,
    index: Option<&Name>,
    params: &[Param],
) -> Result<NamePlaces, Refusal>
    ensures table { IsTableOf (map param_name params.now) result }
    ensures fresh { OnOk result (names_break allow_reserved (own_names index.entry params.now) ≡ None) }
    ensures refused { RefusedBy (names_break allow_reserved (own_names index.entry params.now)) result }
{
    refusal_of(check_index_name(allow_reserved, index))?;
    param_names(alloc, allow_reserved, index, params)
}

fn check_params(allow_reserved: bool, params: &[Param]) -> Option<Rule>
    ensures { result ≡ each_breaks allow_reserved asks_param params.now }
{
    for param in params {
        if !is_width(param.width as u16) {
            return Some(Rule::Width);
        }
    }
    None
}

/// The place of an action's body, where the loops that call it have the given sizes.
fn in_action<'a>(
    scope: &'a Scope<'_>,
    params: &'a ParamNames<'_>,
    action: &'a Action,
    sizes: &'a [&'a Name],
) -> Place<'a>
    requires { params.now ≡ action.now.params }
    ensures { scope_at result ≡ scope_in_action scope.now action.now sizes.now }
{
    Place {
        scope,
        params: Some(params),
        index: action.index.as_ref(),
        sizes: Sizes::new(sizes),
    }
}

/// What the statements of an action ask, in a control with this body. They see no action and no table. The sizes are those of
/// the loops that call the action.
fn check_body(
    allow_reserved: bool,
    scope: &Scope<'_>,
    body: &[Stmt],
    sizes: &[&Name],
    none: &LocalNames<'_>,
    params: &ParamNames<'_>,
    action: &Action,
) -> Option<Rule>
    requires none { none.now ≡ [] }
    requires params { params.now ≡ action.now.params }
    requires sizes { AreCallers action.now.name body.now sizes.now }
    ensures { result ≡ body_breaks allow_reserved scope.now body.now action.now }
{
    let place = in_action(&*scope, &*params, &*action, sizes);
    check_stmts(allow_reserved, &place, none, action.body.as_slice())
}

/// The first rule that an action breaks, in a control with this body. Its statements see no action and no table. The sizes
/// are those of the loops that call it.
#[tactic(auto, using(elastic_ast::proofs::Typing::First::firsts))]
pub fn check_action(
    alloc: Global,
    allow_reserved: bool,
    scope: &Scope<'_>,
    body: &[Stmt],
    sizes: &[&Name],
    none: &LocalNames<'_>,
    action: &Action,
) -> Result<(), Refusal>
    requires none { none.now ≡ [] }
    requires sizes { AreCallers action.now.name body.now sizes.now }
    ensures fine { PassesOn (action_breaks allow_reserved scope.now body.now action.now) result }
    ensures refused { RefusedBy (action_breaks allow_reserved scope.now body.now action.now) result }
{
    let params = action.params.as_slice();
    let names = check_own_names(alloc, allow_reserved, action.index.as_ref(), params)?;
    let known = ParamNames::new(params, &names);
    refusal_of(check_params(allow_reserved, params))?;
    refusal_of(check_body(allow_reserved, scope, body, sizes, none, &known, action))
}

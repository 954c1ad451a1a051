//! What the states of a parser ask, their names aside.

ghost use Rattle.std.specs.Prelude.{◌≡◌};
ghost use Rattle.elastic_ast.specs.Typing.Asked.{is_state as is_state_of};
ghost use Rattle.decl_check.specs.StateRules.{options_break, case_breaks, cases_break, next_state_breaks, state_breaks, states_break};
ghost use Rattle.program_names.specs.LocalParts.{seen_states};

use crate::parts::check_headers;
use elastic_ast::{Keyset, Next, Rule, State};
use elx_bits::Name;
use expr_types::{Scope, Ty, top, type_of};
use program_names::StateNames;
use stmt_check::{check_expr, check_known, check_set, either, has_width, is_truth};

/// Whether a parser may go on to a name.
fn is_state(states: &StateNames<'_>, name: &Name) -> bool
    ensures { result ≡ is_state_of (seen_states states.now) name.now }
{
    let text = name.as_slice();
    text == b"accept".as_slice() || text == b"reject".as_slice() || states.has(name)
}

/// What a case of a `select` asks.
#[tactic(auto, using(elastic_ast::proofs::Typing::First::firsts))]
fn check_case(
    allow_reserved: bool,
    scope: &Scope<'_>,
    states: &StateNames<'_>,
    width: Ty,
    case: &(Keyset, Name),
) -> Option<Rule>
    ensures { result ≡ case_breaks allow_reserved scope.now states.now width case.now }
{
    either(
        check_set(allow_reserved, scope, width, &case.0),
        check_known(allow_reserved, is_state(states, &case.1)),
    )
}

#[tactic(auto, using(elastic_ast::proofs::Typing::First::firsts))]
fn check_cases(
    allow_reserved: bool,
    scope: &Scope<'_>,
    states: &StateNames<'_>,
    width: Ty,
    cases: &[(Keyset, Name)],
) -> Option<Rule>
    ensures { result ≡ cases_break allow_reserved scope.now states.now width cases.now }
{
    for case in cases {
        match check_case(allow_reserved, scope, states, width, case) {
            Some(rule) => return Some(rule),
            None => {}
        }
    }
    None
}

/// What a `select` asks that is over something of this type.
fn check_options(
    allow_reserved: bool,
    scope: &Scope<'_>,
    states: &StateNames<'_>,
    width: Ty,
    cases: &[(Keyset, Name)],
) -> Option<Rule>
    ensures { result ≡ options_break allow_reserved scope.now states.now width cases.now }
{
    if is_truth(width) {
        return Some(Rule::NotBool);
    }
    if !has_width(width) {
        return Some(Rule::BadKey);
    }
    check_cases(allow_reserved, scope, states, width, cases)
}

/// What the end of a state asks.
#[tactic(auto, using(elastic_ast::proofs::Typing::First::firsts))]
fn check_next(
    allow_reserved: bool,
    scope: &Scope<'_>,
    states: &StateNames<'_>,
    next: &Next,
) -> Option<Rule>
    ensures { result ≡ next_state_breaks allow_reserved scope.now states.now next.now }
{
    match next {
        Next::To(name) => check_known(allow_reserved, is_state(states, name)),
        Next::Select { of, cases } => {
            let place = top(scope);
            let own = check_options(
                allow_reserved,
                scope,
                states,
                type_of(&place, of),
                cases.as_slice(),
            );
            either(check_expr(allow_reserved, &place, of, Ty::Bare), own)
        }
    }
}

/// What a state asks.
#[tactic(auto, using(elastic_ast::proofs::Typing::First::firsts))]
fn check_state(
    allow_reserved: bool,
    scope: &Scope<'_>,
    states: &StateNames<'_>,
    state: &State,
) -> Option<Rule>
    ensures { result ≡ state_breaks allow_reserved scope.now states.now state.now }
{
    either(
        check_headers(allow_reserved, scope, state.extracts.as_slice()),
        check_next(allow_reserved, scope, states, &state.next),
    )
}

/// The first rule that some of the states of a parser break.
#[tactic(auto, using(elastic_ast::proofs::Typing::First::firsts))]
pub fn check_states(
    allow_reserved: bool,
    scope: &Scope<'_>,
    states: &StateNames<'_>,
    each: &[State],
) -> Option<Rule>
    ensures { result ≡ states_break allow_reserved scope.now states.now each.now }
{
    for state in each {
        match check_state(allow_reserved, scope, states, state) {
            Some(rule) => return Some(rule),
            None => {}
        }
    }
    None
}

//! What each declaration asks, over the scope before it.

ghost use Rattle.std.specs.Prelude.{◌≡◌, [], None, true, map};
ghost use Rattle.elastic_ast.specs.Typing.Demand.{first_broken, from_zero, rises};
ghost use Rattle.elastic_ast.specs.Typing.Asked.{asks_term, asks_comp, asks_pair, pair_key, asks_util, asks_field, field_name};
ghost use Rattle.elastic_ast.specs.Seen.{seen_decl};
ghost use Rattle.program_names.specs.TopNames.{part_names};
ghost use Rattle.decl_check.specs.FirstRules.{has_no_parts, fields_break, utility_breaks, inside_breaks, symbol_breaks, steps_break};
ghost use Rattle.decl_check.specs.Refusals.{IsTableOf, RefusedBy, PassesOn};
ghost use Rattle.stmt_check.specs.PlaceRules.{each_breaks};
ghost use Rattle.expr_types.specs.Scoped.{before_of};

use crate::named_parts::field_names;
use crate::parts::{check_cells, check_emits, check_header, check_headers_t, check_main};
use crate::pipelines::{check_control, check_parser};
use crate::refusal::{Refusal, with_parts};
use elastic_ast::{Comp, Decl, Field, LinTerm, Rule, UtilTerm};
use elx_bits::Name;
use expr_types::{Scope, Ty};
use program_names::NamePlaces;
use std::alloc::Global;
use stmt_check::{check_number, either};

/// The greatest number in `assume` and `maximize`.
const MOST_NUMBER: u64 = 1_000_000_000;

/// The most terms of one comparison, and of one utility, and the most keys of a step table.
const MOST_TERMS: usize = 64;

/// Whether a name that stands for a size is that of a symbol.
pub fn check_symbol(allow_reserved: bool, scope: &Scope<'_>, symbol: &Option<Name>) -> Option<Rule>
    ensures { result ≡ symbol_breaks allow_reserved scope.now symbol.now }
{
    match symbol {
        Some(name) => {
            if scope.is_symbol(name) {
                None
            } else {
                Some(Rule::UnknownName)
            }
        }
        None => None,
    }
}

fn check_term(allow_reserved: bool, scope: &Scope<'_>, term: &LinTerm) -> Option<Rule>
    ensures { result ≡ first_broken allow_reserved (asks_term (before_of scope.now) term.now) }
{
    if term.by > MOST_NUMBER {
        return Some(Rule::BadTerm);
    }
    check_symbol(allow_reserved, scope, &term.symbol)
}

fn check_terms(allow_reserved: bool, scope: &Scope<'_>, terms: &[LinTerm]) -> Option<Rule>
    ensures { result ≡ each_breaks allow_reserved (asks_term (before_of scope.now)) terms.now }
{
    for term in terms {
        match check_term(allow_reserved, scope, term) {
            Some(rule) => return Some(rule),
            None => {}
        }
    }
    None
}

#[tactic(auto, using(elastic_ast::proofs::Typing::First::firsts))]
fn check_comparison(allow_reserved: bool, scope: &Scope<'_>, comp: &Comp) -> Option<Rule>
    ensures { result ≡ first_broken allow_reserved (asks_comp (before_of scope.now) comp.now) }
{
    let (left, right) = (comp.left.as_slice(), comp.right.as_slice());
    if left.len() > MOST_TERMS || right.len() > MOST_TERMS - left.len() {
        return Some(Rule::BadTerm);
    }
    either(
        check_terms(allow_reserved, scope, left),
        check_terms(allow_reserved, scope, right),
    )
}

#[tactic(auto, using(elastic_ast::proofs::Typing::First::firsts))]
fn check_assume(allow_reserved: bool, scope: &Scope<'_>, comps: &[Comp]) -> Option<Rule>
    ensures { result ≡ each_breaks allow_reserved (asks_comp (before_of scope.now)) comps.now }
{
    for comp in comps {
        match check_comparison(allow_reserved, scope, comp) {
            Some(rule) => return Some(rule),
            None => {}
        }
    }
    None
}

/// Whether the keys of a step table rise.
#[tactic(auto, using(crate::proofs::Rising::rising))]
fn keys_rise(pairs: &[(u64, u64)]) -> bool
    ensures { result ≡ rises (map pair_key pairs.now) }
{
    let mut rest = pairs;
    while rest.len() >= 2 {
        if rest[0].0 >= rest[1].0 {
            return false;
        }
        rest = &rest[1..];
    }
    true
}

/// Whether the first key of a step table, if it has one, is 0.
fn begins_at_zero(pairs: &[(u64, u64)]) -> bool
    ensures { result ≡ from_zero (map pair_key pairs.now) }
{
    match pairs.first() {
        Some(pair) => pair.0 == 0,
        None => true,
    }
}

fn check_pair(allow_reserved: bool, pair: &(u64, u64)) -> Option<Rule>
    ensures { result ≡ first_broken allow_reserved (asks_pair pair.now) }
{
    if pair.0 > MOST_NUMBER || pair.1 > MOST_NUMBER {
        Some(Rule::BadTerm)
    } else {
        None
    }
}

fn check_pairs(allow_reserved: bool, pairs: &[(u64, u64)]) -> Option<Rule>
    ensures { result ≡ each_breaks allow_reserved asks_pair pairs.now }
{
    for pair in pairs {
        match check_pair(allow_reserved, pair) {
            Some(rule) => return Some(rule),
            None => {}
        }
    }
    None
}

fn check_steps(
    allow_reserved: bool,
    scope: &Scope<'_>,
    symbol: &Name,
    pairs: &[(u64, u64)],
) -> Option<Rule>
    ensures { result ≡ steps_break allow_reserved scope.now symbol.now pairs.now }
{
    if !scope.is_symbol(symbol) {
        return Some(Rule::UnknownName);
    }
    if pairs.len() > MOST_TERMS || !begins_at_zero(pairs) || !keys_rise(pairs) {
        return Some(Rule::BadTerm);
    }
    check_pairs(allow_reserved, pairs)
}

fn check_util(allow_reserved: bool, scope: &Scope<'_>, term: &UtilTerm) -> Option<Rule>
    ensures { result ≡ first_broken allow_reserved (asks_util (before_of scope.now) term.now) }
{
    match term {
        UtilTerm::Lin(term) => check_term(allow_reserved, scope, term),
        UtilTerm::Steps {
            minus: _,
            symbol,
            pairs,
        } => check_steps(allow_reserved, scope, symbol, pairs.as_slice()),
    }
}

#[tactic(auto, using(elastic_ast::proofs::Typing::First::firsts))]
fn check_utility(allow_reserved: bool, scope: &Scope<'_>, terms: &[UtilTerm]) -> Option<Rule>
    ensures { result ≡ each_breaks allow_reserved (asks_util (before_of scope.now)) terms.now }
{
    for term in terms {
        match check_util(allow_reserved, scope, term) {
            Some(rule) => return Some(rule),
            None => {}
        }
    }
    None
}

fn check_field(allow_reserved: bool, scope: &Scope<'_>, field: &Field) -> Option<Rule>
    ensures { result ≡ first_broken allow_reserved (asks_field (before_of scope.now) field.now) }
{
    if field.width < 1 || field.width > 128 {
        return Some(Rule::Width);
    }
    check_symbol(allow_reserved, scope, &field.size)
}

#[tactic(auto, using(elastic_ast::proofs::Typing::First::firsts))]
fn check_fields(allow_reserved: bool, scope: &Scope<'_>, fields: &[Field]) -> Option<Rule>
    ensures { result ≡ each_breaks allow_reserved (asks_field (before_of scope.now)) fields.now }
{
    for field in fields {
        match check_field(allow_reserved, scope, field) {
            Some(rule) => return Some(rule),
            None => {}
        }
    }
    None
}

/// No names, for a declaration without parts, unless a rule is broken.
fn no_parts(alloc: Global, broken: Option<Rule>) -> Result<NamePlaces, Refusal>
    ensures parts { IsTableOf [] result }
    ensures fine { PassesOn broken result }
    ensures refused { RefusedBy broken result }
{
    with_parts(NamePlaces::new(alloc), broken)
}

/// What `meta_t` asks. The names are those of its fields.
#[tactic(auto, using(elastic_ast::proofs::Typing::First::firsts))]
fn check_metadata(
    alloc: Global,
    allow_reserved: bool,
    scope: &Scope<'_>,
    fields: &[Field],
) -> Result<NamePlaces, Refusal>
    ensures parts { IsTableOf (map field_name fields.now) result }
    ensures fine { PassesOn (fields_break allow_reserved scope.now fields.now) result }
    ensures refused { RefusedBy (fields_break allow_reserved scope.now fields.now) result }
{
    let names = field_names(alloc, allow_reserved, fields)?;
    with_parts(names, check_fields(allow_reserved, scope, fields))
}

/// What the utility asks.
fn check_maximize(allow_reserved: bool, scope: &Scope<'_>, terms: &[UtilTerm]) -> Option<Rule>
    ensures { result ≡ utility_breaks allow_reserved scope.now terms.now }
{
    if terms.len() > MOST_TERMS {
        return Some(Rule::BadTerm);
    }
    check_utility(allow_reserved, scope, terms)
}

/// The first rule that a declaration without parts breaks by what stands in it.
fn check_without_parts(allow_reserved: bool, scope: &Scope<'_>, decl: &Decl) -> Option<Rule>
    requires { has_no_parts (seen_decl decl.now) ≡ true }
    ensures { result ≡ inside_breaks allow_reserved scope.now decl.now }
{
    match decl {
        Decl::Assume(comps) => check_assume(allow_reserved, scope, comps.as_slice()),
        Decl::Maximize(terms) => check_maximize(allow_reserved, scope, terms.as_slice()),
        Decl::Const { width, value, .. } => {
            check_number(allow_reserved, Some(*width), *value, Ty::Bare)
        }
        Decl::Register {
            width,
            cells,
            size,
            ..
        } => check_cells(allow_reserved, scope, *width, cells, size),
        Decl::Deparser { emits, .. } => check_emits(allow_reserved, scope, emits.as_slice()),
        Decl::Main {
            parser,
            control,
            deparser,
        } => check_main(allow_reserved, scope, parser, control, deparser),
        _ => None,
    }
}

/// The first rule that a declaration breaks by what stands in it. Where it breaks none, the names of its parts.
pub fn check_declaration(
    alloc: Global,
    allow_reserved: bool,
    scope: &Scope<'_>,
    decl: &Decl,
) -> Result<NamePlaces, Refusal>
    ensures parts { IsTableOf (part_names (seen_decl decl.now)) result }
    ensures fine { PassesOn (inside_breaks allow_reserved scope.now decl.now) result }
    ensures refused { RefusedBy (inside_breaks allow_reserved scope.now decl.now) result }
{
    match decl {
        Decl::Header { fields, .. } => check_header(alloc, allow_reserved, fields.as_slice()),
        Decl::Headers(members) => {
            check_headers_t(alloc, allow_reserved, scope, members.as_slice())
        }
        Decl::Meta(fields) => check_metadata(alloc, allow_reserved, scope, fields.as_slice()),
        Decl::Parser { states, .. } => {
            check_parser(alloc, allow_reserved, scope, states.as_slice())
        }
        Decl::Control { locals, body, .. } => check_control(
            alloc,
            allow_reserved,
            scope,
            locals.as_slice(),
            body.as_slice(),
        ),
        _ => no_parts(alloc, check_without_parts(allow_reserved, scope, decl)),
    }
}

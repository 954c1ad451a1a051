//! What match-action tables ask.

ghost use Rattle.std.specs.Prelude.{◌≡◌, length, map};
ghost use Rattle.elastic_ast.specs.Seen.{seen_keyset, seen_entry};
ghost use Rattle.elastic_ast.specs.Typing.AskedInLocals.{is_one as is_one_of};
ghost use Rattle.program_names.specs.Named.{HasSameNames};
ghost use Rattle.decl_check.specs.Refusals.{PassesOn, RefusedBy};
ghost use Rattle.decl_check.specs.RegisterFree.{AreFirst};
ghost use Rattle.decl_check.specs.TableRules.{values_break, run_breaks, listed_breaks, listeds_break, key_breaks, keys_break, key_set_breaks, sets_break, own_run_breaks, rows_break, size_breaks, entry_breaks, entries_break, fallback_breaks, table_breaks};

use crate::refusal::{Refusal, refusal_of};
use crate::register_free::RegisterFree;
use elastic_ast::{Entry, Expr, Key, Keyset, Param, Rule, Table};
use elx_bits::Name;
use expr_types::{Scope, bits_of, lval_type, top};
use program_names::{LocalNames, NamePlaces};
use std::alloc::Global;
use stmt_check::{check_lval, check_set, check_value, either, is_no_action, unless};

/// The greatest size of a table.
const MOST_ENTRIES: u32 = 1_000_000;

/// One value for each parameter, in its width.
fn check_values(
    allow_reserved: bool,
    scope: &Scope<'_>,
    values: &[Expr],
    params: &[Param],
) -> Option<Rule>
    ensures { result ≡ values_break allow_reserved scope.now values.now params.now }
{
    for (i, value) in values.iter().enumerate() {
        let Some(param) = params.get(i) else {
            return Some(Rule::BadCall);
        };
        if let Some(rule) = check_value(allow_reserved, scope, value, bits_of(param.width)) {
            return Some(rule);
        }
    }
    unless(params.len() <= values.len(), Rule::BadCall)
}

/// What an action with its arguments asks that a table runs.
fn check_run(
    allow_reserved: bool,
    scope: &Scope<'_>,
    locals: &LocalNames<'_>,
    name: &Name,
    values: &[Expr],
) -> Option<Rule>
    ensures { result ≡ run_breaks allow_reserved scope.now locals.now name.now values.now }
{
    if is_no_action(name) {
        let none: &[Param] = &[];
        return check_values(allow_reserved, scope, values, none);
    }
    match locals.action(name) {
        None => Some(Rule::UnknownName),
        Some(action) => check_values(allow_reserved, scope, values, action.params.as_slice()),
    }
}

/// What an action of a table asks.
fn check_listed(
    allow_reserved: bool,
    locals: &LocalNames<'_>,
    free: &RegisterFree<'_>,
    name: &Name,
) -> Option<Rule>
    requires { AreFirst locals.now free.now }
    ensures { result ≡ listed_breaks allow_reserved locals.now name.now }
{
    if is_no_action(name) {
        return None;
    }
    match locals.action(name) {
        None => Some(Rule::UnknownName),
        Some(action) => {
            if action.index.is_some() {
                return Some(Rule::BadCall);
            }
            unless(free.is_register_free(name), Rule::RegisterInTable)
        }
    }
}

#[tactic(auto, using(elastic_ast::proofs::Typing::First::firsts))]
fn check_actions(
    allow_reserved: bool,
    locals: &LocalNames<'_>,
    free: &RegisterFree<'_>,
    names: &[Name],
) -> Option<Rule>
    requires { AreFirst locals.now free.now }
    ensures { result ≡ listeds_break allow_reserved locals.now names.now }
{
    for name in names {
        match check_listed(allow_reserved, locals, free, name) {
            Some(rule) => return Some(rule),
            None => {}
        }
    }
    None
}

fn check_key(allow_reserved: bool, scope: &Scope<'_>, key: &Key) -> Option<Rule>
    ensures { result ≡ key_breaks allow_reserved scope.now key.now }
{
    check_lval(allow_reserved, &top(scope), &key.field)
}

#[tactic(auto, using(elastic_ast::proofs::Typing::First::firsts))]
fn check_keys(allow_reserved: bool, scope: &Scope<'_>, keys: &[Key]) -> Option<Rule>
    ensures { result ≡ keys_break allow_reserved scope.now keys.now }
{
    for key in keys {
        match check_key(allow_reserved, scope, key) {
            Some(rule) => return Some(rule),
            None => {}
        }
    }
    None
}

fn is_one(set: &Keyset) -> bool
    ensures { result ≡ is_one_of (seen_keyset set.now) }
{
    match set {
        Keyset::One(_) => true,
        Keyset::Masked { .. } => false,
        Keyset::Any => false,
    }
}

/// A set in the width of its key; that of an exact key is one number.
fn check_key_set(allow_reserved: bool, scope: &Scope<'_>, key: &Key, set: &Keyset) -> Option<Rule>
    ensures { result ≡ key_set_breaks allow_reserved scope.now key.now set.now }
{
    if !key.ternary && !is_one(set) {
        return Some(Rule::BadKey);
    }
    check_set(allow_reserved, scope, lval_type(scope, &key.field), set)
}

/// One set for each key.
fn check_sets(
    allow_reserved: bool,
    scope: &Scope<'_>,
    sets: &[Keyset],
    keys: &[Key],
) -> Option<Rule>
    ensures { result ≡ sets_break allow_reserved scope.now sets.now keys.now }
{
    for (i, set) in sets.iter().enumerate() {
        let Some(key) = keys.get(i) else {
            return Some(Rule::BadKey);
        };
        if let Some(rule) = check_key_set(allow_reserved, scope, key, set) {
            return Some(rule);
        }
    }
    unless(keys.len() <= sets.len(), Rule::BadKey)
}

/// What a table's size asks that has so many entries.
fn check_size(allow_reserved: bool, count: usize, size: Option<u32>) -> Option<Rule>
    ensures { result ≡ size_breaks allow_reserved count size }
{
    match size {
        None => None,
        Some(size) => unless(
            size <= MOST_ENTRIES && count <= size as usize,
            Rule::BadEntries,
        ),
    }
}

/// What an action with its arguments asks that an entry of a table runs.
fn check_own_run(
    allow_reserved: bool,
    scope: &Scope<'_>,
    locals: &LocalNames<'_>,
    listed: &NamePlaces,
    table: &Table,
    name: &Name,
    values: &[Expr],
) -> Option<Rule>
    requires { HasSameNames table.now.actions listed.now }
    ensures { result ≡ own_run_breaks allow_reserved scope.now locals.now table.now name.now values.now }
{
    if !listed.has(name) {
        return Some(Rule::BadEntries);
    }
    check_run(allow_reserved, scope, locals, name, values)
}

/// What an entry of a table asks.
#[tactic(auto, using(elastic_ast::proofs::Typing::First::firsts))]
fn check_entry(
    allow_reserved: bool,
    scope: &Scope<'_>,
    locals: &LocalNames<'_>,
    listed: &NamePlaces,
    table: &Table,
    entry: &Entry,
) -> Option<Rule>
    requires { HasSameNames table.now.actions listed.now }
    ensures { result ≡ entry_breaks allow_reserved scope.now locals.now table.now entry.now }
{
    either(
        check_sets(
            allow_reserved,
            scope,
            entry.keys.as_slice(),
            table.keys.as_slice(),
        ),
        check_own_run(
            allow_reserved,
            scope,
            locals,
            listed,
            table,
            &entry.action,
            entry.args.as_slice(),
        ),
    )
}

#[tactic(auto, using(elastic_ast::proofs::Typing::First::firsts))]
fn check_entries(
    allow_reserved: bool,
    scope: &Scope<'_>,
    locals: &LocalNames<'_>,
    listed: &NamePlaces,
    table: &Table,
    entries: &[Entry],
) -> Option<Rule>
    requires { HasSameNames table.now.actions listed.now }
    ensures { result ≡ entries_break allow_reserved scope.now locals.now table.now entries.now }
{
    for entry in entries {
        match check_entry(allow_reserved, scope, locals, listed, table, entry) {
            Some(rule) => return Some(rule),
            None => {}
        }
    }
    None
}

/// What the default action of a table asks.
fn check_fallback(
    allow_reserved: bool,
    scope: &Scope<'_>,
    locals: &LocalNames<'_>,
    listed: &NamePlaces,
    table: &Table,
) -> Option<Rule>
    requires { HasSameNames table.now.actions listed.now }
    ensures { result ≡ fallback_breaks allow_reserved scope.now locals.now table.now }
{
    match &table.fallback {
        None => None,
        Some(run) => {
            if !is_no_action(&run.0) && !listed.has(&run.0) {
                return Some(Rule::BadEntries);
            }
            check_run(allow_reserved, scope, locals, &run.0, run.1.as_slice())
        }
    }
}

/// How many entries a table has.
fn count_of(table: &Table) -> usize
    ensures { result ≡ length (map seen_entry table.now.entries) }
{
    table.entries.as_slice().len()
}

/// What the size of a table, its entries and its default action ask.
#[tactic(auto, using(elastic_ast::proofs::Typing::First::firsts))]
fn check_rows(
    allow_reserved: bool,
    scope: &Scope<'_>,
    locals: &LocalNames<'_>,
    listed: &NamePlaces,
    table: &Table,
) -> Option<Rule>
    requires { HasSameNames table.now.actions listed.now }
    ensures { result ≡ rows_break allow_reserved scope.now locals.now table.now }
{
    let first = check_size(allow_reserved, count_of(table), table.size);
    let second = check_entries(
        allow_reserved,
        scope,
        locals,
        listed,
        table,
        table.entries.as_slice(),
    );
    let third = check_fallback(allow_reserved, scope, locals, listed, table);
    either(first, either(second, third))
}

/// The first rule that a table breaks, where these are the names of its actions.
#[tactic(auto, using(elastic_ast::proofs::Typing::First::firsts))]
fn check_parts(
    allow_reserved: bool,
    scope: &Scope<'_>,
    locals: &LocalNames<'_>,
    free: &RegisterFree<'_>,
    listed: &NamePlaces,
    table: &Table,
) -> Option<Rule>
    requires first { AreFirst locals.now free.now }
    requires listed { HasSameNames table.now.actions listed.now }
    ensures { result ≡ table_breaks allow_reserved scope.now locals.now table.now }
{
    let first = check_keys(allow_reserved, scope, table.keys.as_slice());
    let second = check_actions(allow_reserved, locals, free, table.actions.as_slice());
    let third = check_rows(allow_reserved, scope, locals, listed, table);
    either(first, either(second, third))
}

/// The first rule that a table breaks.
pub fn check_table(
    alloc: Global,
    allow_reserved: bool,
    scope: &Scope<'_>,
    locals: &LocalNames<'_>,
    free: &RegisterFree<'_>,
    table: &Table,
) -> Result<(), Refusal>
    requires { AreFirst locals.now free.now }
    ensures fine { PassesOn (table_breaks allow_reserved scope.now locals.now table.now) result }
    ensures refused { RefusedBy (table_breaks allow_reserved scope.now locals.now table.now) result }
{
    let Ok(listed) = NamePlaces::of_all(alloc, table.actions.as_slice()) else {
        return Err(Refusal::Memory);
    };
    refusal_of(check_parts(allow_reserved, scope, locals, free, &listed, table))
}

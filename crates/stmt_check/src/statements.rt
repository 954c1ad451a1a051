//! What statements ask where they stand.

ghost use Rattle.std.specs.Prelude.{◌≡◌, ◌∷◌, []};
ghost use Rattle.elastic_ast.specs.Typing.Scope.{same};
ghost use Rattle.elastic_ast.specs.Typing.Demand.{first_broken};
ghost use Rattle.elastic_ast.specs.Typing.AskedOfNames.{asks_names};
ghost use Rattle.elastic_ast.specs.Typing.AskedInStatements.{no_action_name, register_type as register_type_of};
ghost use Rattle.expr_types.specs.Placed.{seen_type, scope_at};
ghost use Rattle.stmt_check.specs.PlaceRules.{register_breaks, args_break, may_be_called, called_breaks, call_breaks, loop_breaks, looped_scope, alike_breaks, read_breaks, write_breaks, stmt_breaks, stmts_break};

use crate::expressions::{
    alike, check_bits, check_index, check_known, check_lval, check_truth, either, index_fits,
    unless,
};
use elastic_ast::{Expr, Lval, Param, RegRef, Rule, Stmt};
use elx_bits::Name;
use expr_types::{Place, Sizes, Ty, bits_of, broken_name, is_index, lval_type, of_width};
use program_names::LocalNames;

/// Bits of the number of a cell.
const CELL_NUMBER_WIDTH: u8 = 32;

pub fn is_no_action(name: &Name) -> bool
    ensures { result ≡ same name.now no_action_name }
{
    name.as_slice() == b"NoAction".as_slice()
}

/// What a register asks, or one of an array of registers.
fn check_register(allow_reserved: bool, place: &Place<'_>, register: &RegRef) -> Option<Rule>
    ensures { result ≡ register_breaks allow_reserved place.now register.now }
{
    match place.scope.register_size(&register.name) {
        None => Some(Rule::UnknownName),
        Some(size) => {
            let index = register.index.as_ref();
            if !index_fits(place, size.as_ref(), index) {
                return Some(Rule::BadIndex);
            }
            check_index(allow_reserved, place, index)
        }
    }
}

/// The width of a register's cells.
fn register_type(place: &Place<'_>, register: &RegRef) -> Ty
    ensures { seen_type result ≡ register_type_of (scope_at place.now) register.now }
{
    of_width(place.scope.register_width(&register.name))
}

/// One argument for each parameter, in its width.
fn check_args(
    allow_reserved: bool,
    place: &Place<'_>,
    args: &[Expr],
    params: &[Param],
) -> Option<Rule>
    ensures { result ≡ args_break allow_reserved place.now args.now params.now }
{
    for (i, arg) in args.iter().enumerate() {
        match params.get(i) {
            None => return Some(Rule::BadCall),
            Some(param) => match check_bits(allow_reserved, place, arg, bits_of(param.width)) {
                Some(rule) => return Some(rule),
                None => {}
            },
        }
    }
    unless(params.len() <= args.len(), Rule::BadCall)
}

/// Whether an action with an index, or without one, may be called with the given one.
fn is_called(place: &Place<'_>, own: Option<&Name>, given: Option<&Name>) -> bool
    ensures { result ≡ may_be_called place.now own.entry given.entry }
{
    match own {
        None => given.is_none(),
        Some(_) => match given {
            None => false,
            Some(given) => is_index(place, given),
        },
    }
}

/// What the call of an action asks that has such an index and such parameters.
#[tactic(auto, using(elastic_ast::proofs::Typing::First::firsts))]
fn check_called(
    allow_reserved: bool,
    place: &Place<'_>,
    own: Option<&Name>,
    given: Option<&Name>,
    args: &[Expr],
    params: &[Param],
) -> Option<Rule>
    ensures { result ≡ called_breaks allow_reserved place.now own.entry given.entry args.now params.now }
{
    if !is_called(place, own, given) {
        return Some(Rule::BadIndex);
    }
    either(
        check_index(allow_reserved, place, given),
        check_args(allow_reserved, place, args, params),
    )
}

/// What a call asks.
fn check_call(
    allow_reserved: bool,
    place: &Place<'_>,
    locals: &LocalNames<'_>,
    action: &Name,
    index: Option<&Name>,
    args: &[Expr],
) -> Option<Rule>
    ensures { result ≡ call_breaks allow_reserved place.now locals.now action.now index.entry args.now }
{
    if is_no_action(action) {
        let none: &[Param] = &[];
        return check_called(allow_reserved, place, None, index, args, none);
    }
    match locals.action(action) {
        None => Some(Rule::UnknownName),
        Some(action) => {
            let own = action.index.as_ref();
            let params = action.params.as_slice();
            check_called(allow_reserved, place, own, index, args, params)
        }
    }
}

/// What the name of a loop's index asks, in a scope of its own.
fn check_index_name(allow_reserved: bool, index: &Name) -> Option<Rule>
    ensures { result ≡ first_broken allow_reserved (asks_names [] (index.now ∷ [])) }
{
    broken_name(allow_reserved, false, index.as_slice())
}

/// What the head of a loop asks.
fn check_loop(allow_reserved: bool, place: &Place<'_>, index: &Name, size: &Name) -> Option<Rule>
    ensures { result ≡ loop_breaks allow_reserved place.now index.now size.now }
{
    if place.index.is_some() {
        return Some(Rule::NestedLoop);
    }
    if !place.scope.is_symbol(size) {
        return Some(Rule::UnknownName);
    }
    check_index_name(allow_reserved, index)
}

/// The place of a loop's body.
fn in_loop<'a>(place: &Place<'a>, index: &'a Name, sizes: &'a [&'a Name]) -> Place<'a>
    ensures { scope_at result ≡ looped_scope place.now index.now sizes.now }
{
    Place {
        scope: place.scope,
        params: place.params,
        index: Some(index),
        sizes: Sizes::new(sizes),
    }
}

fn check_alike(allow_reserved: bool, left: Ty, right: Ty) -> Option<Rule>
    ensures { result ≡ alike_breaks allow_reserved left right }
{
    unless(alike(left, right), Rule::Width)
}

#[tactic(auto, using(elastic_ast::proofs::Typing::First::firsts))]
fn check_read(
    allow_reserved: bool,
    place: &Place<'_>,
    to: &Lval,
    register: &RegRef,
    cell: &Expr,
) -> Option<Rule>
    ensures { result ≡ read_breaks allow_reserved place.now to.now register.now cell.now }
{
    let own = check_alike(
        allow_reserved,
        lval_type(place.scope, to),
        register_type(place, register),
    );
    let third = check_bits(allow_reserved, place, cell, Ty::Bits(CELL_NUMBER_WIDTH));
    either(
        check_lval(allow_reserved, place, to),
        either(
            check_register(allow_reserved, place, register),
            either(third, own),
        ),
    )
}

#[tactic(auto, using(elastic_ast::proofs::Typing::First::firsts))]
fn check_write(
    allow_reserved: bool,
    place: &Place<'_>,
    register: &RegRef,
    cell: &Expr,
    value: &Expr,
) -> Option<Rule>
    ensures { result ≡ write_breaks allow_reserved place.now register.now cell.now value.now }
{
    let second = check_bits(allow_reserved, place, cell, Ty::Bits(CELL_NUMBER_WIDTH));
    let third = check_bits(allow_reserved, place, value, register_type(place, register));
    either(
        check_register(allow_reserved, place, register),
        either(second, third),
    )
}

/// The first rule that a statement breaks.
#[cycle(walk)]
#[tactic(auto, using(elastic_ast::proofs::SeenLaws::seen, elastic_ast::proofs::Typing::First::firsts))]
pub fn check_stmt(
    allow_reserved: bool,
    place: &Place<'_>,
    locals: &LocalNames<'_>,
    stmt: &Stmt,
) -> Option<Rule>
    ensures { result ≡ stmt_breaks allow_reserved place.now locals.now stmt.now }
{
    match stmt {
        Stmt::Block { body, .. } => check_stmts(allow_reserved, place, locals, body.as_slice()),
        Stmt::If { cond, yes, no } => {
            let first = check_truth(allow_reserved, place, cond);
            let second = check_stmts(allow_reserved, place, locals, yes.as_slice());
            match no {
                Some(no) => {
                    let third = check_stmts(allow_reserved, place, locals, no.as_slice());
                    either(first, either(second, third))
                }
                None => either(first, second),
            }
        }
        Stmt::For { index, size, body } => {
            let first = check_loop(allow_reserved, place, index, size);
            let sizes = [&*size];
            let inner = in_loop(&*place, &*index, sizes.as_slice());
            let second = check_stmts(allow_reserved, &inner, locals, body.as_slice());
            either(first, second)
        }
        Stmt::Assign { to, value } => {
            let width = lval_type(place.scope, to);
            either(
                check_lval(allow_reserved, place, to),
                check_bits(allow_reserved, place, value, width),
            )
        }
        Stmt::Read { to, reg, cell } => check_read(allow_reserved, place, to, reg, cell),
        Stmt::Write { reg, cell, value } => check_write(allow_reserved, place, reg, cell, value),
        Stmt::Valid { header, .. } => check_known(allow_reserved, place.scope.is_member(header)),
        Stmt::Call {
            action,
            index,
            args,
        } => check_call(
            allow_reserved,
            place,
            locals,
            action,
            index.as_ref(),
            args.as_slice(),
        ),
        Stmt::Apply(table) => check_known(allow_reserved, locals.table(table).is_some()),
    }
}

/// The first rule that statements break, in their order.
#[cycle(walk)]
#[tactic(auto, using(elastic_ast::proofs::SeenLaws::seen, elastic_ast::proofs::Typing::First::firsts))]
pub fn check_stmts(
    allow_reserved: bool,
    place: &Place<'_>,
    locals: &LocalNames<'_>,
    stmts: &[Stmt],
) -> Option<Rule>
    ensures { result ≡ stmts_break allow_reserved place.now locals.now stmts.now }
{
    for stmt in stmts {
        match check_stmt(allow_reserved, place, locals, stmt) {
            Some(rule) => return Some(rule),
            None => {}
        }
    }
    None
}

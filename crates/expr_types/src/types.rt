//! The type of an expression.

ghost use Rattle.std.specs.Prelude.{◌≡◌, ◌+◌, Some, None};
ghost use Rattle.elastic_ast.specs.Seen.{seen_expr};
ghost use Rattle.elastic_ast.specs.OperatorSorts.{sort_of, operator_of};
ghost use Rattle.elastic_ast.specs.Typing.Scope.{is_index as is_index_of};
ghost use Rattle.elastic_ast.specs.Typing.Types.{is_width as is_width_of, bits_of as bits_of_of, taking as taking_of, of_width as of_width_of, number_type as number_type_of, common_type as common_type_of, both_widths as both_widths_of, lie_within as lie_within_of, part_type as part_type_of, outcome as outcome_of, left_giver as left_of, right_giver as right_of, lval_type as lval_type_of, named_type as named_type_of, turned_type as turned_type_of, type_of as type_of_of};
ghost use Rattle.expr_types.specs.Scoped.{before_of};
ghost use Rattle.expr_types.specs.Placed.{seen_type, seen_sort, scope_at, names_in_place};

use crate::fields::{param_width, std_width};
use crate::place::Place;
use crate::scopes::Scope;
use elastic_ast::{Expr, Lval};
use elx_bits::Name;
use operator_table::by_code;

/// A value has at most so many bits.
const MOST_WIDTH: u16 = 128;

/// Bits of a hash.
const HASH_WIDTH: u8 = 32;

/// Bits of a width, bits that take their width from their place, a boolean, or none that is known.
#[derive(Clone, Copy, Debug, PartialEq, Eq)]
pub enum Ty {
    Bits(u8),
    Bare,
    Truth,
    Unknown,
}

/// What operands an operator takes, and what it gives.
#[derive(Clone, Copy, Debug, PartialEq, Eq)]
pub enum Sort {
    Logic,
    Comparison,
    Shift,
    Joining,
    Arithmetic,
}

macro_rules! sort {
    ([] $level:literal $signs:tt $sort:ident) => { Sort::$sort };
}

/// The sort of the operator of a code.
pub fn sort_at(op: u16) -> Sort
    ensures { seen_sort result ≡ sort_of (operator_of op) }
{
    by_code!(op, sort, Sort::Arithmetic)
}

/// Whether a value may have so many bits.
pub fn is_width(width: u16) -> bool
    ensures { result ≡ is_width_of width }
{
    1 <= width && width <= MOST_WIDTH
}

/// Bits of a number that is a width.
pub fn bits_of(width: u8) -> Ty
    ensures { seen_type result ≡ bits_of_of width }
{
    if is_width(width as u16) {
        Ty::Bits(width)
    } else {
        Ty::Unknown
    }
}

/// A type, which takes its width from another where it has none.
pub fn taking(own: Ty, giver: Ty) -> Ty
    ensures { seen_type result ≡ taking_of (seen_type own) (seen_type giver) }
{
    match own {
        Ty::Bare => giver,
        own => own,
    }
}

/// The type of what is declared with a width, where it is declared.
pub fn of_width(width: Option<u8>) -> Ty
    ensures { seen_type result ≡ of_width_of width }
{
    match width {
        Some(width) => bits_of(width),
        None => Ty::Unknown,
    }
}

/// The type of a number, with a width of its own or without.
fn number_type(width: Option<u8>) -> Ty
    ensures { seen_type result ≡ number_type_of width }
{
    match width {
        Some(width) => bits_of(width),
        None => Ty::Bare,
    }
}

/// What two operands of one width give.
fn common_type(left: Ty, right: Ty) -> Ty
    ensures { seen_type result ≡ common_type_of (seen_type left) (seen_type right) }
{
    match (left, right) {
        (Ty::Bits(one), Ty::Bits(other)) => { if one == other { left } else { Ty::Unknown } }
        (Ty::Bits(_), Ty::Bare) => left,
        (Ty::Bare, Ty::Bits(_)) => right,
        (Ty::Bare, Ty::Bare) => Ty::Bare,
        _ => Ty::Unknown,
    }
}

/// Two widths side by side.
fn both_widths(high: Ty, low: Ty) -> Ty
    ensures { seen_type result ≡ both_widths_of (seen_type high) (seen_type low) }
{
    match (high, low) {
        (Ty::Bits(high), Ty::Bits(low)) => {
            let sum = high as u16 + low as u16;
            if is_width(sum) {
                Ty::Bits(sum as u8)
            } else {
                Ty::Unknown
            }
        }
        _ => Ty::Unknown,
    }
}

/// Whether the bits from one down to another lie within so many.
pub fn lie_within(high: u8, low: u8, width: u8) -> bool
    ensures { result ≡ lie_within_of high low width }
{
    low <= high && high < width
}

/// From one bit down to another, where they lie within bits of a width.
fn part_type(high: u8, low: u8, of: Ty) -> Ty
    ensures { seen_type result ≡ part_type_of high low (seen_type of) }
{
    match of {
        Ty::Bits(width) => {
            if lie_within(high, low, width) {
                Ty::Bits(high + 1 - low)
            } else {
                Ty::Unknown
            }
        }
        _ => Ty::Unknown,
    }
}

/// What an operator of this sort gives for operands of two types.
fn outcome(sort: Sort, left: Ty, right: Ty) -> Ty
    ensures { seen_type result ≡ outcome_of (seen_sort sort) (seen_type left) (seen_type right) }
{
    match sort {
        Sort::Logic => Ty::Truth,
        Sort::Comparison => Ty::Truth,
        Sort::Shift => left,
        Sort::Joining => both_widths(left, right),
        Sort::Arithmetic => common_type(left, right),
    }
}

/// What the left operand takes its width from.
pub fn left_giver(sort: Sort, left: Ty, right: Ty) -> Ty
    ensures { seen_type result ≡ left_of (seen_sort sort) (seen_type left) (seen_type right) }
{
    match sort {
        Sort::Comparison | Sort::Arithmetic => right,
        _ => Ty::Bare,
    }
}

/// What the right operand takes its width from.
pub fn right_giver(sort: Sort, left: Ty, right: Ty) -> Ty
    ensures { seen_type result ≡ right_of (seen_sort sort) (seen_type left) (seen_type right) }
{
    match sort {
        Sort::Comparison | Sort::Arithmetic | Sort::Shift => left,
        _ => Ty::Bare,
    }
}

/// The type of what may be assigned to.
pub fn lval_type(scope: &Scope<'_>, place: &Lval) -> Ty
    ensures { seen_type result ≡ lval_type_of (before_of scope.now) place.now }
{
    match place {
        Lval::Header { header, field } => of_width(scope.header_field_width(header, field)),
        Lval::Meta { name, .. } => match scope.metadata_field(name) {
            Some(field) => bits_of(field.width),
            None => Ty::Unknown,
        },
        Lval::Std(name) => of_width(std_width(name)),
    }
}

/// Whether a name is that of the index around.
pub fn is_index(place: &Place<'_>, name: &Name) -> bool
    ensures { result ≡ is_index_of (scope_at place.now) name.now }
{
    match place.index {
        Some(index) => name.as_slice() == index.as_slice(),
        None => false,
    }
}

/// The type of a name, which is that of a parameter or a constant.
fn named_type(place: &Place<'_>, name: &Name) -> Ty
    ensures { seen_type result ≡ named_type_of (names_in_place place.now) name.now }
{
    match param_width(place.params, name) {
        Some(width) => bits_of(width),
        None => {
            if is_index(place, name) {
                Ty::Unknown
            } else {
                of_width(place.scope.constant_width(name))
            }
        }
    }
}

/// What a unary operator gives.
fn turned_type(sort: Sort, of: Ty) -> Ty
    ensures { seen_type result ≡ turned_type_of (seen_sort sort) (seen_type of) }
{
    match sort {
        Sort::Logic => Ty::Truth,
        _ => of,
    }
}

/// The type that an expression has by itself.
#[tactic(auto, using(elastic_ast::proofs::SeenLaws::seen))]
pub fn type_of(place: &Place<'_>, expr: &Expr) -> Ty
    ensures { seen_type result ≡ type_of_of (names_in_place place.now) (seen_expr expr.now) }
{
    match expr {
        Expr::Num { width, .. } => number_type(*width),
        Expr::Bool(_) => Ty::Truth,
        Expr::Named(name) => named_type(place, name),
        Expr::Field(field) => lval_type(place.scope, field),
        Expr::IsValid(_) => Ty::Truth,
        Expr::Unary { op, of } => {
            let of = type_of(place, of);
            turned_type(sort_at(*op), of)
        }
        Expr::Binary { op, left, right } => {
            let left = type_of(place, left);
            let right = type_of(place, right);
            outcome(sort_at(*op), left, right)
        }
        Expr::Cast { width, .. } => bits_of(*width),
        Expr::Slice { of, high, low } => {
            let of = type_of(place, of);
            part_type(*high, *low, of)
        }
        Expr::Hash { .. } => Ty::Bits(HASH_WIDTH),
    }
}

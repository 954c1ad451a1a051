//! What an expression asks where it stands.

ghost use Rattle.std.specs.Prelude.{◌≡◌, ◌∷◌, []};
ghost use Rattle.elastic_ast.specs.Typing.Scope.{or_else};
ghost use Rattle.elastic_ast.specs.Typing.Demand as demand;
ghost use Rattle.elastic_ast.specs.Typing.Demand.{first_broken, alike as alike_of, has_width as has_width_of, fits_type, is_truth as is_truth_of, may_be_truth as may_be_truth_of, is_cut as is_cut_of};
ghost use Rattle.elastic_ast.specs.Typing.AskedInExpressions.{asks_lval, asks_named, asks_number, asks_count, turned_giver as turned_giver_of, asks_turned, asks_sum, asks_cast};
ghost use Rattle.stmt_check.specs.PlaceRules.{sort_breaks, wide_breaks, slice_breaks, own_breaks, amount_breaks, has_its_index, index_breaks, element_breaks, expr_breaks, bits_break, truth_breaks};
ghost use Rattle.elastic_ast.specs.OperatorSorts.{Arithmetic};
ghost use Rattle.expr_types.specs.Placed.{seen_type, seen_sort, scope_at, unmet};

use elastic_ast::{Amount, Expr, Field, Lval, Rule};
use elx_bits::Name;
use expr_types::{
    Place, Scope, Sort, Ty, bits_of, is_index, is_width, left_giver, lie_within, param_width,
    right_giver, sort_at, std_width, taking, type_of,
};

/// The greatest number of cells, and the greatest modulus.
const MOST_NUMBER: u32 = 1_000_000_000;

/// Whether two types are alike: no bits of two widths.
pub fn alike(left: Ty, right: Ty) -> bool
    ensures { result ≡ alike_of (seen_type left) (seen_type right) }
{
    match (left, right) {
        (Ty::Bits(left), Ty::Bits(right)) => left == right,
        _ => true,
    }
}

pub fn has_width(of: Ty) -> bool
    ensures { result ≡ has_width_of (seen_type of) }
{
    match of {
        Ty::Bare => false,
        _ => true,
    }
}

pub fn is_truth(of: Ty) -> bool
    ensures { result ≡ is_truth_of (seen_type of) }
{
    match of {
        Ty::Truth => true,
        _ => false,
    }
}

fn may_be_truth(of: Ty) -> bool
    ensures { result ≡ may_be_truth_of (seen_type of) }
{
    match of {
        Ty::Unknown => true,
        of => is_truth(of),
    }
}

/// Whether a number is below 2 to a width.
fn fits(number: u128, of: Ty) -> bool
    ensures { result ≡ fits_type number (seen_type of) }
{
    match of {
        Ty::Bits(width) => {
            if width < 128 {
                number >> width == 0
            } else {
                true
            }
        }
        _ => true,
    }
}

fn is_cut(high: u8, low: u8, of: Ty) -> bool
    ensures { result ≡ is_cut_of high low (seen_type of) }
{
    match of {
        Ty::Bits(width) => lie_within(high, low, width),
        _ => low <= high,
    }
}

/// The first of two broken rules.
pub fn either(first: Option<Rule>, second: Option<Rule>) -> Option<Rule>
    ensures { result ≡ or_else first second }
{
    match first {
        Some(rule) => Some(rule),
        None => second,
    }
}

/// A rule, where it isn't met.
pub fn unless(met: bool, rule: Rule) -> Option<Rule>
    ensures { result ≡ unmet met rule }
{
    if met { None } else { Some(rule) }
}

/// What a number asks, which has a width of its own or is given one.
pub fn check_number(
    allow_reserved: bool,
    width: Option<u8>,
    number: u128,
    giver: Ty,
) -> Option<Rule>
    ensures { result ≡ first_broken allow_reserved (asks_number width number (seen_type giver)) }
{
    match width {
        Some(width) => {
            if !is_width(width as u16) {
                return Some(Rule::Width);
            }
            unless(fits(number, bits_of(width)), Rule::LiteralTooWide)
        }
        None => unless(fits(number, giver), Rule::LiteralTooWide),
    }
}

/// What two widths side by side ask.
fn check_sum(allow_reserved: bool, high: Ty, low: Ty) -> Option<Rule>
    ensures { result ≡ first_broken allow_reserved (asks_sum (seen_type high) (seen_type low)) }
{
    match (high, low) {
        (Ty::Bits(high), Ty::Bits(low)) => {
            unless(is_width(high as u16 + low as u16), Rule::Width)
        }
        _ => None,
    }
}

/// What two operands of one width ask.
fn check_sides(allow_reserved: bool, left: Ty, right: Ty) -> Option<Rule>
    ensures { result ≡ sort_breaks allow_reserved Arithmetic left right }
{
    if is_truth(left) || is_truth(right) {
        return Some(Rule::NotBool);
    }
    if !has_width(taking(left, right)) {
        return Some(Rule::NoWidth);
    }
    unless(alike(left, right), Rule::Width)
}

/// What an operator asks of its operands.
fn check_sort(allow_reserved: bool, sort: Sort, left: Ty, right: Ty) -> Option<Rule>
    ensures { result ≡ sort_breaks allow_reserved (seen_sort sort) left right }
{
    match sort {
        Sort::Logic => unless(may_be_truth(left) && may_be_truth(right), Rule::NotBool),
        Sort::Comparison => check_sides(allow_reserved, left, right),
        Sort::Arithmetic => check_sides(allow_reserved, left, right),
        Sort::Shift => {
            if is_truth(left) || is_truth(right) {
                return Some(Rule::NotBool);
            }
            unless(has_width(left), Rule::NoWidth)
        }
        Sort::Joining => {
            if is_truth(left) || is_truth(right) {
                return Some(Rule::NotBool);
            }
            if !has_width(left) || !has_width(right) {
                return Some(Rule::NoWidth);
            }
            check_sum(allow_reserved, left, right)
        }
    }
}

/// What the place of a unary operator gives its operand.
fn turned_giver(sort: Sort, giver: Ty) -> Ty
    ensures { seen_type result ≡ turned_giver_of (seen_sort sort) (seen_type giver) }
{
    match sort {
        Sort::Logic => Ty::Bare,
        _ => giver,
    }
}

/// What a unary operator asks of its operand.
fn check_turned(allow_reserved: bool, sort: Sort, of: Ty) -> Option<Rule>
    ensures { result ≡ first_broken allow_reserved (asks_turned (seen_sort sort) (seen_type of)) }
{
    match sort {
        Sort::Logic => unless(may_be_truth(of), Rule::NotBool),
        _ => unless(!is_truth(of), Rule::NotBool),
    }
}

/// What a cast asks of its operand.
fn check_cast(allow_reserved: bool, width: u8, of: Ty) -> Option<Rule>
    ensures { result ≡ first_broken allow_reserved (asks_cast width (seen_type of)) }
{
    unless(width == 1 || !is_truth(of), Rule::NotBool)
}

/// What bits of a width ask, where any width will do.
fn check_wide(allow_reserved: bool, of: Ty) -> Option<Rule>
    ensures { result ≡ wide_breaks allow_reserved of }
{
    if is_truth(of) {
        return Some(Rule::NotBool);
    }
    unless(has_width(of), Rule::NoWidth)
}

/// What a slice asks of its operand.
fn check_slice(allow_reserved: bool, high: u8, low: u8, of: Ty) -> Option<Rule>
    ensures { result ≡ slice_breaks allow_reserved high low of }
{
    if is_truth(of) {
        return Some(Rule::NotBool);
    }
    if !has_width(of) {
        return Some(Rule::NoWidth);
    }
    unless(is_cut(high, low, of), Rule::BadSlice)
}

/// What bits of a width ask, where they are wanted.
fn check_own(allow_reserved: bool, own: Ty, width: Ty) -> Option<Rule>
    ensures { result ≡ own_breaks allow_reserved own width }
{
    if is_truth(own) {
        return Some(Rule::NotBool);
    }
    unless(alike(own, width), Rule::Width)
}

/// What a boolean asks, where it is wanted.
fn check_boolean(allow_reserved: bool, own: Ty) -> Option<Rule>
    ensures { result ≡ first_broken allow_reserved (demand.Boolean (seen_type own) ∷ []) }
{
    unless(may_be_truth(own), Rule::NotBool)
}

/// Whether the name of what must be declared is known.
pub fn check_known(allow_reserved: bool, known: bool) -> Option<Rule>
    ensures { result ≡ first_broken allow_reserved (demand.Known known ∷ []) }
{
    unless(known, Rule::UnknownName)
}

/// What a name in an expression asks.
fn check_named(allow_reserved: bool, place: &Place<'_>, name: &Name) -> Option<Rule>
    ensures { result ≡ first_broken allow_reserved (asks_named (scope_at place.now) name.now) }
{
    if param_width(place.params, name).is_some() {
        return None;
    }
    if is_index(place, name) {
        return Some(Rule::BadIndex);
    }
    unless(
        place.scope.constant_width(name).is_some(),
        Rule::UnknownName,
    )
}

/// What a number of cells or a modulus asks.
pub fn check_amount(allow_reserved: bool, scope: &Scope<'_>, amount: &Amount) -> Option<Rule>
    ensures { result ≡ amount_breaks allow_reserved scope.now amount.now }
{
    match amount {
        Amount::Num(number) => unless(1 <= *number && *number <= MOST_NUMBER, Rule::BadAmount),
        Amount::Named(symbol) => unless(scope.is_symbol(symbol), Rule::UnknownName),
    }
}

/// What the first argument of `hash` asks.
fn check_count(allow_reserved: bool, place: &Place<'_>, count: &Amount) -> Option<Rule>
    ensures { result ≡ first_broken allow_reserved (asks_count (scope_at place.now) count.now) }
{
    match count {
        Amount::Num(_) => None,
        Amount::Named(index) => unless(is_index(place, index), Rule::UnknownName),
    }
}

/// Whether an array of this size, or what has none, stands with the right index.
pub fn index_fits(place: &Place<'_>, size: Option<&Name>, index: Option<&Name>) -> bool
    ensures { result ≡ has_its_index place.now size.entry index.entry }
{
    match size {
        None => match index {
            None => true,
            Some(_) => false,
        },
        Some(size) => match index {
            None => false,
            Some(index) => is_index(place, index) && place.sizes.are_all(size),
        },
    }
}

/// What stands in brackets is the index around.
pub fn check_index(allow_reserved: bool, place: &Place<'_>, index: Option<&Name>) -> Option<Rule>
    ensures { result ≡ index_breaks allow_reserved place.now index.entry }
{
    match index {
        None => None,
        Some(index) => unless(is_index(place, index), Rule::UnknownName),
    }
}

/// What a field of the metadata asks, or an element of one that is an array.
fn check_element(
    allow_reserved: bool,
    place: &Place<'_>,
    field: Option<&Field>,
    index: Option<&Name>,
) -> Option<Rule>
    ensures { result ≡ element_breaks allow_reserved place.now field.entry index.entry }
{
    match field {
        None => Some(Rule::UnknownName),
        Some(field) => {
            if !index_fits(place, field.size.as_ref(), index) {
                return Some(Rule::BadIndex);
            }
            check_index(allow_reserved, place, index)
        }
    }
}

/// What may be assigned to asks this.
pub fn check_lval(allow_reserved: bool, place: &Place<'_>, lval: &Lval) -> Option<Rule>
    ensures { result ≡ first_broken allow_reserved (asks_lval (scope_at place.now) lval.now) }
{
    match lval {
        Lval::Header { header, field } => unless(
            place.scope.header_field_width(header, field).is_some(),
            Rule::UnknownName,
        ),
        Lval::Meta { name, index } => check_element(
            allow_reserved,
            place,
            place.scope.metadata_field(name),
            index.as_ref(),
        ),
        Lval::Std(name) => unless(std_width(name).is_some(), Rule::UnknownName),
    }
}

/// The first rule that an expression breaks at a place that gives it a width.
#[tactic(auto, using(elastic_ast::proofs::SeenLaws::seen, elastic_ast::proofs::Typing::First::firsts))]
pub fn check_expr(allow_reserved: bool, place: &Place<'_>, expr: &Expr, giver: Ty) -> Option<Rule>
    ensures { result ≡ expr_breaks allow_reserved place.now expr.now giver }
{
    match expr {
        Expr::Num { width, value } => check_number(allow_reserved, *width, *value, giver),
        Expr::Bool(_) => None,
        Expr::Named(name) => check_named(allow_reserved, place, name),
        Expr::Field(lval) => check_lval(allow_reserved, place, lval),
        Expr::IsValid(header) => check_known(allow_reserved, place.scope.is_member(header)),
        Expr::Unary { op, of } => {
            let sort = sort_at(*op);
            let own = check_turned(allow_reserved, sort, type_of(place, of));
            either(
                check_expr(allow_reserved, place, of, turned_giver(sort, giver)),
                own,
            )
        }
        Expr::Binary { op, left, right } => {
            let sort = sort_at(*op);
            let one = type_of(place, left);
            let other = type_of(place, right);
            let first = check_expr(allow_reserved, place, left, left_giver(sort, one, other));
            let second = check_expr(allow_reserved, place, right, right_giver(sort, one, other));
            either(
                first,
                either(second, check_sort(allow_reserved, sort, one, other)),
            )
        }
        Expr::Cast { width, of } => {
            if !is_width(*width as u16) {
                return Some(Rule::Width);
            }
            let own = check_cast(allow_reserved, *width, type_of(place, of));
            either(check_expr(allow_reserved, place, of, bits_of(*width)), own)
        }
        Expr::Slice { of, high, low } => {
            let own = check_slice(allow_reserved, *high, *low, type_of(place, of));
            either(check_expr(allow_reserved, place, of, Ty::Bare), own)
        }
        Expr::Hash { k, of, modulus } => {
            let first = check_expr(allow_reserved, place, of, Ty::Bare);
            let second = check_count(allow_reserved, place, k);
            let third = check_amount(allow_reserved, place.scope, modulus);
            let own = check_wide(allow_reserved, type_of(place, of));
            either(first, either(second, either(third, own)))
        }
    }
}

/// The first rule that an expression breaks where bits of a width are wanted.
#[tactic(auto, using(elastic_ast::proofs::Typing::First::firsts))]
pub fn check_bits(allow_reserved: bool, place: &Place<'_>, expr: &Expr, width: Ty) -> Option<Rule>
    ensures { result ≡ bits_break allow_reserved place.now expr.now width }
{
    let own = check_own(allow_reserved, type_of(place, expr), width);
    either(check_expr(allow_reserved, place, expr, width), own)
}

/// The first rule that an expression breaks where a boolean is wanted.
#[tactic(auto, using(elastic_ast::proofs::Typing::First::firsts))]
pub fn check_truth(allow_reserved: bool, place: &Place<'_>, expr: &Expr) -> Option<Rule>
    ensures { result ≡ truth_breaks allow_reserved place.now expr.now }
{
    let own = check_boolean(allow_reserved, type_of(place, expr));
    either(check_expr(allow_reserved, place, expr, Ty::Bare), own)
}

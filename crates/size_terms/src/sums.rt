//! Sums of sizes, term by term.

ghost use Rattle.std.specs.Prelude.{◌≡◌, ◌≤◌, ◌<◌, ◌+◌, ◌*◌, ◌^◌, true, pos, neg_ℤ, unsigned_abs, length, map, IfOk};
ghost use Rattle.std.specs.List.{list_all};
ghost use Rattle.size_terms.specs.Rows.{coefficient_weight};
ghost use Rattle.elastic_ast.specs.Sizes.SizeSums.{negated_if};
ghost use Rattle.size_terms.specs.Growth.{Grows, IsZero, Negates, bulk, is_near, GrowsBySymbol, GrowsByTerm, GrowsByTerms};
ghost use Rattle.size_terms.specs.SumLimits.{most_bulk};
ghost use Rattle.elastic_ast.specs.Typing.LanguageLimits.{most_terms};

use crate::places::Places;
use elastic_ast::LinTerm;
use elx_bits::Name;
use std::alloc::{AllocError, Global};

/// A sum of sizes: one coefficient a symbol, and a constant.
#[derive(Drop)]
pub struct Sum {
    pub by: Vec<i128>,
    pub constant: i128,
}

/// A number under two signs.
pub fn signed_number(number: u64, first: bool, second: bool) -> i128
    ensures { result ≡ negated_if first (negated_if second (pos number)) }
{
    if first == second {
        i128::from(number)
    } else {
        -i128::from(number)
    }
}

/// Adds a number times the size of a symbol.
fn add_to_symbol(places: &Places<'_>, sum: &mut Sum, symbol: &Name, number: i128)
    requires dense { length sum.old.by.items ≡ length places.now }
    requires small { bulk sum.old + unsigned_abs number < 2 ^ 100 }
    ensures { GrowsBySymbol places.now sum.old sum.new symbol.now number }
{
    if let Some(place) = places.place_of(symbol) {
        sum.by[place] += number;
    }
}

/// Adds a number.
fn add_number(sum: &mut Sum, number: i128)
    requires { bulk sum.old + unsigned_abs number < 2 ^ 100 }
    ensures { Grows sum.old sum.new (λ sizes. number) (unsigned_abs number) }
{
    sum.constant += number;
}

/// Adds a term, or takes it away.
pub fn add_term(places: &Places<'_>, sum: &mut Sum, term: &LinTerm, minus: bool)
    requires dense { length sum.old.by.items ≡ length places.now }
    requires small { bulk sum.old ≤ 2 * most_bulk }
    requires near { is_near term.now ≡ true }
    ensures { GrowsByTerm places.now sum.old sum.new minus term.now }
{
    let number = signed_number(term.by, minus, term.minus);
    match &term.symbol {
        Some(symbol) => add_to_symbol(places, sum, symbol, number),
        None => add_number(sum, number),
    }
}

/// Adds terms, or takes them away.
pub fn add_terms(places: &Places<'_>, sum: &mut Sum, terms: &[LinTerm], minus: bool)
    requires dense { length sum.old.by.items ≡ length places.now }
    requires small { bulk sum.old ≤ most_bulk }
    requires few { length terms.now ≤ most_terms }
    requires near { list_all is_near terms.now ≡ true }
    ensures { GrowsByTerms places.now sum.old sum.new minus terms.now }
{
    for term in terms {
        add_term(places, sum, term, minus);
    }
}

/// The sum of nothing, over some number of symbols.
pub fn zero_sum(alloc: Global, symbols: usize) -> Result<Sum, AllocError>
    ensures { IfOk result (λ sum. IsZero sum symbols) }
{
    let by = vec![in alloc; 0i128; symbols]?;
    Ok(Sum { by, constant: 0 })
}

/// A sum with its sign turned.
pub fn negated(alloc: Global, sum: &Sum) -> Result<Sum, AllocError>
    requires { bulk sum.now ≤ most_bulk }
    ensures { IfOk result (λ other. Negates sum.now other) }
{
    let by = negated_numbers(alloc, sum.by.as_slice())?;
    Ok(Sum {
        by,
        constant: -sum.constant,
    })
}

fn negated_numbers(alloc: Global, numbers: &[i128]) -> Result<Vec<i128>, AllocError>
    requires { coefficient_weight numbers.now ≤ most_bulk }
    ensures { IfOk result (λ other. other.items ≡ map neg_ℤ numbers.now) }
{
    let mut other = Vec::new(alloc);
    for number in numbers {
        other.push(-*number)?;
    }
    Ok(other)
}

//! What rows and terms are worth at given sizes.

ghost use Rattle.std.specs.Prelude.{◌≡◌, ◌≤◌, ◌<◌, ◌*◌, ◌^◌, ◌↔◌, IsTrue, true, length, All, unsigned_abs, pos, ◌*ℤ◌};
ghost use Rattle.std.specs.List.{list_all};
ghost use Rattle.elastic_ast.specs.Sizes.SizeSums.{step_value};
ghost use Rattle.elastic_ast.specs.Typing.LanguageLimits.{most_number, most_terms};
ghost use Rattle.size_terms.specs.Rows.{dot, coefficient_weight, worth, table_worth, tables_worth, is_near_pair, IsNearTable, IsShort, RowHolds, RowsHold, OneHolds, OnesHold, TermsHold, AreShort};
ghost use Rattle.size_terms.specs.SumLimits.{most_bulk};

use crate::sums::signed_number;
use elastic_ast::{Linear, Sizes, Steps, Terms};

/// A size times a coefficient.
fn product(size: u64, by: i128) -> i128
    requires { unsigned_abs by ≤ most_bulk }
    ensures { result ≡ pos size *ℤ by }
{
    i128::from(size) * by
}

/// Each coefficient times the size of its symbol, added up.
fn dot_of(by: &[i128], sizes: &[u64]) -> i128
    requires dense { length by.now ≡ length sizes.now }
    requires small { coefficient_weight by.now ≤ most_bulk }
    ensures value { result ≡ dot by.now sizes.now }
    ensures most { unsigned_abs result ≤ coefficient_weight by.now * 2 ^ 64 }
{
    let mut sum = 0i128;
    for i in 0..by.len() {
        sum += product(sizes[i], by[i]);
    }
    sum
}

/// The value of the last key of a step table that isn't above a size.
fn value_at(pairs: &[(u64, u64)], size: u64) -> u64
    requires near { list_all is_near_pair pairs.now ≡ true }
    ensures value { result ≡ step_value size 0 pairs.now }
    ensures most { result ≤ most_number }
{
    let mut value = 0;
    for pair in pairs {
        if pair.0 <= size {
            value = pair.1;
        }
    }
    value
}

/// What a step table gives at these sizes.
fn step_of(table: &Steps, sizes: &[u64]) -> i128
    requires { IsNearTable (length sizes.now) table.now }
    ensures value { result ≡ table_worth sizes.now table.now }
    ensures most { unsigned_abs result ≤ most_number }
{
    let value = value_at(table.pairs.as_slice(), sizes[table.symbol as usize]);
    signed_number(value, table.minus, false)
}

/// What step tables give at these sizes, added up.
fn steps_of(tables: &[Steps], sizes: &[u64]) -> i128
    requires few { length tables.now ≤ most_terms }
    requires near { All (IsNearTable (length sizes.now)) tables.now }
    ensures value { result ≡ tables_worth sizes.now tables.now }
    ensures most { unsigned_abs result ≤ most_bulk }
{
    let mut sum = 0i128;
    for table in tables {
        sum += step_of(table, sizes);
    }
    sum
}

/// Whether a row holds at these sizes.
fn row_holds(row: &Linear, sizes: &[u64]) -> bool
    requires { IsShort (length sizes.now) row.now.by row.now.most }
    ensures { IsTrue result ↔ RowHolds sizes.now row.now }
{
    dot_of(row.by.as_slice(), sizes) <= row.most
}

/// Whether every row holds at these sizes.
fn rows_hold(rows: &[Linear], sizes: &[u64]) -> bool
    requires { All (λ row. IsShort (length sizes.now) row.by row.most) rows.now }
    ensures { IsTrue result ↔ RowsHold rows.now sizes.now }
{
    for row in rows {
        if !row_holds(row, sizes) {
            return false;
        }
    }
    true
}

/// Whether the symbol of this number has a size of at least 1.
fn one_holds(place: u32, sizes: &[u64]) -> bool
    requires { place < length sizes.now }
    ensures { IsTrue result ↔ OneHolds sizes.now place }
{
    sizes[place as usize] >= 1
}

/// Whether each symbol of these numbers has a size of at least 1.
fn ones_hold(ones: &[u32], sizes: &[u64]) -> bool
    requires { All (λ place. place < length sizes.now) ones.now }
    ensures { IsTrue result ↔ OnesHold sizes.now ones.now }
{
    for place in ones {
        if !one_holds(*place, sizes) {
            return false;
        }
    }
    true
}

/// Whether sizes meet the assume clauses, and the rule that what counts cells or is a modulus is at least 1.
///
/// There is one size per symbol, and the terms are those that `terms` gave.
pub fn holds(terms: &Terms, sizes: &Sizes) -> bool
    requires dense { length sizes.now.values ≡ length terms.now.symbols }
    requires short { AreShort terms.now }
    ensures { IsTrue result ↔ TermsHold terms.now sizes.now.values }
{
    let sizes = sizes.values.as_slice();
    rows_hold(terms.rows.as_slice(), sizes) && ones_hold(terms.ones.as_slice(), sizes)
}

/// The utility at these sizes: the sum of the terms of `maximize`.
///
/// There is one size per symbol, and the terms are those that `terms` gave.
#[tactic(auto, using(crate::proofs::SumLaws::sum_of_three))]
pub fn utility(terms: &Terms, sizes: &Sizes) -> i128
    requires dense { length sizes.now.values ≡ length terms.now.symbols }
    requires short { AreShort terms.now }
    ensures { result ≡ worth terms.now sizes.now.values }
{
    let sizes = sizes.values.as_slice();
    let linear = terms.base + dot_of(terms.by.as_slice(), sizes);
    linear + steps_of(terms.steps.as_slice(), sizes)
}

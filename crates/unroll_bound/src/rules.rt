//! What single rules say of a size.

ghost use Rattle.std.specs.Prelude.{◌≡◌, ◌≤◌, [], length, get_or, pos, unsigned_abs, All};
ghost use Rattle.std.specs.List.{list_all};
ghost use Rattle.size_terms.specs.Rows.{is_whole as is_whole_of, IsShort};
ghost use Rattle.size_terms.specs.SumLimits.{most_right_side};
ghost use Rattle.unroll_bound.specs.SizeRules.{lesser as lesser_of, share as share_of, most_times, row_bound, rows_bound};
ghost use Rattle.unroll_bound.specs.SymbolLists.{IsListOf, Changes};

use elastic_ast::Linear;

/// The lesser of two bounds, where a bound may be missing.
pub fn lesser(bound: Option<u128>, other: Option<u128>) -> Option<u128>
    ensures { result ≡ lesser_of bound other }
{
    match (bound, other) {
        (Some(bound), Some(other)) => Some(bound.min(other)),
        (None, other) => other,
        (bound, None) => bound,
    }
}

/// How many of so much each of this many gets, where there are any.
pub fn share(amount: u128, among: u128) -> Option<u128>
    ensures { result ≡ share_of amount among }
{
    amount.checked_div(among)
}

/// The greatest size of which `by` times are at most a number, and 0 where that number is negative.
fn most_at(most: i128, by: i128) -> Option<u128>
    requires { unsigned_abs most ≤ most_right_side }
    ensures { result ≡ most_times most by }
{
    if by <= 0 {
        None
    } else if most < 0 {
        Some(0)
    } else {
        Some(most.unsigned_abs() / by.unsigned_abs())
    }
}

fn is_whole(by: i128) -> bool
    ensures { result ≡ is_whole_of by }
{
    by >= 0
}

/// Whether a row has no negative coefficient.
fn is_whole_row(row: &Linear) -> bool
    ensures { result ≡ list_all is_whole_of row.now.by }
{
    row.by.as_slice().iter().all(|by| is_whole(*by))
}

/// Lowers each bound to what a row without negative coefficients says.
fn lower_each(found: &mut [Option<u128>], by: &[i128], most: i128)
    requires { IsShort (length found.old) by.now most }
    ensures { Changes (λ symbol bound. lesser_of (most_times most (get_or by.now symbol (pos 0))) bound) found.old found.new }
{
    for i in 0..by.len() {
        found[i] = lesser(most_at(most, by[i]), found[i]);
    }
}

/// Lowers each bound to what a row says.
fn lower_by_row(found: &mut [Option<u128>], row: &Linear)
    requires { IsShort (length found.old) row.now.by row.now.most }
    ensures { Changes (λ symbol bound. lesser_of (row_bound symbol row.now) bound) found.old found.new }
{
    if is_whole_row(row) {
        lower_each(found, row.by.as_slice(), row.most);
    }
}

/// Lowers each bound, of which there is none yet, to what the rows say.
pub fn lower_by_rows(found: &mut [Option<u128>], rows: &[Linear])
    requires short { All (λ row. IsShort (length found.old) row.by row.most) rows.now }
    requires unset { IsListOf (length found.old) (λ symbol. rows_bound symbol []) found.old }
    ensures { IsListOf (length found.old) (λ symbol. rows_bound symbol rows.now) found.new }
{
    for i in (0..rows.len()).rev() {
        lower_by_row(found, &rows[i]);
    }
}

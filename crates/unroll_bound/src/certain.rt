//! The symbols that are surely at least 1, by the terms of a program.

ghost use Rattle.std.specs.Prelude.{◌≡◌, ◌<◌, ◌||◌, ◌&&◌, ◌==◌, [], ℕ, nat_eq, length, get_or, pos, count_by, All, IfOk, Some, List};
ghost use Rattle.std.specs.List.{list_any};
ghost use Rattle.elastic_ast.specs.declared.flat.Terms.{Terms as SomeTerms};
ghost use Rattle.size_terms.specs.Rows.{IsShort, AreShort};
ghost use Rattle.unit_flow.specs.SoundUnits.{IsLoopSize};
ghost use Rattle.unroll_bound.specs.SizeRules.{is_nonzero as is_nonzero_of, is_negative as is_negative_of, needs_one, surely_exists};
ghost use Rattle.unroll_bound.specs.SymbolLists.{IsListOf, Changes};

use elastic_ast::{Linear, Terms};
use std::alloc::{AllocError, Global};

fn is_negative(number: i128) -> bool
    ensures { result ≡ is_negative_of number }
{
    number < 0
}

fn is_nonzero(number: i128) -> bool
    ensures { result ≡ is_nonzero_of number }
{
    number != 0
}

fn either(one: bool, other: bool) -> bool
    ensures { result ≡ (one || other) }
{
    one || other
}

/// How many coefficients aren't 0.
fn nonzeros(by: &[i128]) -> usize
    ensures { result ≡ count_by is_nonzero_of by.now }
{
    by.iter().filter(|by| is_nonzero(**by)).count()
}

/// Marks the symbols of negative coefficients.
fn mark_negative(marks: &mut [bool], row: &Linear)
    requires { IsShort (length marks.old) row.now.by row.now.most }
    ensures { Changes (λ symbol mark. is_negative_of (get_or row.now.by symbol (pos 0)) || mark) marks.old marks.new }
{
    let by = row.by.as_slice();
    for i in 0..by.len() {
        marks[i] = either(is_negative(by[i]), marks[i]);
    }
}

/// Whether a row has one coefficient that isn't 0, and a negative number on the right.
fn is_lone_row(row: &Linear) -> bool
    ensures { result ≡ (count_by is_nonzero_of row.now.by == 1 && is_negative_of row.now.most) }
{
    nonzeros(row.by.as_slice()) == 1 && is_negative(row.most)
}

/// Marks the symbol of which a row asks for a size of at least 1, if there is one.
fn mark_row(marks: &mut [bool], row: &Linear)
    requires { IsShort (length marks.old) row.now.by row.now.most }
    ensures { Changes (λ symbol mark. needs_one symbol row.now || mark) marks.old marks.new }
{
    if is_lone_row(row) {
        mark_negative(marks, row);
    }
}

/// Marks each symbol of which a row asks for a size of at least 1.
fn mark_rows(marks: &mut [bool], rows: &[Linear])
    requires short { All (λ row. IsShort (length marks.old) row.by row.most) rows.now }
    requires unset { IsListOf (length marks.old) (λ symbol. list_any (needs_one symbol) []) marks.old }
    ensures { IsListOf (length marks.old) (λ symbol. list_any (needs_one symbol) rows.now) marks.new }
{
    for i in (0..rows.len()).rev() {
        mark_row(marks, &rows[i]);
    }
}

fn mark_one(marks: &mut [bool], one: u32)
    requires { one < length marks.old }
    ensures { Changes (λ symbol mark. nat_eq symbol one || mark) marks.old marks.new }
{
    marks[one as usize] = true;
}

/// Marks the symbols of these numbers.
fn mark_ones(marks: &mut [bool], ones: &[u32])
    requires within { All (λ one. one < length marks.old) ones.now }
    ensures { Changes (λ symbol mark. list_any (nat_eq symbol) ones.now || mark) marks.old marks.new }
{
    for i in (0..ones.len()).rev() {
        mark_one(marks, ones[i]);
    }
}

/// The symbols whose registers surely exist.
pub fn certain_symbols(alloc: Global, terms: &Terms) -> Result<Vec<bool>, AllocError>
    requires { AreShort terms.now }
    ensures { IfOk result (λ marks. IsListOf (length terms.now.symbols) (λ symbol. surely_exists terms.now (Some symbol)) marks.items) }
{
    let mut marks = vec![in alloc; false; terms.symbols.as_slice().len()]?;
    mark_rows(marks.as_mut_slice(), terms.rows.as_slice());
    mark_ones(marks.as_mut_slice(), terms.ones.as_slice());
    Ok(marks)
}

/// Whether the register of a unit in a loop over this size surely exists.
pub fn surely(certain: &[bool], size: Option<u32>) -> bool
    requires { IsLoopSize (length certain.now) size }
    ensures { (terms : SomeTerms)
        → IsListOf (length certain.now) (λ symbol. surely_exists terms (Some symbol)) certain.now
        → result ≡ surely_exists terms size }
{
    match size {
        None => true,
        Some(symbol) => certain[symbol as usize],
    }
}

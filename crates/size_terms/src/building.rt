//! The terms of a program.

ghost use Rattle.std.specs.Prelude.{◌≡◌, ◌≤◌, ◌<◌, ◌*◌, ◌^◌, ◌++◌, true, [], IfOk, IfSome, OnOk, length};
ghost use Rattle.std.specs.List.{list_all};
ghost use Rattle.elastic_ast.specs.Seen.{seen_decl, seen_decls};
ghost use Rattle.elastic_ast.specs.Sizes.SizeSums.{symbol_name, symbols_of, comps_of as comps_of_decl, comparisons, utility_terms, utility};
ghost use Rattle.width_check.specs.Sound.{IsSound};
ghost use Rattle.size_terms.specs.Rows.{AreShort, worth};
ghost use Rattle.size_terms.specs.Coefficients.{rows_of};
ghost use Rattle.size_terms.specs.Ones.{ones_of};
ghost use Rattle.size_terms.specs.Building.{AddsComps, is_short, is_near_util, IsLinearPart};
ghost use Rattle.size_terms.specs.Tables.{tables_of};
ghost use Rattle.size_terms.specs.Growth.{bulk, GrowsByUtility};
ghost use Rattle.size_terms.specs.RowsMean.{RowsSayComparisons};
ghost use Rattle.size_terms.specs.SumLimits.{most_bulk};
ghost use Rattle.elastic_ast.specs.Typing.LanguageLimits.{most_terms};
ghost use Rattle.size_terms.specs.TermsMean.{AreAssumeRows, IsUtilityOf, SayAssumes, SayUtility};

use crate::comparisons::push_comparison;
use crate::ones::ones;
use crate::places::Places;
use crate::sums::{Sum, add_term, zero_sum};
use crate::tables::step_tables;
use elastic_ast::{Comp, Decl, Linear, Steps, Terms, UtilTerm};
use elx_bits::{Items, Name};
use std::alloc::{AllocError, Global};
use width_check::{Checked, program};

/// A utility: its linear terms as a sum, and its step tables.
#[derive(Drop)]
struct Utility {
    sum: Sum,
    tables: Items<Steps>,
}

/// What the terms of a program are made of, its symbols aside.
#[derive(Drop)]
struct Parts {
    rows: Items<Linear>,
    ones: Items<u32>,
    utility: Utility,
}

/// The names of the symbols, in the order of declaration.
fn symbol_names(alloc: Global, decls: &[Decl]) -> Result<Items<Name>, AllocError>
    ensures { IfOk result (λ names. names ≡ symbols_of (seen_decls decls.now)) }
{
    let mut names = Items::new(alloc);
    for decl in decls {
        push_symbol(alloc, &mut names, decl)?;
    }
    Ok(names)
}

fn push_symbol(alloc: Global, names: &mut Items<Name>, decl: &Decl) -> Result<(), AllocError>
    ensures { OnOk result (names.new ≡ names.old ++ symbol_name (seen_decl decl.now)) }
{
    if let Decl::Symbol(name) = decl {
        let copy = Name::of(alloc, name.as_slice())?;
        names.push(copy)?;
    }
    Ok(())
}

/// Adds the rows of comparisons.
fn push_comparisons(
    alloc: Global,
    places: &Places<'_>,
    symbols: usize,
    rows: &mut Items<Linear>,
    comps: &[Comp],
) -> Result<(), AllocError>
    requires dense { symbols ≡ length places.now }
    requires short { list_all is_short comps.now ≡ true }
    ensures { OnOk result (AddsComps places.now rows.old rows.new comps.now) }
{
    for comp in comps {
        push_comparison(alloc, places, symbols, rows, comp)?;
    }
    Ok(())
}

/// The rows of all assume clauses.
fn assume_rows(
    alloc: Global,
    places: &Places<'_>,
    symbols: usize,
    decls: &[Decl],
) -> Result<Items<Linear>, AllocError>
    requires dense { symbols ≡ length places.now }
    requires short { list_all is_short (comparisons (seen_decls decls.now)) ≡ true }
    ensures { IfOk result (AreAssumeRows places.now (seen_decls decls.now)) }
{
    try_room(alloc, symbols, decls)?;
    let mut rows = Items::new(alloc);
    for decl in decls {
        push_comparisons(alloc, places, symbols, &mut rows, comps_of(decl))?;
    }
    Ok(rows)
}

/// The comparisons of a declaration.
fn comps_of<'a>(decl: &'a Decl) -> &'a [Comp]
    ensures { result.now ≡ comps_of_decl (seen_decl decl.now) }
{
    match decl {
        Decl::Assume(comps) => comps.as_slice(),
        _ => &[],
    }
}

/// How many comparisons the assume clauses make, where the number can be held.
fn comparison_count(decls: &[Decl]) -> Option<usize>
    ensures { IfSome result (λ count. count ≡ length (comparisons (seen_decls decls.now))) }
{
    let mut count = 0usize;
    for decl in decls {
        match count.checked_add(comps_of(decl).len()) {
            Some(sum) => count = sum,
            None => return None,
        }
    }
    Some(count)
}

/// Takes the memory for a row of each comparison, and gives it back: where there is too little for all rows, none is begun.
fn try_room(alloc: Global, symbols: usize, decls: &[Decl]) -> Result<(), AllocError>
    ensures { OnOk result (symbols * length (comparisons (seen_decls decls.now)) < 2 ^ 64) }
{
    let Some(count) = comparison_count(decls) else {
        return Err(AllocError);
    };
    let Some(numbers) = symbols.checked_mul(count) else {
        return Err(AllocError);
    };
    let mut room: Vec<i128> = Vec::new(alloc);
    room.reserve(numbers)
}

/// The terms of the utility, none where none is declared.
fn util_terms_of<'a>(decls: &'a [Decl]) -> &'a [UtilTerm]
    ensures { result.now ≡ utility_terms (seen_decls decls.now) }
{
    for decl in decls {
        if let Decl::Maximize(terms) = decl {
            return terms.as_slice();
        }
    }
    &[]
}

/// Adds a term of the utility, if it is no step table.
fn add_util(places: &Places<'_>, sum: &mut Sum, term: &UtilTerm)
    requires dense { length sum.old.by.items ≡ length places.now }
    requires small { bulk sum.old ≤ most_bulk }
    requires near { is_near_util places.now term.now ≡ true }
    ensures { GrowsByUtility places.now sum.old sum.new term.now }
{
    if let UtilTerm::Lin(term) = term {
        add_term(places, sum, term, false);
    }
}

/// The utility without its step tables, as a sum.
fn utility_sum(
    alloc: Global,
    places: &Places<'_>,
    symbols: usize,
    terms: &[UtilTerm],
) -> Result<Sum, AllocError>
    requires dense { symbols ≡ length places.now }
    requires few { length terms.now ≤ most_terms }
    requires near { list_all (is_near_util places.now) terms.now ≡ true }
    ensures { IfOk result (IsLinearPart places.now terms.now) }
{
    let mut sum = zero_sum(alloc, symbols)?;
    for term in terms {
        add_util(places, &mut sum, term);
    }
    Ok(sum)
}

/// What a checked program says of its sizes: its symbols in the order of declaration, a row or two for each comparison of
/// its assume clauses in the order of the text, the numbers of the symbols that count cells or are a modulus, and its utility
/// with the step tables in the order of the text. The rows hold at sizes, and those numbers are at least 1, exactly where the
/// assume clauses are met; the utility is worth what the program's is. The one error is want of memory.
pub fn terms(alloc: Global, checked: &Checked) -> Result<Terms, AllocError>
    ensures symbols { IfOk result (λ terms. terms.symbols ≡ symbols_of (seen_decls checked.now)) }
    ensures rows { IfOk result (λ terms. terms.rows ≡ rows_of (seen_decls checked.now)) }
    ensures ones { IfOk result (λ terms. terms.ones ≡ ones_of (seen_decls checked.now)) }
    ensures tables { IfOk result (λ terms. terms.steps ≡ tables_of (seen_decls checked.now)) }
    ensures assumes { IfOk result (SayAssumes (seen_decls checked.now)) }
    ensures utility { IfOk result (SayUtility (seen_decls checked.now)) }
    ensures short { IfOk result AreShort }
{
    let decls = program(checked).decls.as_slice();
    let symbols = symbol_names(alloc, decls)?;
    let parts = parts_of(alloc, symbols.as_slice(), decls)?;
    let Parts {
        rows,
        ones,
        utility,
    } = parts;
    let Utility { sum, tables } = utility;
    let Sum { by, constant } = sum;
    Ok(Terms {
        symbols,
        rows,
        ones,
        base: constant,
        by: Items::from_vec(by),
        steps: tables,
    })
}

/// The rows of a program hold at sizes exactly where every comparison is true. It holds of the definitions, and takes no
/// step.
pub fn rows_say_comparisons()
    ensures { RowsSayComparisons }
{}

/// The rows of declarations over their symbols, what they count, and their utility.
fn parts_of(alloc: Global, symbols: &[Name], decls: &[Decl]) -> Result<Parts, AllocError>
    requires sound { IsSound (seen_decls decls.now) }
    requires given { symbols.now ≡ symbols_of (seen_decls decls.now) }
    ensures rows { IfOk result (λ parts. AreAssumeRows symbols.now (seen_decls decls.now) parts.rows) }
    ensures ones { IfOk result (λ parts. parts.ones ≡ ones_of (seen_decls decls.now)) }
    ensures utility { IfOk result (λ parts. IsUtilityOf symbols.now (seen_decls decls.now) parts.utility) }
{
    let places = Places::of(alloc, symbols)?;
    let rows = assume_rows(alloc, &places, symbols.len(), decls)?;
    let ones = ones(alloc, &places, symbols.len(), decls)?;
    let terms = util_terms_of(decls);
    let sum = utility_sum(alloc, &places, symbols.len(), terms)?;
    let tables = step_tables(alloc, &places, terms)?;
    Ok(Parts {
        rows,
        ones,
        utility: Utility { sum, tables },
    })
}

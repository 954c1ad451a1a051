//! The rows of comparisons.

ghost use Rattle.std.specs.Prelude.{◌≡◌, ◌≤◌, true, [], ◌∷◌, ◌++◌, length, IfOk, OnOk};
ghost use Rattle.size_terms.specs.Growth.{bulk};
ghost use Rattle.size_terms.specs.Building.{AddsComps, IsDifference, is_short, row_of_sum, rows_of_sum};
ghost use Rattle.elastic_ast.specs.declared.declarations.Rel.TheVariants as rel;
ghost use Rattle.size_terms.specs.SumLimits.{most_bulk};

use crate::places::Places;
use crate::sums::{Sum, add_terms, negated, zero_sum};
use elastic_ast::{Comp, Linear, Rel};
use elx_bits::Items;
use std::alloc::{AllocError, Global};

/// The left side of a comparison without its right side.
fn difference(
    alloc: Global,
    places: &Places<'_>,
    symbols: usize,
    comp: &Comp,
) -> Result<Sum, AllocError>
    requires dense { symbols ≡ length places.now }
    requires short { is_short comp.now ≡ true }
    ensures { IfOk result (IsDifference places.now comp.now) }
{
    let mut sum = zero_sum(alloc, symbols)?;
    add_terms(places, &mut sum, comp.left.as_slice(), false);
    add_terms(places, &mut sum, comp.right.as_slice(), true);
    Ok(sum)
}

/// The row that says that a sum is negative or 0.
fn row_at_most(sum: Sum) -> Linear
    requires { bulk sum ≤ most_bulk }
    ensures { result ≡ row_of_sum 0 sum.by.items sum.constant }
{
    let Sum { by, constant } = sum;
    Linear {
        by: Items::from_vec(by),
        most: -constant,
    }
}

/// The row that says that a sum is negative.
fn row_less(sum: Sum) -> Linear
    requires { bulk sum ≤ most_bulk }
    ensures { result ≡ row_of_sum 1 sum.by.items sum.constant }
{
    let Sum { by, constant } = sum;
    Linear {
        by: Items::from_vec(by),
        most: -constant - 1,
    }
}

fn push_row(rows: &mut Items<Linear>, row: Linear) -> Result<(), AllocError>
    ensures { OnOk result (rows.new ≡ rows.old ++ row ∷ []) }
{
    rows.push(row)?;
    Ok(())
}

/// Adds the row that says that a sum is negative or 0.
fn push_at_most(rows: &mut Items<Linear>, sum: Sum) -> Result<(), AllocError>
    requires { bulk sum ≤ most_bulk }
    ensures { OnOk result (rows.new ≡ rows.old ++ rows_of_sum rel.Le sum.by.items sum.constant) }
{
    push_row(rows, row_at_most(sum))
}

/// Adds the row that says that a sum is negative.
fn push_less(rows: &mut Items<Linear>, sum: Sum) -> Result<(), AllocError>
    requires { bulk sum ≤ most_bulk }
    ensures { OnOk result (rows.new ≡ rows.old ++ rows_of_sum rel.Lt sum.by.items sum.constant) }
{
    push_row(rows, row_less(sum))
}

/// Adds the rows that say how a sum compares with 0.
fn push_rows(alloc: Global, rows: &mut Items<Linear>, sum: Sum, rel: Rel) -> Result<(), AllocError>
    requires { bulk sum ≤ most_bulk }
    ensures { OnOk result (rows.new ≡ rows.old ++ rows_of_sum rel sum.by.items sum.constant) }
{
    match rel {
        Rel::Le => push_at_most(rows, sum),
        Rel::Lt => push_less(rows, sum),
        Rel::Ge => {
            let other = negated(alloc, &sum)?;
            push_at_most(rows, other)
        }
        Rel::Gt => {
            let other = negated(alloc, &sum)?;
            push_less(rows, other)
        }
        Rel::Eq => {
            let other = negated(alloc, &sum)?;
            push_at_most(rows, sum)?;
            push_at_most(rows, other)
        }
    }
}

/// Adds the rows of a comparison: one, or two for an equation.
pub fn push_comparison(
    alloc: Global,
    places: &Places<'_>,
    symbols: usize,
    rows: &mut Items<Linear>,
    comp: &Comp,
) -> Result<(), AllocError>
    requires dense { symbols ≡ length places.now }
    requires short { is_short comp.now ≡ true }
    ensures { OnOk result (AddsComps places.now rows.old rows.new (comp.now ∷ [])) }
{
    let sum = difference(alloc, places, symbols, comp)?;
    push_rows(alloc, rows, sum, comp.rel)
}

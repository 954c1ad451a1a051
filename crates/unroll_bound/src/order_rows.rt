//! How many rows the orders of instances have.

ghost use Rattle.std.specs.Prelude.{◌≡◌, ◌≤◌, ◌<◌, ◌*◌, length, map, sum_by, All, IfOk};
ghost use Rattle.elastic_ast.specs.Units.Instances.{nth_size, instances};
ghost use Rattle.elastic_ast.specs.Units.SeenUnits.{seen_unit};
ghost use Rattle.place_check.specs.Conditions.{AreSmall};
ghost use Rattle.place_check.specs.KnownOrders.{AreKnown};
ghost use Rattle.unroll_bound.specs.BoundAnswers.{most_at_bounds};
ghost use Rattle.unroll_bound.specs.Counts.{instance_count, order_row_count};
ghost use Rattle.unroll_bound.specs.OrderRows.{most_of_pair, rows_of_pair, rows_of_pairs};
ghost use Rattle.unroll_bound.specs.Totals.{most_count};

use crate::counting::relation_rows;
use elastic_ast::Unit;
use place_check::{Known, known_order, list_instances};
use std::alloc::{AllocError, Global};

/// The rows of an instance and a later one.
fn pair_rows(
    kept: &mut [Option<Known>],
    units: &[Unit],
    stages: u8,
    first: (usize, u64),
    later: (usize, u64),
) -> u128
    requires first { first.0 < length units.now }
    requires later { later.0 < length units.now }
    requires kept { AreKnown (map seen_unit units.now) kept.old }
    ensures rows { result ≡ rows_of_pair stages (map seen_unit units.now) first later }
    ensures small { result ≤ most_of_pair }
    ensures kept { AreKnown (map seen_unit units.now) kept.new }
{
    u128::from(relation_rows(known_order(kept, units, first, later), stages))
}

/// The rows of an instance and each later one.
fn rows_with(
    kept: &mut [Option<Known>],
    units: &[Unit],
    stages: u8,
    first: (usize, u64),
    later: &[(usize, u64)],
) -> u128
    requires first { first.0 < length units.now }
    requires later { All (λ pair. pair.0 < length units.now) later.now }
    requires kept { AreKnown (map seen_unit units.now) kept.old }
    ensures rows { result ≡ sum_by (rows_of_pair stages (map seen_unit units.now) first) later.now }
    ensures small { result ≤ length later.now * most_of_pair }
    ensures kept { AreKnown (map seen_unit units.now) kept.new }
{
    let mut count = 0;
    for i in (0..later.len()).rev() {
        let other = &later[i];
        count += pair_rows(kept, units, stages, first, *other);
    }
    count
}

/// The rows of each two of some instances.
fn rows_of_orders(units: &[Unit], stages: u8, list: &[(usize, u64)]) -> u128
    requires named { All (λ pair. pair.0 < length units.now) list.now }
    requires few { length list.now ≤ most_at_bounds }
    ensures rows { result ≡ rows_of_pairs stages (map seen_unit units.now) list.now }
    ensures small { result ≤ most_count }
{
    // Each two of 64 units that stand side by side have a place of their own.
    let mut kept = [None; 4096];
    let mut count = 0;
    for i in (0..list.len()).rev() {
        let first = &list[i];
        count += rows_with(&mut kept, units, stages, *first, &list[i + 1..]);
    }
    count
}

/// How many rows the orders of the instances at the bounds have.
pub fn order_row_count(
    alloc: Global,
    units: &[Unit],
    stages: u8,
    bounds: &[u64],
) -> Result<u128, AllocError>
    requires small { AreSmall bounds.now }
    requires few { instance_count (map seen_unit units.now) (nth_size bounds.now) ≤ most_at_bounds }
    ensures rows { IfOk result (λ rows. rows ≡ order_row_count stages (instances (map seen_unit units.now) (nth_size bounds.now))) }
    ensures small { IfOk result (λ rows. rows ≤ most_count) }
{
    let list = list_instances(alloc, units, bounds)?;
    Ok(rows_of_orders(units, stages, list.as_slice()))
}

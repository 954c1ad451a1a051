//! The rows of the orders of instances.

ghost use Rattle.std.specs.Prelude.{◌≡◌, ◌+◌, ◌-◌, ◌<◌, ◌≤◌, ◌∷◌, [], ◌++◌, length, map, flat_map, drop, get_or, OnOk};
ghost use Rattle.elastic_ast.specs.Units.Instances.{each_turn};
ghost use Rattle.elastic_ast.specs.Units.SeenUnits.{seen_unit};
ghost use Rattle.dep_graph.specs.SeenRelation.{seen_relation};
ghost use Rattle.place_check.specs.KnownOrders.{AreKnown};
ghost use Rattle.ilp_model.specs.ListedCandidates.{most_numbers};
ghost use Rattle.ilp_model.specs.WrittenInstances.{written_order};
ghost use Rattle.ilp_model.specs.WrittenGroups.{with_places, written_orders, written_pair, written_later, written_all_orders, FitsNumbers, AllFitNumbers};

use crate::instance_numbers::stands_from;
use crate::instance_rows::put_order_row;
use crate::listing::Candidate;
use crate::numbering::Numbering;
use dep_graph::Relation;
use elastic_ast::Unit;
use elx_bits::Items;
use int_program::Row;
use place_check::{Known, known_order};
use std::alloc::{AllocError, Global};

/// Adds the rows that an instance stands in no later stage than another.
fn put_not_after(
    alloc: Global,
    rows: &mut Items<Row>,
    first: u32,
    second: u32,
    stages: u32,
) -> Result<(), AllocError>
    requires first { first + stages < most_numbers }
    requires second { second + stages < most_numbers }
    ensures { OnOk result (rows.new ≡ rows.old
        ++ each_turn (stages - 1) (λ stage. written_order (first + (stage + 1)) (stages - (stage + 1)) second (stage + 1) ∷ [])) }
{
    for stage in 0..stages.saturating_sub(1) {
        let next = stage + 1;
        put_order_row(alloc, rows, first + next, stages - next, second, next)?;
    }
    Ok(())
}

/// Adds the rows that an instance stands in an earlier stage than another.
fn put_before(
    alloc: Global,
    rows: &mut Items<Row>,
    first: u32,
    second: u32,
    stages: u32,
) -> Result<(), AllocError>
    requires first { first + stages < most_numbers }
    requires second { second + stages < most_numbers }
    ensures { OnOk result (rows.new ≡ rows.old
        ++ each_turn stages (λ stage. written_order (first + stage) (stages - stage) second (stage + 1) ∷ [])) }
{
    for stage in 0..stages {
        put_order_row(
            alloc,
            rows,
            first + stage,
            stages - stage,
            second,
            stage + 1,
        )?;
    }
    Ok(())
}

/// Adds the rows of an earlier instance and a later one by their order, where the stages of each have the numbers from one on.
fn put_orders(
    alloc: Global,
    rows: &mut Items<Row>,
    first: u32,
    second: u32,
    stages: u32,
    relation: Relation,
) -> Result<(), AllocError>
    requires first { first + stages < most_numbers }
    requires second { second + stages < most_numbers }
    ensures { OnOk result (rows.new ≡ rows.old ++ written_orders first second stages (seen_relation relation)) }
{
    match relation {
        Relation::Free => Ok(()),
        Relation::NotAfter => put_not_after(alloc, rows, first, second, stages),
        Relation::Before => put_before(alloc, rows, first, second, stages),
    }
}

/// Adds the rows of an instance and a later one at their places.
fn put_pair(
    alloc: Global,
    rows: &mut Items<Row>,
    kept: &mut [Option<Known>],
    units: &[Unit],
    numbers: &Numbering,
    place: usize,
    first: Candidate,
    later: usize,
    second: Candidate,
) -> Result<(), AllocError>
    requires kept { AreKnown (map seen_unit units.now) kept.old }
    requires first { FitsNumbers (map seen_unit units.now) numbers.now place first }
    requires second { FitsNumbers (map seen_unit units.now) numbers.now later second }
    ensures rows { OnOk result (rows.new
        ≡ rows.old ++ written_pair (map seen_unit units.now) numbers.now ((place, first), (later, second))) }
    ensures kept { AreKnown (map seen_unit units.now) kept.new }
{
    let one = (first.unit as usize, u64::from(first.index));
    let other = (second.unit as usize, u64::from(second.index));
    let relation = known_order(kept, units, one, other);
    let from = stands_from(numbers, place);
    let to = stands_from(numbers, later);
    put_orders(alloc, rows, from, to, numbers.stages, relation)
}

/// Adds the rows of the instance at a place and each later one.
fn put_later(
    alloc: Global,
    rows: &mut Items<Row>,
    kept: &mut [Option<Known>],
    units: &[Unit],
    numbers: &Numbering,
    list: &[Candidate],
    place: usize,
    first: Candidate,
) -> Result<(), AllocError>
    requires place { place < length list.now }
    requires first { FitsNumbers (map seen_unit units.now) numbers.now place first }
    requires kept { AreKnown (map seen_unit units.now) kept.old }
    requires fits { AllFitNumbers (map seen_unit units.now) numbers.now list.now }
    ensures rows { OnOk result (rows.new
        ≡ rows.old ++ written_later (map seen_unit units.now) numbers.now (place, first) (with_places (place + 1) (drop (place + 1) list.now))) }
    ensures kept { AreKnown (map seen_unit units.now) kept.new }
{
    for later in place + 1..list.len() {
        put_pair(
            alloc,
            rows,
            kept,
            units,
            numbers,
            place,
            first,
            later,
            list[later],
        )?;
    }
    Ok(())
}

/// Adds the rows of the orders of all instances.
pub(crate) fn put_order_rows(
    alloc: Global,
    rows: &mut Items<Row>,
    units: &[Unit],
    numbers: &Numbering,
    list: &[Candidate],
) -> Result<(), AllocError>
    requires { AllFitNumbers (map seen_unit units.now) numbers.now list.now }
    ensures { OnOk result (rows.new ≡ rows.old ++ written_all_orders (map seen_unit units.now) numbers.now list.now) }
{
    // Each two of 64 units that stand side by side have a place of their own.
    let mut kept = [None; 4096];
    for place in 0..list.len() {
        put_later(
            alloc,
            rows,
            &mut kept,
            units,
            numbers,
            list,
            place,
            list[place],
        )?;
    }
    Ok(())
}

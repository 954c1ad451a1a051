//! The rows of all instances: where they stand, their cells, what they take of each stage, and their orders.

ghost use Rattle.std.specs.Prelude.{◌≡◌, ◌+◌, ◌<◌, ◌≤◌, ◌∷◌, [], ◌++◌, length, map, get_or, OnOk};
ghost use Rattle.elastic_ast.specs.Units.Instances.{nth_size};
ghost use Rattle.elastic_ast.specs.Units.SeenUnits.{seen_unit, seen_units};
ghost use Rattle.target_desc.specs.InRange.{IsInRange};
ghost use Rattle.unit_flow.specs.SoundUnits.{SoundUnits};
ghost use Rattle.unroll_bound.specs.BoundAnswers.{AreBoundsWithin};
ghost use Rattle.ilp_model.specs.Candidates.{candidates as candidates_of};
ghost use Rattle.ilp_model.specs.IpOf.{row_of};
ghost use Rattle.ilp_model.specs.ListedCandidates.{listed, most_numbers};
ghost use Rattle.ilp_model.specs.Numbers.{AreNumbers};
ghost use Rattle.ilp_model.specs.Rows.{rows_from_stand};
ghost use Rattle.ilp_model.specs.Variables.{variable_number};
ghost use Rattle.ilp_model.specs.WrittenGroups.{written_stand_of, written_cells, written_cells_of, written_stands, written_all_cells, written_instances, held_from as held_from_of, FitsNumbers, FitsCells, AllFitNumbers};

use crate::instance_numbers::{exists_number, held_from, stands_from};
use crate::instance_rows::{put_only_rows, put_stand, put_whole_row};
use crate::listing::Candidate;
use crate::numbering::Numbering;
use crate::order_rows::put_order_rows;
use crate::use_rows::put_use_rows;
use elastic_ast::{Cells, Unit, Units};
use elx_bits::Items;
use int_program::Row;
use std::alloc::{AllocError, Global};
use target_desc::Target;

/// Adds the rows that the instance at a place stands in one stage where it is there, and in none otherwise.
fn put_stand_of(
    alloc: Global,
    rows: &mut Items<Row>,
    units: &[Unit],
    numbers: &Numbering,
    place: usize,
    one: Candidate,
) -> Result<(), AllocError>
    requires { FitsNumbers (map seen_unit units.now) numbers.now place one }
    ensures { OnOk result (rows.new ≡ rows.old ++ written_stand_of (map seen_unit units.now) numbers.now (place, one)) }
{
    let size = units[one.unit as usize].size;
    let exists = exists_number(numbers.loops.as_slice(), size, one.index);
    let first = stands_from(numbers, place);
    put_stand(alloc, rows, size, exists, first, numbers.stages)
}

/// Adds the rows that each instance stands in one stage where it is there, and in none otherwise.
pub(crate) fn put_stand_rows(
    alloc: Global,
    rows: &mut Items<Row>,
    units: &[Unit],
    numbers: &Numbering,
    list: &[Candidate],
) -> Result<(), AllocError>
    requires { AllFitNumbers (map seen_unit units.now) numbers.now list.now }
    ensures { OnOk result (rows.new ≡ rows.old ++ written_stands (map seen_unit units.now) numbers.now list.now) }
{
    for place in 0..list.len() {
        put_stand_of(alloc, rows, units, numbers, place, list[place])?;
    }
    Ok(())
}

/// Adds the rows of an instance's cells, where a symbol counts them, by the numbers of the variables.
fn put_cells(
    alloc: Global,
    rows: &mut Items<Row>,
    bounds: &[u64],
    unit: &Unit,
    exists: u32,
    stands: u32,
    numbers: &Numbering,
    rank: usize,
) -> Result<(), AllocError>
    requires stands { stands + numbers.now.stages < most_numbers }
    requires held { FitsCells (length bounds.now) unit.now.cells (held_from_of numbers.now rank + numbers.now.stages) }
    ensures { OnOk result (rows.new ≡ rows.old
        ++ written_cells (nth_size bounds.now) unit.now.cells unit.now.size exists stands (held_from_of numbers.now rank) numbers.now.stages) }
{
    let Some(Cells::Symbol(symbol)) = unit.cells else {
        return Ok(());
    };
    let most = bounds[symbol as usize];
    let held = held_from(numbers, rank);
    let stages = numbers.stages;
    put_only_rows(alloc, rows, stands, held, stages, most)?;
    put_whole_row(alloc, rows, symbol, unit.size, exists, held, stages, most)
}

/// Adds the rows of the cells of the instance at a place.
fn put_cells_of(
    alloc: Global,
    rows: &mut Items<Row>,
    units: &[Unit],
    bounds: &[u64],
    numbers: &Numbering,
    place: usize,
    one: Candidate,
) -> Result<(), AllocError>
    requires dense { length bounds.now ≡ length numbers.now.loops }
    requires fits { FitsNumbers (map seen_unit units.now) numbers.now place one }
    ensures { OnOk result (rows.new
        ≡ rows.old ++ written_cells_of (map seen_unit units.now) (nth_size bounds.now) numbers.now (place, one)) }
{
    let unit = &units[one.unit as usize];
    let exists = exists_number(numbers.loops.as_slice(), unit.size, one.index);
    let stands = stands_from(numbers, place);
    put_cells(alloc, rows, bounds, unit, exists, stands, numbers, one.rank)
}

/// Adds the rows of the cells that symbols count.
pub(crate) fn put_cell_rows(
    alloc: Global,
    rows: &mut Items<Row>,
    units: &[Unit],
    bounds: &[u64],
    numbers: &Numbering,
    list: &[Candidate],
) -> Result<(), AllocError>
    requires dense { length bounds.now ≡ length numbers.now.loops }
    requires fits { AllFitNumbers (map seen_unit units.now) numbers.now list.now }
    ensures { OnOk result (rows.new
        ≡ rows.old ++ written_all_cells (map seen_unit units.now) (nth_size bounds.now) numbers.now list.now) }
{
    for place in 0..list.len() {
        put_cells_of(alloc, rows, units, bounds, numbers, place, list[place])?;
    }
    Ok(())
}

/// Adds the rows of all groups.
fn put_groups(
    alloc: Global,
    rows: &mut Items<Row>,
    units: &[Unit],
    target: &Target,
    bounds: &[u64],
    numbers: &Numbering,
    list: &[Candidate],
) -> Result<(), AllocError>
    requires dense { length bounds.now ≡ length numbers.now.loops }
    requires fits { AllFitNumbers (map seen_unit units.now) numbers.now list.now }
    ensures { OnOk result (rows.new ≡ rows.old
        ++ written_instances (map seen_unit units.now) target.now (nth_size bounds.now) numbers.now list.now) }
{
    put_stand_rows(alloc, rows, units, numbers, list)?;
    put_cell_rows(alloc, rows, units, bounds, numbers, list)?;
    put_use_rows(alloc, rows, units, target, numbers, list)?;
    put_order_rows(alloc, rows, units, numbers, list)
}

/// Adds the rows of all instances at the bounds, which are listed with the numbers of their variables. The only error is that there is
/// no memory for the rows.
pub(crate) fn put_instance_rows(
    alloc: Global,
    rows: &mut Items<Row>,
    units: &Units,
    target: &Target,
    bounds: &[u64],
    numbers: &Numbering,
    list: &[Candidate],
) -> Result<(), AllocError>
    requires sound { SoundUnits (seen_units units.now) }
    requires range { IsInRange target.now }
    requires within { AreBoundsWithin (seen_units units.now) target.now bounds.now }
    requires numbers { AreNumbers (seen_units units.now) target.now (nth_size bounds.now) numbers.now }
    requires list { list.now ≡ map listed (candidates_of (seen_units units.now) (nth_size bounds.now)) }
    ensures { OnOk result (rows.new ≡ rows.old
        ++ map (row_of (variable_number (seen_units units.now) target.now (nth_size bounds.now)))
        (rows_from_stand (seen_units units.now) target.now (nth_size bounds.now))) }
{
    let each = units.list.as_slice();
    put_groups(alloc, rows, each, target, bounds, numbers, list)
}

//! The rows of what instances take of each stage.

ghost use Rattle.std.specs.Prelude.{◌≡◌, pos, ◌+◌, ◌*◌, ◌<◌, ◌≤◌, ◌∷◌, [], ◌++◌, length, map, flat_map, get_or, OnOk, IfOk};
ghost use Rattle.elastic_ast.specs.Units.SeenUnits.{seen_unit};
ghost use Rattle.dep_graph.specs.Use.{cell_count, taken_by, limit_of};
ghost use Rattle.unroll_bound.specs.Counts.{is_symbolic as is_symbolic_of};
ghost use Rattle.ilp_model.specs.ListedCandidates.{most_numbers};
ghost use Rattle.ilp_model.specs.WrittenGroups.{with_places, written_taken, written_held_of, written_held, written_use, written_uses, written_all_uses, FitsNumbers, AllFitNumbers};

use crate::instance_numbers::{held_from, stands_from};
use crate::listing::{Candidate, is_symbolic};
use crate::numbering::Numbering;
use crate::parts::put;
use crate::size_rows::put_row;
use dep_graph::Resource;
use dep_graph::Resource::{Memory, Stateful, Stateless, TableBits, TernaryBits};
use elastic_ast::{Cells, Unit};
use elx_bits::Items;
use int_program::{Part, Row};
use std::alloc::{AllocError, Global};
use target_desc::Target;

/// The bits of the cells of a unit, where a fixed number is given.
fn fixed_memory(cells: Option<Cells>, width: u8) -> i128
    ensures { result ≡ pos (cell_count (λ symbol. 0) cells * width) }
{
    match cells {
        Some(Cells::Fixed(number)) => i128::from(number) * i128::from(width),
        _ => 0,
    }
}

/// What an instance of a unit takes of a resource at any sizes.
fn taken(unit: &Unit, kind: Resource) -> i128
    ensures { result ≡ pos (taken_by kind (λ symbol. 0) (seen_unit unit.now)) }
{
    match kind {
        Resource::Stateful => match unit.cells {
            None => 0,
            Some(_) => 1,
        },
        Resource::Stateless => i128::from(unit.cost),
        Resource::Memory => fixed_memory(unit.cells, unit.cell_width),
        Resource::TableBits => i128::from(unit.table_bits),
        Resource::TernaryBits => i128::from(unit.ternary_bits),
    }
}

/// What a stage of the target has of a resource.
fn limit(target: &Target, kind: Resource) -> i128
    ensures { result ≡ pos (limit_of kind target.now) }
{
    match kind {
        Resource::Stateful => i128::from(target.stateful),
        Resource::Stateless => i128::from(target.stateless),
        Resource::Memory => i128::from(target.memory_bits),
        Resource::TableBits => i128::from(target.table_bits),
        Resource::TernaryBits => i128::from(target.ternary_bits),
    }
}

/// Adds what the instance at a place takes of a resource, in a stage.
fn put_taken(
    parts: &mut Items<Part>,
    units: &[Unit],
    numbers: &Numbering,
    kind: Resource,
    stage: u32,
    place: usize,
    one: Candidate,
) -> Result<(), AllocError>
    requires stage { stage < numbers.now.stages }
    requires fits { FitsNumbers (map seen_unit units.now) numbers.now place one }
    ensures { OnOk result (parts.new ≡ parts.old ++ written_taken (map seen_unit units.now) numbers.now kind stage (place, one)) }
{
    let by = taken(&units[one.unit as usize], kind);
    put(parts, stands_from(numbers, place) + stage, by)
}

/// Adds what all instances take of a resource, in a stage.
fn put_all_taken(
    parts: &mut Items<Part>,
    units: &[Unit],
    numbers: &Numbering,
    list: &[Candidate],
    kind: Resource,
    stage: u32,
) -> Result<(), AllocError>
    requires stage { stage < numbers.now.stages }
    requires fits { AllFitNumbers (map seen_unit units.now) numbers.now list.now }
    ensures { OnOk result (parts.new
        ≡ parts.old ++ flat_map (written_taken (map seen_unit units.now) numbers.now kind stage) (with_places 0 list.now)) }
{
    for place in 0..list.len() {
        put_taken(parts, units, numbers, kind, stage, place, list[place])?;
    }
    Ok(())
}

/// Adds the memory of the cells of an instance in a stage, where a symbol counts them.
fn put_held_of(
    parts: &mut Items<Part>,
    units: &[Unit],
    numbers: &Numbering,
    stage: u32,
    place: usize,
    one: Candidate,
) -> Result<(), AllocError>
    requires stage { stage < numbers.now.stages }
    requires fits { FitsNumbers (map seen_unit units.now) numbers.now place one }
    ensures { OnOk result (parts.new ≡ parts.old ++ written_held_of (map seen_unit units.now) numbers.now stage one) }
{
    let unit = &units[one.unit as usize];
    if is_symbolic(unit) {
        let held = held_from(numbers, one.rank);
        put(parts, held + stage, i128::from(unit.cell_width))?;
    }
    Ok(())
}

/// Adds the memory of all cells that symbols count, in a stage.
fn put_all_held(
    parts: &mut Items<Part>,
    units: &[Unit],
    numbers: &Numbering,
    list: &[Candidate],
    stage: u32,
) -> Result<(), AllocError>
    requires stage { stage < numbers.now.stages }
    requires fits { AllFitNumbers (map seen_unit units.now) numbers.now list.now }
    ensures { OnOk result (parts.new
        ≡ parts.old ++ flat_map (written_held_of (map seen_unit units.now) numbers.now stage) list.now) }
{
    for place in 0..list.len() {
        put_held_of(parts, units, numbers, stage, place, list[place])?;
    }
    Ok(())
}

/// Adds the memory of cells that symbols count to the row of a resource.
fn put_held(
    parts: &mut Items<Part>,
    units: &[Unit],
    numbers: &Numbering,
    list: &[Candidate],
    kind: Resource,
    stage: u32,
) -> Result<(), AllocError>
    requires stage { stage < numbers.now.stages }
    requires fits { AllFitNumbers (map seen_unit units.now) numbers.now list.now }
    ensures { OnOk result (parts.new ≡ parts.old ++ written_held (map seen_unit units.now) numbers.now kind stage list.now) }
{
    match kind {
        Resource::Memory => put_all_held(parts, units, numbers, list, stage),
        Resource::Stateful | Resource::Stateless | Resource::TableBits | Resource::TernaryBits =>
            Ok(()),
    }
}

/// Adds the row of a resource of a stage.
fn put_use_row(
    alloc: Global,
    rows: &mut Items<Row>,
    units: &[Unit],
    target: &Target,
    numbers: &Numbering,
    list: &[Candidate],
    stage: u32,
    kind: Resource,
) -> Result<(), AllocError>
    requires stage { stage < numbers.now.stages }
    requires fits { AllFitNumbers (map seen_unit units.now) numbers.now list.now }
    ensures { OnOk result (rows.new
        ≡ rows.old ++ written_use (map seen_unit units.now) target.now numbers.now list.now stage kind ∷ []) }
{
    let mut parts = Items::new(alloc);
    put_all_taken(&mut parts, units, numbers, list, kind, stage)?;
    put_held(&mut parts, units, numbers, list, kind, stage)?;
    put_row(rows, parts, limit(target, kind))
}

/// Adds the rows of all resources of a stage.
fn put_stage_rows(
    alloc: Global,
    rows: &mut Items<Row>,
    units: &[Unit],
    target: &Target,
    numbers: &Numbering,
    list: &[Candidate],
    stage: u32,
) -> Result<(), AllocError>
    requires stage { stage < numbers.now.stages }
    requires fits { AllFitNumbers (map seen_unit units.now) numbers.now list.now }
    ensures { OnOk result (rows.new
        ≡ rows.old ++ written_uses (map seen_unit units.now) target.now numbers.now list.now stage) }
{
    put_use_row(alloc, rows, units, target, numbers, list, stage, Stateful)?;
    put_use_row(alloc, rows, units, target, numbers, list, stage, Stateless)?;
    put_use_row(alloc, rows, units, target, numbers, list, stage, Memory)?;
    put_use_row(alloc, rows, units, target, numbers, list, stage, TableBits)?;
    put_use_row(
        alloc,
        rows,
        units,
        target,
        numbers,
        list,
        stage,
        TernaryBits,
    )
}

/// Adds the rows of what instances take of each stage.
pub(crate) fn put_use_rows(
    alloc: Global,
    rows: &mut Items<Row>,
    units: &[Unit],
    target: &Target,
    numbers: &Numbering,
    list: &[Candidate],
) -> Result<(), AllocError>
    requires { AllFitNumbers (map seen_unit units.now) numbers.now list.now }
    ensures { OnOk result (rows.new
        ≡ rows.old ++ written_all_uses (map seen_unit units.now) target.now numbers.now list.now) }
{
    for stage in 0..numbers.stages {
        put_stage_rows(alloc, rows, units, target, numbers, list, stage)?;
    }
    Ok(())
}

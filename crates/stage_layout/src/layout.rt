//! Sizes and a placement by the numbers of variables.

ghost use Rattle.std.specs.Prelude.{◌≡◌, ℕ, pos, ◌+◌, ◌<◌, ◌≤◌, ◌^◌, ◌++◌, length, map, All, OnOk, IfOk};
ghost use Rattle.elastic_ast.specs.Units.Instances.{nth_size};
ghost use Rattle.elastic_ast.specs.Units.SeenUnits.{seen_unit, seen_units};
ghost use Rattle.target_desc.specs.InRange.{IsInRange};
ghost use Rattle.size_terms.specs.Rows.{worth};
ghost use Rattle.place_check.specs.OfUnits.{FeasibleUnits};
ghost use Rattle.unit_flow.specs.SoundUnits.{SoundUnits, IsLoopSize};
ghost use Rattle.unroll_bound.specs.BoundAnswers.{AreBoundsWithin, most_at_bounds};
ghost use Rattle.unroll_bound.specs.Counts.{numbers_below};
ghost use Rattle.int_program.specs.Points.{IsPoint, value_of};
ghost use Rattle.ilp_model.specs.IpOf.{ip_of};
ghost use Rattle.ilp_model.specs.PairOf.{sizes_of, placement_of};
ghost use Rattle.stage_layout.specs.Reading.{value_of_number, exists_in, stage_from, entry_of, entries_from};

use elastic_ast::{At, Placement, Sizes, Unit, Units};
use elx_bits::Items;
use ilp_model::{Candidate, Numbering, candidates, numbers};
use int_program::Point;
use std::alloc::{AllocError, Global};
use target_desc::Target;

/// A size for each symbol, and a stage for each instance.
#[derive(Drop)]
pub struct Layout {
    pub sizes: Sizes,
    pub placement: Placement,
}

/// The value of the variable of a number, and 0 where there is none.
fn number_at(point: &[i128], number: usize) -> u128
    ensures { result ≡ value_of_number point.now number }
{
    match point.get(number) {
        Some(value) => value.unsigned_abs(),
        None => 0,
    }
}

/// Whether an instance of a unit is there, whose loop has this size.
fn exists(point: &[i128], loops: &[u32], size: Option<u32>, index: u32) -> bool
    requires { IsLoopSize (length loops.now) size }
    ensures { result ≡ exists_in point.now loops.now size index }
{
    match size {
        None => true,
        Some(symbol) => {
            let number = loops[symbol as usize] as usize + index as usize;
            number_at(point, number) == 1
        }
    }
}

/// The last stage whose variable is 1, where these have the numbers from the first on; 0 where there is none.
fn stage_of(point: &[i128], first: usize, stages: u32) -> u32
    requires { first + stages < 2 ^ 64 }
    ensures value { result ≡ stage_from point.now first stages }
    ensures within { result ≤ stages }
{
    for stage in (0..stages).rev() {
        if number_at(point, first + stage as usize) == 1 {
            return stage;
        }
    }
    0
}

/// Adds the instance of a place, in its stage, where it is there.
fn put_entry(
    at: &mut Items<At>,
    point: &[i128],
    numbers: &Numbering,
    size: Option<u32>,
    place: usize,
    one: Candidate,
) -> Result<(), AllocError>
    requires loop_size { IsLoopSize (length numbers.now.loops) size }
    requires stages { numbers.now.stages ≤ 64 }
    requires place { place < most_at_bounds }
    ensures { OnOk result (at.new ≡ at.old ++ entry_of point.now numbers.now size place one) }
{
    if exists(point, numbers.loops.as_slice(), size, one.index) {
        let first = numbers.stands as usize + place * numbers.stages as usize;
        at.push(At {
            unit: one.unit,
            index: one.index,
            stage: stage_of(point, first, numbers.stages) as u8,
        })?;
    }
    Ok(())
}

/// The instances that are there, each in its stage.
fn placement_at(
    alloc: Global,
    point: &[i128],
    numbers: &Numbering,
    units: &[Unit],
    list: &[Candidate],
) -> Result<Placement, AllocError>
    requires sizes { All (λ unit. IsLoopSize (length numbers.now.loops) unit.size) units.now }
    requires stages { numbers.now.stages ≤ 64 }
    requires few { length list.now ≤ most_at_bounds }
    requires named { All (λ one. one.unit < length units.now) list.now }
    ensures { IfOk result (λ placement. placement.at
        ≡ entries_from point.now numbers.now (map seen_unit units.now) 0 list.now) }
{
    let mut at = Items::new(alloc);
    for place in 0..list.len() {
        let one = list[place];
        let size = units[one.unit as usize].size;
        put_entry(&mut at, point, numbers, size, place, one)?;
    }
    Ok(Placement { at })
}

/// The values of the first so many variables, which are the sizes.
fn sizes_at(alloc: Global, point: &[i128], count: usize) -> Result<Sizes, AllocError>
    requires { (symbol : ℕ) → symbol < count → value_of_number point.now symbol < 2 ^ 64 }
    ensures { IfOk result (λ sizes. sizes.values
        ≡ map (value_of_number point.now) (numbers_below count)) }
{
    let mut values = Items::new(alloc);
    for symbol in 0..count {
        values.push(number_at(point, symbol) as u64)?;
    }
    Ok(Sizes { values })
}

/// The sizes and the placement of a point of the integer program of units on a target, within bounds: each size is the value of its
/// variable, and each instance that is there stands in the stage whose variable is 1. They are feasible, and their utility is the
/// point's value.
///
/// `bounds` are those that `unroll_bound::bounds` gives of the units and the target, one a symbol. The one error is want of memory.
/// It takes time in proportion to the numbers of units and of variables.
pub fn place(
    alloc: Global,
    units: &Units,
    target: &Target,
    bounds: &[u64],
    point: &Point,
) -> Result<Layout, AllocError>
    requires sound { SoundUnits (seen_units units.now) }
    requires in_range { IsInRange target.now }
    requires within { AreBoundsWithin (seen_units units.now) target.now bounds.now }
    requires point { IsPoint (ip_of (seen_units units.now) target.now (nth_size bounds.now))
        point.now.values }
    ensures sizes { IfOk result (λ layout. layout.sizes.values
        ≡ sizes_of (seen_units units.now) point.now.values) }
    ensures placement { IfOk result (λ layout. layout.placement.at
        ≡ placement_of (seen_units units.now) target.now (nth_size bounds.now) point.now.values) }
    ensures feasible { IfOk result (λ layout.
        FeasibleUnits (seen_units units.now) target.now layout.sizes.values layout.placement.at) }
    ensures value { IfOk result (λ layout.
        value_of (ip_of (seen_units units.now) target.now (nth_size bounds.now)) point.now.values
        ≡ worth units.now.terms layout.sizes.values) }
{
    let list = candidates(alloc, units, bounds)?;
    let numbers = numbers(alloc, units, target, bounds, list.as_slice())?;
    let point = point.values.as_slice();
    let placement = placement_at(
        alloc,
        point,
        &numbers,
        units.list.as_slice(),
        list.as_slice(),
    )?;
    let sizes = sizes_at(alloc, point, units.terms.symbols.as_slice().len())?;
    Ok(Layout { sizes, placement })
}

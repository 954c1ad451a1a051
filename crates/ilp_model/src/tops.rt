//! The greatest values of the variables.

ghost use Rattle.std.specs.Prelude.{◌≡◌, ◌++◌, ◌<◌, pos, length, map, flat_map, All, OnOk, IfOk};
ghost use Rattle.elastic_ast.specs.Units.Instances.{nth_size};
ghost use Rattle.elastic_ast.specs.Units.SeenUnits.{seen_unit, seen_units};
ghost use Rattle.unit_flow.specs.SoundUnits.{SoundUnits};
ghost use Rattle.unroll_bound.specs.BoundAnswers.{AreBoundsWithin};
ghost use Rattle.unroll_bound.specs.LoopUses.{NamesSymbol};
ghost use Rattle.ilp_model.specs.Candidates.{candidates as candidates_of};
ghost use Rattle.ilp_model.specs.ListedCandidates.{listed};
ghost use Rattle.ilp_model.specs.Numbers.{AreNumbers};
ghost use Rattle.ilp_model.specs.Variables.{variables, top_of};
ghost use Rattle.ilp_model.specs.WrittenTops.{written_tops, written_held, held_of};

use crate::listing::Candidate;
use crate::numbering::Numbering;
use elastic_ast::{Cells, Unit, Units};
use elx_bits::Items;
use std::alloc::{AllocError, Global};
use target_desc::Target;

/// Adds the bounds of the sizes.
fn put_bounds(tops: &mut Items<i128>, bounds: &[u64]) -> Result<(), AllocError>
    ensures { OnOk result (tops.new ≡ tops.old ++ map pos bounds.now) }
{
    for bound in bounds {
        tops.push(i128::from(*bound))?;
    }
    Ok(())
}

/// Adds the same value several times.
fn put_tops(tops: &mut Items<i128>, top: u64, times: u32) -> Result<(), AllocError>
    ensures { OnOk result (tops.new ≡ tops.old ++ written_tops times top) }
{
    for _time in 0..times {
        tops.push(i128::from(top))?;
    }
    Ok(())
}

/// Adds the bound of the symbol that counts the cells, once a stage.
fn put_held(
    tops: &mut Items<i128>,
    cells: Option<Cells>,
    bounds: &[u64],
    stages: u32,
) -> Result<(), AllocError>
    requires { NamesSymbol (length bounds.now) cells }
    ensures { OnOk result (tops.new ≡ tops.old ++ written_held stages (nth_size bounds.now) cells) }
{
    match cells {
        Some(Cells::Symbol(symbol)) => put_tops(tops, bounds[symbol as usize], stages),
        _ => Ok(()),
    }
}

/// Adds those of the cells of all instances.
fn put_held_tops(
    tops: &mut Items<i128>,
    units: &[Unit],
    bounds: &[u64],
    list: &[Candidate],
    stages: u32,
) -> Result<(), AllocError>
    requires units { All (λ one. one.unit < length units.now) list.now }
    requires cells { All (λ unit. NamesSymbol (length bounds.now) unit.cells) units.now }
    ensures { OnOk result (tops.new
        ≡ tops.old ++ flat_map (held_of (map seen_unit units.now) stages (nth_size bounds.now)) list.now) }
{
    for one in list {
        put_held(tops, units[one.unit as usize].cells, bounds, stages)?;
    }
    Ok(())
}

/// The greatest values of the variables, in the order of their numbers.
pub(crate) fn tops(
    alloc: Global,
    units: &Units,
    target: &Target,
    bounds: &[u64],
    list: &[Candidate],
    numbers: &Numbering,
) -> Result<Items<i128>, AllocError>
    requires sound { SoundUnits (seen_units units.now) }
    requires within { AreBoundsWithin (seen_units units.now) target.now bounds.now }
    requires list { list.now ≡ map listed (candidates_of (seen_units units.now) (nth_size bounds.now)) }
    requires numbers { AreNumbers (seen_units units.now) target.now (nth_size bounds.now) numbers.now }
    ensures { IfOk result (λ tops. tops
        ≡ map (λ variable. pos (top_of (nth_size bounds.now) variable)) (variables (seen_units units.now) target.now (nth_size bounds.now))) }
{
    let mut tops = Items::new(alloc);
    put_bounds(&mut tops, bounds)?;
    put_tops(&mut tops, 1, numbers.held - bounds.len() as u32)?;
    put_held_tops(
        &mut tops,
        units.list.as_slice(),
        bounds,
        list,
        u32::from(target.stages),
    )?;
    Ok(tops)
}

//! The integer program of units on a target.

ghost use Rattle.std.specs.Prelude.{◌≡◌, IfOk};
ghost use Rattle.elastic_ast.specs.Units.Instances.{nth_size};
ghost use Rattle.elastic_ast.specs.Units.SeenUnits.{seen_units};
ghost use Rattle.int_program.specs.Limits.{IsInLimits};
ghost use Rattle.target_desc.specs.InRange.{IsInRange};
ghost use Rattle.unit_flow.specs.SoundUnits.{SoundUnits};
ghost use Rattle.unroll_bound.specs.BoundAnswers.{AreBoundsWithin};
ghost use Rattle.ilp_model.specs.InLimits.{FitTypes};
ghost use Rattle.ilp_model.specs.IpOf.{ip_of};

use crate::fitting::numbers_fit;
use crate::instance_groups::put_instance_rows;
use crate::listing::candidates;
use crate::numbering::numbers_of;
use crate::size_groups::{goal_of, put_size_groups};
use crate::size_rows::constant;
use crate::step_keys::step_keys;
use crate::tops::tops;
use elastic_ast::Units;
use elx_bits::Items;
use int_program::Ip;
use std::alloc::{AllocError, Global};
use target_desc::Target;

/// The integer program of units on a target, within bounds of sizes.
fn program_of(
    alloc: Global,
    units: &Units,
    target: &Target,
    bounds: &[u64],
) -> Result<Ip, AllocError>
    requires sound { SoundUnits (seen_units units.now) }
    requires range { IsInRange target.now }
    requires within { AreBoundsWithin (seen_units units.now) target.now bounds.now }
    ensures { IfOk result (λ ip. ip ≡ ip_of (seen_units units.now) target.now (nth_size bounds.now)) }
{
    let list = candidates(alloc, units, bounds)?;
    let keys = step_keys(alloc, units.terms.steps.as_slice(), bounds)?;
    let list = list.as_slice();
    let keys = keys.as_slice();
    let numbers = numbers_of(alloc, units, target, bounds, keys, list)?;
    let tops = tops(alloc, units, target, bounds, list, &numbers)?;
    let mut rows = Items::new(alloc);
    put_size_groups(alloc, &mut rows, units, target, bounds, keys, &numbers)?;
    put_instance_rows(alloc, &mut rows, units, target, bounds, &numbers, list)?;
    let goal = goal_of(alloc, units, target, bounds, keys, &numbers)?;
    let base = constant(&units.terms);
    Ok(Ip {
        tops,
        rows,
        goal,
        base,
    })
}

/// The integer program of units on a target, within bounds of sizes: its points are the feasible sizes within the bounds with their
/// placements. It is in the limits of integer programs. The only error is want of memory.
pub fn model(
    alloc: Global,
    units: &Units,
    target: &Target,
    bounds: &[u64],
) -> Result<Ip, AllocError>
    requires sound { SoundUnits (seen_units units.now) }
    requires range { IsInRange target.now }
    requires within { AreBoundsWithin (seen_units units.now) target.now bounds.now }
    ensures is { IfOk result (λ ip. ip ≡ ip_of (seen_units units.now) target.now (nth_size bounds.now)) }
    ensures limits { IfOk result IsInLimits }
{
    numbers_fit(units);
    program_of(alloc, units, target, bounds)
}

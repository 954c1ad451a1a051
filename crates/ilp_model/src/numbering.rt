//! The numbers of the variables.

ghost use Rattle.std.specs.Prelude.{◌≡◌, ◌+◌, ◌*◌, ◌≤◌, ◌<◌, length, map, IfOk, if◌then◌else◌};
ghost use Rattle.elastic_ast.specs.Units.Instances.{nth_size};
ghost use Rattle.elastic_ast.specs.Units.SeenUnits.{seen_units};
ghost use Rattle.int_program.specs.Limits.{most_variables};
ghost use Rattle.target_desc.specs.InRange.{IsInRange};
ghost use Rattle.unit_flow.specs.SoundUnits.{SoundUnits};
ghost use Rattle.unroll_bound.specs.BoundAnswers.{AreBoundsWithin};
ghost use Rattle.ilp_model.specs.Candidates.{candidates as candidates_of};
ghost use Rattle.ilp_model.specs.ListedCandidates.{listed};
ghost use Rattle.ilp_model.specs.Marks.{indices_below, AreStarts};
ghost use Rattle.ilp_model.specs.Numbers.{AreNumbers};
ghost use Rattle.ilp_model.specs.SeenKeys.{seen_keys};
ghost use Rattle.ilp_model.specs.StepKeys.{step_keys as step_keys_of};

use crate::listing::Candidate;
use crate::step_keys::{ReachedKey, step_keys};
use elastic_ast::Units;
use elx_bits::Items;
use std::alloc::{AllocError, Global};
use target_desc::Target;
use unroll_bound::{LoopUse, uses_of_loops};

/// The number of the first variable of each symbol's loop, of the keys, of the stages and of the cells, and how many stages there are.
#[derive(Drop)]
pub struct Numbering {
    pub loops: Items<u32>,
    pub keys: u32,
    pub stands: u32,
    pub held: u32,
    pub stages: u32,
}

/// The number of the first variable of each symbol's loop, and the one behind them all.
#[derive(Drop)]
struct Starts {
    loops: Items<u32>,
    past: u32,
}

/// The number behind the variables of a symbol's indices, which has some where it is that of a loop.
fn past_loop(first: u32, looped: bool, bound: u64) -> u32
    requires { first + (if looped then bound else 0) ≤ most_variables }
    ensures { result ≡ first + (if looped then bound else 0) }
{
    if looped { first + bound as u32 } else { first }
}

/// The first numbers of the symbols' loops.
fn loop_starts(alloc: Global, uses: &[LoopUse], bounds: &[u64]) -> Result<Starts, AllocError>
    requires dense { length uses.now ≡ length bounds.now }
    requires few { length uses.now + indices_below uses.now bounds.now (length uses.now) ≤ most_variables }
    ensures { IfOk result (λ starts. AreStarts uses.now bounds.now (length uses.now) starts.loops starts.past) }
{
    let mut loops = Items::new(alloc);
    let mut past = uses.len() as u32;
    for symbol in 0..uses.len() {
        loops.push(past)?;
        past = past_loop(past, uses[symbol].looped, bounds[symbol]);
    }
    Ok(Starts { loops, past })
}

/// The number behind the variables of things that have so many each.
fn past_each(first: u32, things: usize, each: u32) -> u32
    requires some { 1 ≤ each }
    requires few { first + things * each ≤ most_variables }
    ensures { result ≡ first + things * each }
{
    first + things as u32 * each
}

/// The numbers of the variables of units at the bounds on a target; the keys and the instances at the bounds are listed.
pub(crate) fn numbers_of(
    alloc: Global,
    units: &Units,
    target: &Target,
    bounds: &[u64],
    keys: &[ReachedKey],
    list: &[Candidate],
) -> Result<Numbering, AllocError>
    requires sound { SoundUnits (seen_units units.now) }
    requires range { IsInRange target.now }
    requires within { AreBoundsWithin (seen_units units.now) target.now bounds.now }
    requires keys { seen_keys keys.now ≡ step_keys_of (seen_units units.now).terms (nth_size bounds.now) }
    requires list { list.now ≡ map listed (candidates_of (seen_units units.now) (nth_size bounds.now)) }
    ensures { IfOk result (AreNumbers (seen_units units.now) target.now (nth_size bounds.now)) }
{
    let uses = uses_of_loops(alloc, units.list.as_slice(), bounds.len())?;
    let starts = loop_starts(alloc, uses.as_slice(), bounds)?;
    let stages = u32::from(target.stages);
    let stands = past_each(starts.past, keys.len(), 1);
    Ok(Numbering {
        loops: starts.loops,
        keys: starts.past,
        stands,
        held: past_each(stands, list.len(), stages),
        stages,
    })
}

/// The numbers of the variables of units at the bounds on a target; the instances at the bounds are listed.
pub fn numbers(
    alloc: Global,
    units: &Units,
    target: &Target,
    bounds: &[u64],
    list: &[Candidate],
) -> Result<Numbering, AllocError>
    requires sound { SoundUnits (seen_units units.now) }
    requires range { IsInRange target.now }
    requires within { AreBoundsWithin (seen_units units.now) target.now bounds.now }
    requires list { list.now ≡ map listed (candidates_of (seen_units units.now) (nth_size bounds.now)) }
    ensures { IfOk result (AreNumbers (seen_units units.now) target.now (nth_size bounds.now)) }
{
    let keys = step_keys(alloc, units.terms.steps.as_slice(), bounds)?;
    numbers_of(alloc, units, target, bounds, keys.as_slice(), list)
}

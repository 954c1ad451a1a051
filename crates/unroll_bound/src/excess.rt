//! What is more at the bounds than is taken.

ghost use Rattle.std.specs.Prelude.{◌≡◌, ◌<◌, ◌^◌, length, map, MatchOption, IfOk, IfSome};
ghost use Rattle.elastic_ast.specs.Units.SeenUnits.{seen_unit, seen_units};
ghost use Rattle.unit_flow.specs.SoundUnits.{SoundUnits};
ghost use Rattle.unroll_bound.specs.BoundAnswers.{AreSmallBounds, IsMoreAt};
ghost use Rattle.unroll_bound.specs.GatheredBounds.{AreFewAt};
ghost use Rattle.unroll_bound.specs.LoopUses.{loop_use};
ghost use Rattle.unroll_bound.specs.SymbolLists.{IsListOf};

use crate::loop_uses::LoopUse;
use crate::order_rows::order_row_count;
use crate::tally::{plain_rows_at, totals_at, variables_at};
use crate::unit_bounds::What;
use elastic_ast::Units;
use std::alloc::{AllocError, Global};
use target_desc::Target;

const MOST_INSTANCES: u128 = 1024;

const MOST_VARIABLES: u128 = 100000;

const MOST_ROWS: u128 = 200000;

/// The first of the instances, the variables and the rows that are more at the bounds than is taken, with their count.
pub fn first_excess(
    alloc: Global,
    units: &Units,
    target: &Target,
    uses: &[LoopUse],
    bounds: &[u64],
) -> Result<Option<(What, u128)>, AllocError>
    requires sound { SoundUnits (seen_units units.now) }
    requires uses { IsListOf (length units.now.terms.symbols) (loop_use (map seen_unit units.now.list)) uses.now }
    requires dense { length bounds.now ≡ length units.now.terms.symbols }
    requires small { AreSmallBounds bounds.now }
    ensures more { IfOk result (λ found. MatchOption found (AreFewAt (seen_units units.now) target.now bounds.now)
        (λ excess. IsMoreAt (seen_units units.now) target.now bounds.now excess.0 excess.1)) }
    ensures small { IfOk result (λ found. IfSome found (λ excess. excess.1 < 2 ^ 127)) }
{
    let totals = totals_at(units, uses, bounds);
    let instances = totals.instances.all;
    if instances > MOST_INSTANCES {
        return Ok(Some((What::Instances, instances)));
    }
    let variables = variables_at(units, target, &totals);
    if variables > MOST_VARIABLES {
        return Ok(Some((What::Variables, variables)));
    }
    let orders = order_row_count(alloc, units.list.as_slice(), target.stages, bounds)?;
    let rows = plain_rows_at(units, target, &totals) + orders;
    if rows > MOST_ROWS {
        return Ok(Some((What::Rows, rows)));
    }
    Ok(None)
}

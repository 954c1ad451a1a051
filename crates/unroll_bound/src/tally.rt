//! How many variables and rows the integer program has at the bounds.

ghost use Rattle.std.specs.Prelude.{◌≡◌, ℕ, ◌≤◌, ◌<◌, ◌^◌, length, map};
ghost use Rattle.elastic_ast.specs.Units.Instances.{nth_size};
ghost use Rattle.elastic_ast.specs.Units.SeenUnits.{seen_unit, seen_units};
ghost use Rattle.unit_flow.specs.SoundUnits.{SoundUnits};
ghost use Rattle.unroll_bound.specs.BoundAnswers.{AreSmallBounds};
ghost use Rattle.unroll_bound.specs.Counts.{variable_count, plain_row_count};
ghost use Rattle.unroll_bound.specs.LoopUses.{loop_use};
ghost use Rattle.unroll_bound.specs.SymbolLists.{IsListOf};
ghost use Rattle.unroll_bound.specs.Totals.{AreTotals, AreSmallTotals};

use crate::counting::{InstanceCounts, LoopCounts, instance_counts, key_count, loop_counts};
use crate::loop_uses::LoopUse;
use elastic_ast::Units;
use target_desc::Target;

/// What is counted at the bounds.
#[derive(Clone, Copy)]
pub struct Totals {
    pub loops: LoopCounts,
    pub keys: u128,
    pub instances: InstanceCounts,
}

/// Counts the indices of loops, the keys and the instances at the bounds.
pub fn totals_at(units: &Units, uses: &[LoopUse], bounds: &[u64]) -> Totals
    requires sound { SoundUnits (seen_units units.now) }
    requires uses { IsListOf (length units.now.terms.symbols) (loop_use (map seen_unit units.now.list)) uses.now }
    requires dense { length bounds.now ≡ length units.now.terms.symbols }
    requires small { AreSmallBounds bounds.now }
    ensures totals { AreTotals (seen_units units.now) (nth_size bounds.now) result }
    ensures small { AreSmallTotals result }
{
    Totals {
        loops: loop_counts(units, uses, bounds),
        keys: key_count(units.terms.steps.as_slice(), bounds),
        instances: instance_counts(units.list.as_slice(), bounds),
    }
}

/// How many variables there are.
pub fn variables_at(units: &Units, target: &Target, totals: &Totals) -> u128
    requires { AreSmallTotals totals.now }
    ensures count { (bounds : ℕ → ℕ) → AreTotals (seen_units units.now) bounds totals.now → result ≡ variable_count (seen_units units.now) target.now bounds }
    ensures small { result < 2 ^ 127 }
{
    let stages = u128::from(target.stages);
    units.terms.symbols.as_slice().len() as u128
        + totals.loops.indices
        + totals.keys
        + totals.instances.all * stages
        + totals.instances.symbolic * stages
}

/// How many rows there are without those of orders.
pub fn plain_rows_at(units: &Units, target: &Target, totals: &Totals) -> u128
    requires { AreSmallTotals totals.now }
    ensures count { (bounds : ℕ → ℕ) → AreTotals (seen_units units.now) bounds totals.now → result ≡ plain_row_count (seen_units units.now) target.now bounds }
    ensures small { result < 2 ^ 126 }
{
    let stages = u128::from(target.stages);
    units.terms.rows.as_slice().len() as u128
        + units.terms.ones.as_slice().len() as u128
        + 1
        + totals.loops.rows
        + 2 * totals.keys
        + 2 * totals.instances.all
        + totals.instances.symbolic * (stages + 1)
        + 5 * stages
}

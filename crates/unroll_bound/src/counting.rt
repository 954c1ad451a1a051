//! How many instances, indices, keys and rows single parts of a program have at the bounds.

ghost use Rattle.std.specs.Prelude.{◌≡◌, ◌≤◌, ◌<◌, ◌+◌, ◌-◌, ◌^◌, length, map, count_by, All, if◌then◌else◌};
ghost use Rattle.elastic_ast.specs.Typing.LanguageLimits.{most_terms};
ghost use Rattle.elastic_ast.specs.Units.Instances.{nth_size};
ghost use Rattle.elastic_ast.specs.Units.SeenUnits.{seen_unit, seen_units};
ghost use Rattle.dep_graph.specs.SeenRelation.{seen_relation};
ghost use Rattle.place_check.specs.Walking.{turns_of as turns_by};
ghost use Rattle.size_terms.specs.Rows.{IsNearTable};
ghost use Rattle.unit_flow.specs.SoundUnits.{IsLoopSize};
ghost use Rattle.unroll_bound.specs.BoundAnswers.{most_bound, AreSmallBounds};
ghost use Rattle.unroll_bound.specs.Counts.{is_reached as is_reached_by, is_symbolic as is_symbolic_of, instance_count, symbolic_turns as symbolic_turns_of, symbolic_count, keys_reached as keys_reached_of, key_count as key_count_of, relation_rows as relation_rows_of};
ghost use Rattle.unroll_bound.specs.LoopUses.{loop_use};
ghost use Rattle.unroll_bound.specs.SymbolLists.{IsListOf};
ghost use Rattle.unroll_bound.specs.Totals.{most_count, AreLoopCounts};

use crate::loop_uses::LoopUse;
use dep_graph::Relation;
use elastic_ast::{Cells, Steps, Unit, Units};

/// How often a unit runs, whose loop has this size.
pub fn turns_at(size: Option<u32>, bounds: &[u64]) -> u64
    requires { IsLoopSize (length bounds.now) size }
    ensures { result ≡ turns_by (nth_size bounds.now) size }
{
    match size {
        None => 1,
        Some(symbol) => bounds[symbol as usize],
    }
}

fn wide_turns(size: Option<u32>, bounds: &[u64]) -> u128
    requires { IsLoopSize (length bounds.now) size }
    ensures turns { result ≡ turns_by (nth_size bounds.now) size }
    ensures small { result ≤ 18446744073709551615 }
{
    u128::from(turns_at(size, bounds))
}

/// Whether a symbol counts the cells of a unit's register.
fn is_symbolic(cells: Option<Cells>) -> bool
    ensures { result ≡ is_symbolic_of cells }
{
    matches!(cells, Some(Cells::Symbol(_)))
}

/// How often a unit runs, where a symbol counts the cells of its register, and 0 elsewhere.
fn symbolic_turns(unit: &Unit, bounds: &[u64]) -> u128
    requires { IsLoopSize (length bounds.now) unit.now.size }
    ensures turns { result ≡ symbolic_turns_of (nth_size bounds.now) (seen_unit unit.now) }
    ensures small { result ≤ 18446744073709551615 }
{
    if is_symbolic(unit.cells) {
        wide_turns(unit.size, bounds)
    } else {
        0
    }
}

/// How many instances units have, and how many of them have cells that a symbol counts.
#[derive(Clone, Copy)]
pub struct InstanceCounts {
    pub all: u128,
    pub symbolic: u128,
}

/// How many instances units have.
pub fn instance_counts(units: &[Unit], bounds: &[u64]) -> InstanceCounts
    requires { All (λ unit. IsLoopSize (length bounds.now) unit.size) units.now }
    ensures all { result.all ≡ instance_count (map seen_unit units.now) (nth_size bounds.now) }
    ensures symbolic { result.symbolic ≡ symbolic_count (map seen_unit units.now) (nth_size bounds.now) }
    ensures counted { length units.now < 2 ^ 64 }
{
    let mut all = 0;
    let mut symbolic = 0;
    for i in (0..units.len()).rev() {
        let unit = &units[i];
        all += wide_turns(unit.size, bounds);
        symbolic += symbolic_turns(unit, bounds);
    }
    InstanceCounts { all, symbolic }
}

fn is_reached(bound: u64, pair: (u64, u64)) -> bool
    ensures { result ≡ is_reached_by bound pair }
{
    1 <= pair.0 && pair.0 <= bound
}

/// How many keys of a step table are sizes from 1 to a bound.
pub fn keys_reached(table: &Steps, bound: u64) -> usize
    ensures { result ≡ count_by (is_reached_by bound) table.now.pairs }
{
    table
        .pairs
        .as_slice()
        .iter()
        .filter(|pair| is_reached(bound, **pair))
        .count()
}

/// How many keys of a step table are reached at the bound of its symbol.
fn keys_of(table: &Steps, bounds: &[u64]) -> u128
    requires { IsNearTable (length bounds.now) table.now }
    ensures keys { result ≡ keys_reached_of (nth_size bounds.now) table.now }
    ensures small { result ≤ 18446744073709551615 }
{
    keys_reached(table, bounds[table.symbol as usize]) as u128
}

/// How many keys of step tables are reached at the bounds.
pub fn key_count(tables: &[Steps], bounds: &[u64]) -> u128
    requires places { All (IsNearTable (length bounds.now)) tables.now }
    requires few { length tables.now ≤ most_terms }
    ensures keys { result ≡ key_count_of tables.now (nth_size bounds.now) }
    ensures small { result ≤ most_count }
{
    let mut count = 0;
    for i in (0..tables.len()).rev() {
        count += keys_of(&tables[i], bounds);
    }
    count
}

/// How many indices the loops over a symbol have at a bound.
fn indices_of(one: LoopUse, bound: u64) -> u128
    requires { bound ≤ most_bound }
    ensures indices { result ≡ (if one.looped then bound else 0) }
    ensures small { result ≤ most_bound }
{
    if one.looped { u128::from(bound) } else { 0 }
}

/// How many rows the loops over a symbol have at a bound.
fn loop_rows_of(one: LoopUse, bound: u64) -> u128
    requires { bound ≤ most_bound }
    ensures rows { result ≡ (if one.looped then 2 + (bound - 1) else 0) }
    ensures small { result ≤ most_bound + 2 }
{
    if one.looped {
        2 + u128::from(bound.saturating_sub(1))
    } else {
        0
    }
}

/// How many indices loops have at the bounds, and how many rows.
#[derive(Clone, Copy)]
pub struct LoopCounts {
    pub indices: u128,
    pub rows: u128,
}

/// How many indices and rows the loops over each symbol have at the bounds. `uses` tells over which symbols loops run.
pub fn loop_counts(units: &Units, uses: &[LoopUse], bounds: &[u64]) -> LoopCounts
    requires uses { IsListOf (length bounds.now) (loop_use (map seen_unit units.now.list)) uses.now }
    requires dense { length bounds.now ≡ length units.now.terms.symbols }
    requires small { AreSmallBounds bounds.now }
    ensures counts { AreLoopCounts (seen_units units.now) (nth_size bounds.now) result }
    ensures indices { result.indices ≤ most_count }
    ensures rows { result.rows ≤ most_count }
{
    let mut indices = 0;
    let mut rows = 0;
    for symbol in 0..units.terms.symbols.as_slice().len() {
        let (one, bound) = (uses[symbol], bounds[symbol]);
        indices += indices_of(one, bound);
        rows += loop_rows_of(one, bound);
    }
    LoopCounts { indices, rows }
}

/// The rows of an earlier instance and a later one, by their order.
pub fn relation_rows(relation: Relation, stages: u8) -> u8
    ensures { result ≡ relation_rows_of stages (seen_relation relation) }
{
    match relation {
        Relation::Before => stages,
        Relation::NotAfter => stages.saturating_sub(1),
        Relation::Free => 0,
    }
}

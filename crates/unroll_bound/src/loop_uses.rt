//! What the units in loops take of a stage, gathered for all symbols in one walk over the units.

ghost use Rattle.std.specs.Prelude.{◌≡◌, ◌≤◌, ◌<◌, ◌+◌, ◌*◌, ◌||◌, ℕ, [], length, map, All, IfOk};
ghost use Rattle.elastic_ast.specs.Units.Reach.{is_own as is_own_of};
ghost use Rattle.elastic_ast.specs.Units.SeenUnits.{seen_unit};
ghost use Rattle.dep_graph.specs.Use.{register_count, cell_count};
ghost use Rattle.unit_flow.specs.SoundUnits.{IsLoopSize};
ghost use Rattle.unroll_bound.specs.SizeRules.{one_each, writes_shared as writes_shared_of};
ghost use Rattle.unroll_bound.specs.SymbolLists.{IsListOf, Changes};
ghost use Rattle.unroll_bound.specs.LoopUses.{loop_use, with_unit, most_units, IsSmallUse, JoinsLoop};

use elastic_ast::{Cells, Location, Unit};
use std::alloc::{AllocError, Global};

/// What the units in the loops over a symbol take of a stage, each at one index.
#[derive(Clone, Copy)]
pub struct LoopUse {
    /// Whether there is such a unit.
    pub looped: bool,
    pub stateful: u128,
    pub stateless: u128,
    /// The bits of registers, where a symbolic number of cells counts as 1.
    pub memory: u128,
    /// Whether a unit writes a location that all its instances share.
    pub shared: bool,
}

fn is_own(at: &Location) -> bool
    ensures { result ≡ is_own_of at.now }
{
    match at {
        Location::Meta { own, .. } | Location::Pred { own, .. } | Location::Reg { own, .. } => *own,
        _ => false,
    }
}

/// Whether a unit writes a location that all its instances share.
fn writes_shared(unit: &Unit) -> bool
    ensures { result ≡ writes_shared_of (seen_unit unit.now) }
{
    unit.writes.as_slice().iter().any(|at| !is_own(at))
}

/// One where a unit names a register, and 0 where it names none.
fn registers_of(cells: Option<Cells>) -> u128
    ensures count { result ≡ register_count cells }
    ensures small { result ≤ 1 }
{
    match cells {
        None => 0,
        Some(_) => 1,
    }
}

/// How many cells the register of a unit has at least.
fn least_cells(cells: Option<Cells>) -> u32
    ensures { result ≡ cell_count one_each cells }
{
    match cells {
        None => 0,
        Some(Cells::Fixed(number)) => number,
        Some(Cells::Symbol(_)) => 1,
    }
}

/// The bits of cells.
fn memory_of(cells: u32, width: u8) -> u128
    ensures bits { result ≡ cells * width }
    ensures small { result ≤ 4294967296 * 256 }
{
    u128::from(cells) * u128::from(width)
}

fn wide(number: u32) -> u128
    ensures same { result ≡ number }
    ensures small { result ≤ 4294967296 }
{
    u128::from(number)
}

/// Whether a unit or one before it writes a location that all its instances share.
fn writes_shared_or(unit: &Unit, before: bool) -> bool
    ensures { result ≡ (writes_shared_of (seen_unit unit.now) || before) }
{
    writes_shared(unit) || before
}

/// The use with that of a unit in the loop.
fn with_looped(one: LoopUse, unit: &Unit) -> LoopUse
    requires { IsSmallUse most_units one }
    ensures { JoinsLoop (seen_unit unit.now) one result }
{
    LoopUse {
        looped: true,
        stateful: registers_of(unit.cells) + one.stateful,
        stateless: wide(unit.cost) + one.stateless,
        memory: memory_of(least_cells(unit.cells), unit.cell_width) + one.memory,
        shared: writes_shared_or(unit, one.shared),
    }
}

/// Adds a unit to the use of its loop.
fn add_unit(uses: &mut [LoopUse], unit: &Unit)
    requires size { IsLoopSize (length uses.old) unit.now.size }
    requires small { All (IsSmallUse most_units) uses.old }
    ensures changes { Changes (with_unit (seen_unit unit.now)) uses.old uses.new }
    ensures small { (units : ℕ) → All (IsSmallUse units) uses.old → All (IsSmallUse (units + 1)) uses.new }
{
    if let Some(size) = unit.size {
        let place = size as usize;
        uses[place] = with_looped(uses[place], unit);
    }
}

/// Adds each unit to the use of its loop.
fn add_units(uses: &mut [LoopUse], units: &[Unit])
    requires sizes { All (λ unit. IsLoopSize (length uses.old) unit.size) units.now }
    requires unset { IsListOf (length uses.old) (loop_use []) uses.old }
    requires small { All (IsSmallUse 0) uses.old }
    ensures { IsListOf (length uses.old) (loop_use (map seen_unit units.now)) uses.new }
{
    for i in (0..units.len()).rev() {
        add_unit(uses, &units[i]);
    }
}

/// What the units in the loops over each symbol take.
pub fn uses_of_loops(
    alloc: Global,
    units: &[Unit],
    symbols: usize,
) -> Result<Vec<LoopUse>, AllocError>
    requires { All (λ unit. IsLoopSize symbols unit.size) units.now }
    ensures { IfOk result (λ uses. IsListOf symbols (loop_use (map seen_unit units.now)) uses.items) }
{
    let none = LoopUse {
        looped: false,
        stateful: 0,
        stateless: 0,
        memory: 0,
        shared: false,
    };
    let mut uses = vec![in alloc; none; symbols]?;
    add_units(uses.as_mut_slice(), units);
    Ok(uses)
}

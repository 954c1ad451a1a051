//! What instances take of a stage, and the header bits.

ghost use Rattle.std.specs.Prelude.{◌≡◌, ◌≤◌, ◌<◌, ◌*◌, length, map, All, IfOk};
ghost use Rattle.elastic_ast.specs.Units.Instances.{nth_size};
ghost use Rattle.elastic_ast.specs.Units.SeenUnits.{seen_unit, seen_units};
ghost use Rattle.dep_graph.specs.Use.{cell_count, register_count};
ghost use Rattle.place_check.specs.Conditions.{most_size, most_instances, most_symbols, AreSmall, AreSound, AreSizesOf};
ghost use Rattle.place_check.specs.Standing.{placed_at, standing, NamesUnits};
ghost use Rattle.place_check.specs.UseTables.{stage_use as stage_use_of, header_use as header_use_of, IsUseTable};
ghost use Rattle.place_check.specs.Sums.{most_taken, IsSmallUse, TakesMore, AddsUse};

use elastic_ast::{At, Cells, Placement, Sizes, Unit, Units};
use elx_bits::Items;
use std::alloc::{AllocError, Global};
use target_desc::Target;

/// What the instances in a stage take of each resource.
#[derive(Clone, Copy, Debug, PartialEq, Eq)]
pub struct StageUse {
    pub stateful: u128,
    pub stateless: u128,
    pub memory: u128,
    pub table_bits: u128,
    pub ternary_bits: u128,
}

/// What the instances take of each stage in turn, and the header bits.
#[derive(Drop)]
pub struct UseTable {
    pub stages: Items<StageUse>,
    pub header: u128,
}

/// The size of the symbol of this number, and 0 where there is none.
pub fn size_at(sizes: &[u64], symbol: u32) -> u64
    requires { AreSmall sizes.now }
    ensures size { result ≡ nth_size sizes.now symbol }
    ensures small { result ≤ most_size }
{
    let place = symbol as usize;
    if place < sizes.len() { sizes[place] } else { 0 }
}

/// How many cells the register of a unit has, and 0 where it names none.
fn cells_of(cells: Option<Cells>, sizes: &[u64]) -> u64
    requires { AreSmall sizes.now }
    ensures cells { result ≡ cell_count (nth_size sizes.now) cells }
    ensures small { result ≤ most_size }
{
    match cells {
        None => 0,
        Some(Cells::Fixed(number)) => u64::from(number),
        Some(Cells::Symbol(symbol)) => size_at(sizes, symbol),
    }
}

/// One where a unit names a register, and 0 where it names none.
fn registers_of(cells: Option<Cells>) -> u128
    ensures count { result ≡ register_count cells }
    ensures small { result ≤ 1 }
{
    match cells {
        None => 0,
        Some(_) => 1,
    }
}

/// The bits of cells.
fn memory_of(cells: u64, width: u8) -> u128
    requires { cells ≤ most_size }
    ensures bits { result ≡ cells * width }
    ensures small { result ≤ most_size * 255 }
{
    u128::from(cells) * u128::from(width)
}

fn wide(number: u64) -> u128
    ensures same { result ≡ number }
    ensures small { result ≤ most_taken }
{
    u128::from(number)
}

/// The use with that of one instance of a unit.
fn with_unit(used: StageUse, unit: &Unit, sizes: &[u64]) -> StageUse
    requires small { IsSmallUse most_instances used }
    requires sizes { AreSmall sizes.now }
    ensures { TakesMore (nth_size sizes.now) (seen_unit unit.now) used result }
{
    let cells = cells_of(unit.cells, sizes);
    StageUse {
        stateful: used.stateful + registers_of(unit.cells),
        stateless: used.stateless + wide(u64::from(unit.cost)),
        memory: used.memory + memory_of(cells, unit.cell_width),
        table_bits: used.table_bits + wide(unit.table_bits),
        ternary_bits: used.ternary_bits + wide(unit.ternary_bits),
    }
}

/// The use with that of an instance, where it stands in the stage.
fn with_instance(used: StageUse, units: &[Unit], sizes: &[u64], at: At, stage: u8) -> StageUse
    requires small { IsSmallUse most_instances used }
    requires named { at.unit < length units.now }
    requires sizes { AreSmall sizes.now }
    ensures { AddsUse (nth_size sizes.now) stage (placed_at (map seen_unit units.now) at) used result }
{
    if at.stage == stage {
        with_unit(used, &units[at.unit as usize], sizes)
    } else {
        used
    }
}

/// What the instances of a placement take of a stage.
pub fn stage_use(units: &[Unit], sizes: &[u64], placement: &[At], stage: u8) -> StageUse
    requires few { length placement.now ≤ most_instances }
    requires named { NamesUnits (map seen_unit units.now) placement.now }
    requires sizes { AreSmall sizes.now }
    ensures { result
        ≡ stage_use_of (nth_size sizes.now) (standing (map seen_unit units.now) placement.now) stage }
{
    let mut used = StageUse {
        stateful: 0,
        stateless: 0,
        memory: 0,
        table_bits: 0,
        ternary_bits: 0,
    };
    for at in placement {
        used = with_instance(used, units, sizes, *at, stage);
    }
    used
}

/// The header bits: those at all sizes, and for each symbol those of one more of it, as often as its size says.
pub fn header_use(units: &Units, sizes: &[u64]) -> u128
    requires few { length sizes.now ≤ most_symbols }
    requires small { AreSmall sizes.now }
    ensures { result ≡ header_use_of (seen_units units.now) sizes.now }
{
    let each = units.symbol_bits.as_slice();
    let count = each.len().min(sizes.len());
    let mut used = u128::from(units.fixed_bits);
    for i in 0..count {
        used += u128::from(each[i]) * u128::from(sizes[i]);
    }
    used
}

/// What the instances of a placement take of each stage of a target, and the header bits of the sizes.
pub fn report(
    alloc: Global,
    units: &Units,
    target: &Target,
    sizes: &Sizes,
    placement: &Placement,
) -> Result<UseTable, AllocError>
    requires sound { AreSound units.now }
    requires sizes { AreSizesOf units.now sizes.now.values }
    requires few { length placement.now.at ≤ most_instances }
    requires named { NamesUnits (map seen_unit units.now.list) placement.now.at }
    ensures { IfOk result (IsUseTable (seen_units units.now) target.now sizes.now.values placement.now.at) }
{
    let sizes = sizes.values.as_slice();
    let mut stages = Items::new(alloc);
    for stage in 0..target.stages {
        stages.push(stage_use(units.list.as_slice(), sizes, placement.at.as_slice(), stage))?;
    }
    Ok(UseTable {
        stages,
        header: header_use(units, sizes),
    })
}

//! That the numbers of units fit the types that hold them.

ghost use Rattle.std.specs.Prelude.{All, ◌<◌, ◌^◌};
ghost use Rattle.elastic_ast.specs.Units.SeenUnits.{seen_unit, seen_units};
ghost use Rattle.ilp_model.specs.InLimits.{FitCells, FitsUnit, FitTypes};

use elastic_ast::{Cells, Unit, Units};

/// A fixed number of cells is read.
fn cells_fit(cells: Option<Cells>)
    ensures { FitCells cells }
{
    if let Some(Cells::Fixed(number)) = cells {
        let _number = number;
    }
}

/// The numbers of a unit are read.
fn unit_fits(unit: &Unit)
    ensures { FitsUnit (seen_unit unit.now) }
{
    cells_fit(unit.cells);
    let _width = unit.cell_width;
    let _cost = unit.cost;
    let _table = unit.table_bits;
    let _ternary = unit.ternary_bits;
}

/// The numbers of each unit are read.
fn all_fit(units: &[Unit])
    ensures { All (λ unit. FitsUnit (seen_unit unit)) units.now }
{
    for unit in units {
        unit_fits(unit);
    }
}

/// Numbers of 64 bits are read.
fn bits_fit(numbers: &[u64])
    ensures { All (λ bits. bits < 2 ^ 64) numbers.now }
{
    for number in numbers {
        let _number = *number;
    }
}

/// The numbers of units fit the types that hold them.
pub fn numbers_fit(units: &Units)
    ensures { FitTypes (seen_units units.now) }
{
    all_fit(units.list.as_slice());
    bits_fit(units.symbol_bits.as_slice());
    let _fixed = units.fixed_bits;
}

//! The tests of what `check` and `report` ask of sizes and placements.

ghost use Rattle.std.specs.Prelude.{◌≡◌, ◌<◌, ◌↔◌, IsTrue, length, map, All};
ghost use Rattle.elastic_ast.specs.Units.SeenUnits.{seen_unit};
ghost use Rattle.place_check.specs.Conditions.{AreSmall, AreSizesOf};
ghost use Rattle.place_check.specs.Standing.{NamesUnits};

use elastic_ast::{At, Placement, Sizes, Units};

fn are_small(sizes: &[u64]) -> bool
    ensures { IsTrue result ↔ AreSmall sizes.now }
{
    sizes.iter().all(|size| *size <= 4_294_967_296)
}

/// Whether there is one size a symbol, and none is above 2^32.
pub fn are_sizes_of(units: &Units, sizes: &Sizes) -> bool
    ensures { IsTrue result ↔ AreSizesOf units.now sizes.now.values }
{
    let values = sizes.values.as_slice();
    values.len() == units.terms.symbols.as_slice().len() && are_small(values)
}

fn all_below(placement: &[At], count: usize) -> bool
    ensures { IsTrue result ↔ All (λ at. at.unit < count) placement.now }
{
    placement.iter().all(|at| (at.unit as usize) < count)
}

/// Whether each number in a placement is that of a unit.
pub fn names_units(units: &Units, placement: &Placement) -> bool
    ensures { IsTrue result ↔ NamesUnits (map seen_unit units.now.list) placement.now.at }
{
    all_below(placement.at.as_slice(), units.list.as_slice().len())
}

//! The instances of units at sizes, listed.

ghost use Rattle.std.specs.Prelude.{◌≡◌, ◌<◌, ◌+◌, ◌^◌, [], ◌∷◌, ◌++◌, length, map, All, OnOk, IfOk};
ghost use Rattle.elastic_ast.specs.Units.Instances.{nth_size, each_turn, pair_of, instances};
ghost use Rattle.elastic_ast.specs.Units.SeenUnits.{seen_unit};
ghost use Rattle.place_check.specs.Conditions.{AreSmall};
ghost use Rattle.place_check.specs.Walking.{one_turn};

use crate::listing::{joined_from, turns_of};
use elastic_ast::Unit;
use elx_bits::Items;
use std::alloc::{AllocError, Global};

/// Lists some units at one index.
fn list_turn(
    list: &mut Items<(usize, u64)>,
    first: usize,
    count: usize,
    index: u64,
) -> Result<(), AllocError>
    requires { first + count < 2 ^ 64 }
    ensures { OnOk result (list.new ≡ list.old ++ one_turn first count index) }
{
    for step in 0..count {
        list.push((first + step, index))?;
    }
    Ok(())
}

/// Lists some units at one index after the other.
fn list_turns(
    list: &mut Items<(usize, u64)>,
    first: usize,
    count: usize,
    turns: u64,
) -> Result<(), AllocError>
    requires { first + count < 2 ^ 64 }
    ensures { OnOk result (list.new ≡ list.old ++ each_turn turns (one_turn first count)) }
{
    for index in 0..turns {
        list_turn(list, first, count, index)?;
    }
    Ok(())
}

/// The instances of units at sizes, in the order of the sequential run: the number of each one's unit, and its index.
///
/// There is one size for each symbol that a loop runs over, and none is above 2 to the power of 32. The only error is that there is no
/// memory for the list.
pub fn list_instances(
    alloc: Global,
    units: &[Unit],
    sizes: &[u64],
) -> Result<Items<(usize, u64)>, AllocError>
    requires { AreSmall sizes.now }
    ensures list { IfOk result (λ list. list ≡ map pair_of (instances (map seen_unit units.now) (nth_size sizes.now))) }
    ensures named { IfOk result (λ list. All (λ pair. pair.0 < length units.now) list) }
{
    let mut list = Items::new(alloc);
    let mut first = 0;
    while first < units.len() {
        let unit = &units[first];
        let count = 1 + joined_from(units, first + 1, unit.loop_no, unit.size);
        list_turns(&mut list, first, count, turns_of(unit, sizes))?;
        first += count;
    }
    Ok(list)
}

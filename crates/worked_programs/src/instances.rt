//! The instances of units at given sizes.

use elastic_ast::{At, Placement, Unit};
use elx_bits::Items;
use std::alloc::{AllocError, Global};

/// Adds an instance, in stage 0.
fn add(instances: &mut Items<At>, unit: usize, index: u64) -> Result<(), AllocError> {
    let (Ok(unit), Ok(index)) = (u32::try_from(unit), u32::try_from(index)) else {
        return Err(AllocError);
    };
    instances.push(At {
        unit,
        index,
        stage: 0,
    })?;
    Ok(())
}

/// Adds the instances of the units of a loop at an index.
fn add_turn(
    instances: &mut Items<At>,
    units: &[Unit],
    number: u32,
    index: u64,
) -> Result<(), AllocError> {
    for (place, unit) in units.iter().enumerate() {
        if unit.loop_no == Some(number) {
            add(instances, place, index)?;
        }
    }
    Ok(())
}

/// Whether the unit at a place is the first of the loop of a number.
fn begins(units: &[Unit], place: usize, number: u32) -> bool {
    units.iter().position(|unit| unit.loop_no == Some(number)) == Some(place)
}

/// How often a unit runs.
fn turns(unit: &Unit, sizes: &[u64]) -> u64 {
    match unit.size {
        Some(symbol) => sizes.get(symbol as usize).copied().unwrap_or(0),
        None => 1,
    }
}

/// The instances of units at sizes, in the order in which they run: all units of a loop at one index, then all at the next.
pub fn instances(alloc: Global, units: &[Unit], sizes: &[u64]) -> Result<Placement, AllocError> {
    let mut at = Items::new(alloc);
    for (place, unit) in units.iter().enumerate() {
        match unit.loop_no {
            None => add(&mut at, place, 0)?,
            Some(number) => {
                if begins(units, place, number) {
                    for index in 0..turns(unit, sizes) {
                        add_turn(&mut at, units, number, index)?;
                    }
                }
            }
        }
    }
    Ok(Placement { at })
}

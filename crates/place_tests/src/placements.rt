//! Placements by hand, each with what is wrong with it first, and with what it uses.

ghost use Rattle.place_check.specs.Conditions.{AreSound};

use crate::units::{COPY_AFTER_SET, SET_AFTER_COPY, TWO_REGISTERS, units_of};
use elastic_ast::{At, Placement, Sizes, Units};
use elx_bits::Items;
use place_check::{PlaceFault, Resource, StageUse, are_sizes_of, check, names_units, report};
use std::alloc::{AllocError, Global};
use std::test::Fail;
use target_desc::Target;

/// One stage, with 1024 bits of registers.
const SWITCH: Target = Target {
    stages: 1,
    memory_bits: 1024,
    stateful: 2,
    stateless: 8,
    table_bits: 1024,
    ternary_bits: 1024,
    header_bits: 512,
    ops: 8,
};

fn placement(alloc: Global, places: &[(u32, u32, u8)]) -> Result<Placement, AllocError> {
    let mut at = Items::new(alloc);
    for (unit, index, stage) in places {
        at.push(At {
            unit: *unit,
            index: *index,
            stage: *stage,
        })?;
    }
    Ok(Placement { at })
}

fn sizes(alloc: Global, values: &[u64]) -> Result<Sizes, AllocError> {
    Ok(Sizes {
        values: Items::from_vec(values.to_vec(alloc)?),
    })
}

/// What the checker says, where it may be asked.
fn said(units: &Units, sizes: &Sizes, placement: &Placement) -> Option<Result<(), PlaceFault>>
    requires { AreSound units.now }
{
    if are_sizes_of(units, sizes) && placement.at.as_slice().len() <= 4_294_967_295 {
        Some(check(units, &SWITCH, sizes, placement))
    } else {
        None
    }
}

/// What the first stage takes, and the header bits, where they may be asked for.
fn used(
    alloc: Global,
    units: &Units,
    sizes: &Sizes,
    placement: &Placement,
) -> Result<Option<(StageUse, u128)>, AllocError>
    requires { AreSound units.now }
{
    if are_sizes_of(units, sizes)
        && names_units(units, placement)
        && placement.at.as_slice().len() <= 4_294_967_295
    {
        let table = report(alloc, units, &SWITCH, sizes, placement)?;
        Ok(
            table
                .stages
                .as_slice()
                .first()
                .map(|stage| (*stage, table.header)),
        )
    } else {
        Ok(None)
    }
}

/// Sizes, a placement, and what is wrong with them.
type Row<'a> = (&'a [u64], &'a [(u32, u32, u8)], Result<(), PlaceFault>);

const BOTH: [(u32, u32, u8); 2] = [(0, 0, 0), (1, 0, 0)];

const OVER: PlaceFault = PlaceFault::Over {
    stage: 0,
    resource: Resource::Memory,
    used: 1056,
    limit: 1024,
};

const OUT: PlaceFault = PlaceFault::StageOut {
    unit: 0,
    index: 0,
    stage: 1,
};

const OF_TWO_REGISTERS: [Row<'static>; 9] = [
    (&[27, 5], &BOTH, Ok(())),
    (&[28, 5], &BOTH, Err(OVER)),
    (&[27, 4], &BOTH, Err(PlaceFault::Terms)),
    (&[0, 5], &BOTH, Err(PlaceFault::Terms)),
    (
        &[27, 5],
        &[(0, 0, 0)],
        Err(PlaceFault::Instances { place: 1 }),
    ),
    (
        &[27, 5],
        &[(0, 0, 0), (1, 1, 0)],
        Err(PlaceFault::Instances { place: 1 }),
    ),
    (
        &[27, 5],
        &[(0, 0, 0), (1, 0, 0), (2, 0, 0)],
        Err(PlaceFault::Instances { place: 2 }),
    ),
    (
        &[27, 5],
        &[(4_294_967_295, 0, 9), (1, 0, 9)],
        Err(PlaceFault::Instances { place: 0 }),
    ),
    (&[28, 5], &[(0, 0, 1), (1, 0, 0)], Err(OUT)),
];

#[test]
fn the_first_fault_is_named(rt: HostRuntime) -> Result<(), Fail> {
    let units = units_of(rt.alloc(), TWO_REGISTERS)?;
    for (values, places, want) in OF_TWO_REGISTERS {
        let given = placement(rt.alloc(), places)?;
        assert_eq!(rt;
            said(&units, &sizes(rt.alloc(), values)?, &given),
            Some(want)
        );
    }
    Ok(())
}

#[test]
fn what_is_assigned_may_not_be_read_in_its_stage(rt: HostRuntime) -> Result<(), Fail> {
    let none = sizes(rt.alloc(), &[])?;
    let both = placement(rt.alloc(), &BOTH)?;
    let against = PlaceFault::Order {
        unit: 0,
        index: 0,
        other: 1,
        other_index: 0,
    };
    let beside = units_of(rt.alloc(), SET_AFTER_COPY)?;
    assert_eq!(rt; said(&beside, &none, &both), Some(Ok(())));
    let behind = units_of(rt.alloc(), COPY_AFTER_SET)?;
    assert_eq!(rt; said(&behind, &none, &both), Some(Err(against)));
    Ok(())
}

#[test]
fn uses_are_those_of_the_instances(rt: HostRuntime) -> Result<(), Fail> {
    let units = units_of(rt.alloc(), TWO_REGISTERS)?;
    let stage = StageUse {
        stateful: 2,
        stateless: 2,
        memory: 1024,
        table_bits: 0,
        ternary_bits: 0,
    };
    let both = placement(rt.alloc(), &BOTH)?;
    let given = sizes(rt.alloc(), &[27, 5])?;
    assert_eq!(rt; used(rt.alloc(), &units, &given, &both)?, Some((stage, 73)));
    let large = sizes(rt.alloc(), &[4_294_967_296, 4_294_967_296])?;
    let most = StageUse {
        memory: 274_877_906_944,
        ..stage
    };
    assert_eq!(rt; used(rt.alloc(), &units, &large, &both)?, Some((most, 73)));
    Ok(())
}

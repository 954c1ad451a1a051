//! Programs built by hand, with values worked by hand.

use elx_bits::Items;
use int_program::{
    Ip, IpBox, Part, Row, are_small, is_in_limits, is_nonempty, least, most, root, tighten,
};
use std::alloc::{AllocError, Global};
use std::process::Abort;
use std::test::Fail;

/// Half of the limit of a row's weighted sum.
const HALF: i128 = 1 << 99;

/// A part as the tests below write it: its variable and its coefficient.
type Given = (u32, i128);

fn parts(alloc: Global, given: &[Given]) -> Result<Items<Part>, AllocError> {
    let mut parts = Items::new(alloc);
    for part in given {
        let (var, by) = *part;
        parts.push(Part { var, by })?;
    }
    Ok(parts)
}

fn numbers(alloc: Global, given: &[i128]) -> Result<Items<i128>, AllocError> {
    Ok(Items::from_vec(given.to_vec(alloc)?))
}

fn row(alloc: Global, given: &[Given], most: i128) -> Result<Row, AllocError> {
    Ok(Row {
        parts: parts(alloc, given)?,
        most,
    })
}

fn boxed(alloc: Global, low: &[i128], high: &[i128]) -> Result<IpBox, AllocError> {
    Ok(IpBox {
        low: numbers(alloc, low)?,
        high: numbers(alloc, high)?,
    })
}

fn ip(
    alloc: Global,
    tops: &[i128],
    given: Row,
    goal: &[Given],
    base: i128,
) -> Result<Ip, AllocError> {
    let mut rows = Items::new(alloc);
    rows.push(given)?;
    Ok(Ip {
        tops: numbers(alloc, tops)?,
        rows,
        goal: parts(alloc, goal)?,
        base,
    })
}

/// The least and the greatest value, where box and row meet the conditions.
fn bounds(given: &Row, within: &IpBox) -> Option<(i128, i128)> {
    let parts = given.parts.as_slice();
    let high = within.high.as_slice();
    if !is_nonempty(within) {
        return None;
    }
    if !are_small(parts, given.most, high) {
        return None;
    }
    if !are_small(parts, 0, high) {
        return None;
    }
    Some((least(given, within), most(parts, within)))
}

/// The tightened ends, where box, row and variable meet the conditions.
fn tightened(given: &Row, var: u32, within: &IpBox) -> Option<Option<(i128, i128)>> {
    let high = within.high.as_slice();
    if !is_nonempty(within) {
        return None;
    }
    if !are_small(given.parts.as_slice(), given.most, high) {
        return None;
    }
    if var as usize >= high.len() {
        return None;
    }
    Some(tighten(given, var, within))
}

#[test]
fn the_root_goes_from_zero_to_the_tops(rt: HostRuntime) -> Result<(), Fail> {
    for (tops, low) in [
        ([5, 0, 3].as_slice(), [0, 0, 0].as_slice()),
        ([7].as_slice(), [0].as_slice()),
        ([].as_slice(), [].as_slice()),
    ] {
        let program = ip(rt.alloc(), tops, row(rt.alloc(), &[], 0)?, &[], 0)?;
        let within = root(rt.alloc(), &program)?;
        assert_eq!(rt; within.low.as_slice(), low);
        assert_eq!(rt; within.high.as_slice(), tops);
    }
    Ok(())
}

#[test]
fn least_and_most_take_the_ends_that_the_signs_ask_for(rt: HostRuntime) -> Result<(), Fail> {
    let within = boxed(rt.alloc(), &[1, 0, 2], &[4, 3, 2])?;
    for (given, low, high) in [
        ([].as_slice(), 0, 0),
        ([(0, 2)].as_slice(), 2, 8),
        ([(0, -3)].as_slice(), -12, -3),
        ([(0, 2), (1, -5)].as_slice(), -13, 8),
        ([(0, -1), (1, 1), (2, -7)].as_slice(), -18, -12),
        ([(1, 0)].as_slice(), 0, 0),
    ] {
        let given = row(rt.alloc(), given, 0)?;
        assert_eq!(rt; bounds(&given, &within), Some((low, high)));
    }
    Ok(())
}

#[test]
fn on_a_box_of_one_point_least_and_most_are_the_sum_there(rt: HostRuntime) -> Result<(), Fail> {
    let within = boxed(rt.alloc(), &[3, 1, 2], &[3, 1, 2])?;
    let given = row(rt.alloc(), &[(0, 2), (1, -5), (2, 1)], 0)?;
    assert_eq!(rt; bounds(&given, &within), Some((3, 3)));
    assert_eq!(rt; tightened(&given, 1, &within), Some(None));
    Ok(())
}

#[test]
fn tighten_rounds_the_high_end_down(rt: HostRuntime) -> Result<(), Fail> {
    let within = boxed(rt.alloc(), &[1, 0, 2], &[4, 3, 2])?;
    for (given, right, var, ends) in [
        ([(0, 3)].as_slice(), 10, 0, Some((1, 3))),
        ([(0, 3)].as_slice(), 3, 0, Some((1, 1))),
        ([(0, 3)].as_slice(), 2, 0, None),
        ([(0, 3)].as_slice(), 12, 0, None),
        ([(0, 3)].as_slice(), 20, 0, None),
        ([(0, 3)].as_slice(), 10, 2, None),
        ([(0, 0)].as_slice(), -1, 0, None),
        ([(1, 2)].as_slice(), -1, 1, None),
        ([(0, 2), (1, 3), (2, -1)].as_slice(), 1, 1, Some((0, 0))),
        ([(0, 2), (1, 3), (2, -1)].as_slice(), 1, 0, Some((1, 1))),
        ([(0, 2), (1, -4)].as_slice(), -5, 0, Some((1, 3))),
    ] {
        let given = row(rt.alloc(), given, right)?;
        assert_eq!(rt; tightened(&given, var, &within), Some(ends));
    }
    Ok(())
}

#[test]
fn tighten_rounds_the_low_end_up(rt: HostRuntime) -> Result<(), Fail> {
    let within = boxed(rt.alloc(), &[1, 0, 2], &[4, 3, 2])?;
    for (given, right, var, ends) in [
        ([(0, -2)].as_slice(), -5, 0, Some((3, 4))),
        ([(0, -2)].as_slice(), -8, 0, Some((4, 4))),
        ([(0, -2)].as_slice(), -2, 0, None),
        ([(0, -2)].as_slice(), -9, 0, None),
        ([(1, -2)].as_slice(), 3, 1, None),
        ([(0, 1), (1, -3)].as_slice(), -1, 1, Some((1, 3))),
        ([(0, 1), (1, -3), (2, 4)].as_slice(), 2, 1, Some((3, 3))),
    ] {
        let given = row(rt.alloc(), given, right)?;
        assert_eq!(rt; tightened(&given, var, &within), Some(ends));
    }
    Ok(())
}

#[test]
fn parts_name_variables_once_by_rising_number(rt: HostRuntime) -> Result<(), Fail> {
    for (given, goal, want) in [
        ([].as_slice(), [].as_slice(), true),
        ([(0, 1), (1, -2)].as_slice(), [(1, 1)].as_slice(), true),
        ([(2, 1)].as_slice(), [].as_slice(), false),
        ([(1, 1), (1, -1)].as_slice(), [].as_slice(), false),
        ([(1, 1), (0, 1)].as_slice(), [].as_slice(), false),
        ([].as_slice(), [(2, 1)].as_slice(), false),
        ([].as_slice(), [(0, 1), (0, 1)].as_slice(), false),
    ] {
        let given = row(rt.alloc(), given, 3)?;
        let program = ip(rt.alloc(), &[1, 0], given, goal, -4)?;
        assert_eq!(rt; is_in_limits(&program), want);
    }
    Ok(())
}

/// The tops are 1 and 0, which both count as 1; the limit is twice HALF.
#[test]
fn rows_are_small_up_to_the_last_number(rt: HostRuntime) -> Result<(), Fail> {
    for (given, right, want) in [
        ([(0, HALF)].as_slice(), HALF - 1, true),
        ([(0, HALF)].as_slice(), HALF, false),
        ([(1, -HALF)].as_slice(), 1 - HALF, true),
        ([(1, -HALF)].as_slice(), -HALF, false),
        ([].as_slice(), 2 * HALF - 1, true),
        ([].as_slice(), 2 * HALF, false),
        ([(0, i128::MIN)].as_slice(), i128::MIN, false),
    ] {
        let given = row(rt.alloc(), given, right)?;
        let program = ip(rt.alloc(), &[1, 0], given, &[], 0)?;
        assert_eq!(rt; is_in_limits(&program), want);
    }
    Ok(())
}

#[test]
fn the_objective_is_small_together_with_its_constant(rt: HostRuntime) -> Result<(), Fail> {
    for (base, want) in [(0, true), (-1, false), (1, false)] {
        let given = row(rt.alloc(), &[], 0)?;
        let goal = [(0, HALF), (1, HALF - 1)];
        let program = ip(rt.alloc(), &[1, 0], given, &goal, base)?;
        assert_eq!(rt; is_in_limits(&program), want);
    }
    Ok(())
}

#[test]
fn tops_are_not_negative_and_not_too_many(rt: HostRuntime) -> Result<(), Fail> {
    let wide = ip(
        rt.alloc(),
        &[i128::MAX],
        row(rt.alloc(), &[(0, i128::MAX)], 0)?,
        &[],
        0,
    )?;
    assert_eq!(rt; is_in_limits(&wide), false);
    let negative = ip(rt.alloc(), &[3, -1], row(rt.alloc(), &[], 0)?, &[], 0)?;
    assert_eq!(rt; is_in_limits(&negative), false);
    let mut tops = Vec::new(rt.alloc());
    for _ in 0..100_000u32 {
        tops.push(0)?;
    }
    let full = ip(
        rt.alloc(),
        tops.as_slice(),
        row(rt.alloc(), &[], 0)?,
        &[],
        0,
    )?;
    assert_eq!(rt; is_in_limits(&full), true);
    tops.push(0)?;
    let over = ip(
        rt.alloc(),
        tops.as_slice(),
        row(rt.alloc(), &[], 0)?,
        &[],
        0,
    )?;
    assert_eq!(rt; is_in_limits(&over), false);
    Ok(())
}

#[test]
fn a_nonempty_box_has_two_ends_in_order_for_each_variable(rt: HostRuntime) -> Result<(), Fail> {
    for (low, high, want) in [
        ([].as_slice(), [].as_slice(), true),
        ([0, 2].as_slice(), [0, 3].as_slice(), true),
        ([0, 2].as_slice(), [0].as_slice(), false),
        ([0, 2].as_slice(), [0, 1].as_slice(), false),
        ([0, -1].as_slice(), [0, 3].as_slice(), false),
    ] {
        let within = boxed(rt.alloc(), low, high)?;
        assert_eq!(rt; is_nonempty(&within), want);
    }
    Ok(())
}

//! What holds on a box: a row that closes it, a tightening of it, and what the point of its lows is worth.

ghost use Rattle.std.specs.Prelude.{◌≡◌, ◌≢◌, ◌↔◌, ℕ, ◌<◌, ◌≤ℤ◌, length, slice_get, Some, None, true, false, IfOk, IfSome, IfNone, IsTrue, IsSome, int_lt};
ghost use Rattle.int_program.specs.Boxes.{IsNonempty, IsFromZero, IsInside};
ghost use Rattle.int_program.specs.Limits.{AreSmall, IsInLimits};
ghost use Rattle.branch_bound.specs.States.{IsRowState, AreStates};
ghost use Rattle.int_program.specs.Points.{IsPoint, value_of};
ghost use Rattle.int_program.specs.Accepts.{IsAccepted, tight_fault};
ghost use Rattle.int_program.specs.Fair.{NoRowLeaf, NoTightening};
ghost use Rattle.branch_bound.specs.Lines.{IsSingle, AtMost, IsBestKnown, IsTried, AreWithinTops};

use crate::boxes::lowest;
use crate::states::{RowState, states_of};
use elx_bits::Items;
use int_program::{Ip, IpBox, Node, Point, Row, fault_of_tight_row, goal_most};
use std::alloc::{AllocError, Global};

/// Whether the row holds nowhere.
fn closes(row: &Row, state: RowState) -> bool
    ensures { result ≡ int_lt row.now.most state.least }
{
    row.most < state.least
}

/// Whether the lows break the row.
fn breaks(row: &Row, state: RowState) -> bool
    ensures { result ≡ int_lt row.now.most state.at_lows }
{
    row.most < state.at_lows
}

/// The first row that closes the box.
pub(crate) fn closing_row(ip: &Ip, within: &IpBox, states: &[RowState]) -> Option<u32>
    requires limits { IsInLimits ip.now }
    requires inside { IsInside ip.now within.now }
    requires states { AreStates ip.now within.now states.now }
    ensures found { IfSome result (λ r. IsAccepted ip.now None within.now (Node.RowLeaf r)) }
    ensures none { IfNone result (NoRowLeaf ip.now within.now) }
{
    let _ = within;
    let rows = ip.rows.as_slice();
    'rows: for i in 0..rows.len() {
        if closes(&rows[i], states[i]) {
            return Some(i as u32);
        }
    }
    None
}

/// Whether the lows are a point of the program.
fn lows_hold(ip: &Ip, within: &IpBox, states: &[RowState]) -> bool
    requires limits { IsInLimits ip.now }
    requires inside { IsInside ip.now within.now }
    requires states { AreStates ip.now within.now states.now }
    ensures { IsTrue result ↔ IsPoint ip.now within.now.low }
{
    let _ = within;
    let rows = ip.rows.as_slice();
    'rows: for i in 0..rows.len() {
        if breaks(&rows[i], states[i]) {
            return false;
        }
    }
    true
}

/// The first variable that the row tightens.
fn tight_variable(row: &Row, count: usize, within: &IpBox) -> Option<u32>
    requires nonempty { IsNonempty within.now }
    requires from_zero { IsFromZero within.now }
    requires small { AreSmall row.now.parts row.now.most within.now.high }
    requires counted { count ≡ length within.now.high }
    ensures found { IfSome result (λ v. tight_fault count within.now v (Some row.now) ≡ None) }
    ensures none { IfNone result ((v : ℕ) → tight_fault count within.now v (Some row.now) ≢ None) }
{
    'parts: for part in row.parts.as_slice() {
        if fault_of_tight_row(row, count, within, part.var).is_none() {
            return Some(part.var);
        }
    }
    None
}

/// The first variable that the row tightens, if it isn't known that there is none.
fn tight_in(row: &Row, count: usize, within: &IpBox, state: &mut RowState) -> Option<u32>
    requires nonempty { IsNonempty within.now }
    requires from_zero { IsFromZero within.now }
    requires small { AreSmall row.now.parts row.now.most within.now.high }
    requires counted { count ≡ length within.now.high }
    requires state { IsRowState count within.now row.now state.old }
    ensures state { IsRowState count within.now row.now state.new }
    ensures found { IfSome result (λ v. tight_fault count within.now v (Some row.now) ≡ None) }
    ensures none { IfNone result ((v : ℕ) → tight_fault count within.now v (Some row.now) ≢ None) }
{
    if state.settled {
        return None;
    }
    let var = tight_variable(row, count, within);
    state.settled = var.is_none();
    var
}

/// The first variable and row of a tightening that is accepted on the box. Rows that are known to tighten nothing are passed over.
pub(crate) fn tightening(ip: &Ip, within: &IpBox, states: &mut [RowState]) -> Option<(u32, u32)>
    requires limits { IsInLimits ip.now }
    requires inside { IsInside ip.now within.now }
    requires states { AreStates ip.now within.now states.old }
    ensures states { AreStates ip.now within.now states.new }
    ensures found { IfSome result (λ t. IsAccepted ip.now None within.now (Node.Tight t.0 t.1)) }
    ensures none { IfNone result (NoTightening ip.now within.now) }
{
    let rows = ip.rows.as_slice();
    let count = ip.tops.as_slice().len();
    'rows: for i in 0..rows.len() {
        match tight_in(&rows[i], count, within, &mut states[i]) {
            Some(var) => return Some((var, i as u32)),
            None => {}
        }
    }
    None
}

/// Whether the value is above the known one, where one is known.
fn is_above(value: i128, known: Option<i128>) -> bool
    ensures yes { IsTrue result → AtMost known (Some value) }
    ensures no { result ≡ false → IfSome known (λ u. value ≤ℤ u) × IsSome known }
{
    match known {
        None => true,
        Some(u) => value > u,
    }
}

/// Takes the lowest point of the box as the best one, where it is better, and answers the value that is known then.
pub(crate) fn try_lowest(
    alloc: Global,
    ip: &Ip,
    within: &IpBox,
    states: &[RowState],
    known: Option<i128>,
    best: &mut Option<Point>,
) -> Result<Option<i128>, AllocError>
    requires limits { IsInLimits ip.now }
    requires inside { IsInside ip.now within.now }
    requires states { AreStates ip.now within.now states.now }
    requires best_known { IsBestKnown ip.now best.old known }
    ensures { IfOk result (λ now. IsTried ip.now within.now.low known now best.new) }
{
    if !lows_hold(ip, within, states) {
        return Ok(known);
    }
    let point = lowest(alloc, within)?;
    let value = goal_most(ip, &point);
    if is_above(value, known) {
        let IpBox { low, high: _ } = point;
        *best = Some(Point { values: low });
        Ok(Some(value))
    } else {
        Ok(known)
    }
}

/// Whether there is a number for each variable, from 0 to its top.
fn are_within_tops(ip: &Ip, values: &[i128]) -> bool
    ensures { IsTrue result → AreWithinTops ip.now values.now }
{
    let tops = ip.tops.as_slice();
    if values.len() != tops.len() {
        return false;
    }
    'values: for i in 0..values.len() {
        if values[i] < 0 || values[i] > tops[i] {
            return false;
        }
    }
    true
}

/// Takes the values as the best point, where they are one and it is better, and answers the value that is known then.
pub(crate) fn try_values(
    alloc: Global,
    ip: &Ip,
    values: Vec<i128>,
    known: Option<i128>,
    best: &mut Option<Point>,
) -> Result<Option<i128>, AllocError>
    requires limits { IsInLimits ip.now }
    requires best_known { IsBestKnown ip.now best.old known }
    ensures { IfOk result (λ now. IsBestKnown ip.now best.new now) }
{
    if !are_within_tops(ip, values.as_slice()) {
        return Ok(known);
    }
    let high = Items::from_vec(values.as_slice().to_vec(alloc)?);
    let point = IpBox {
        low: Items::from_vec(values),
        high,
    };
    let states = states_of(alloc, ip, &point)?;
    try_lowest(alloc, ip, &point, states.as_slice(), known, best)
}

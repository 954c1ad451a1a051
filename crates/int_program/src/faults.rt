//! Why a node without weights is not accepted on its box: tests that a checker and a search share.

ghost use Rattle.std.specs.Prelude.{◌≡◌, ◌<◌, length, slice_get, unsigned_abs};
ghost use Rattle.std.specs.Prelude.{◌+ℤ◌};
ghost use Rattle.int_program.specs.Boxes.{IsNonempty, IsFromZero, IsInside};
ghost use Rattle.int_program.specs.Bounds.{most_of};
ghost use Rattle.int_program.specs.Limits.{AreSmall, IsInLimits};
ghost use Rattle.int_program.specs.Accepts.{split_fault, tight_fault, row_fault, goal_fault};

use crate::bounds::{least, most};
use crate::program::{Ip, IpBox, Row, Why};
use crate::tightening::tighten;

/// Why a split is not accepted on a box inside the root box, if it is not.
pub fn fault_of_split(ip: &Ip, within: &IpBox, var: u32, at: i128) -> Option<Why>
    requires { IsInside ip.now within.now }
    ensures { result ≡ split_fault (length ip.now.tops) within.now var at }
{
    let v = var as usize;
    if v < ip.tops.as_slice().len() {
        if within.low.as_slice()[v] <= at && at < within.high.as_slice()[v] {
            None
        } else {
            Some(Why::BadSplit)
        }
    } else {
        Some(Why::BadVar)
    }
}

/// Why a tightening by a row is not accepted on a box with `count` variables, if it is not.
pub fn fault_of_tight_row(row: &Row, count: usize, within: &IpBox, var: u32) -> Option<Why>
    requires nonempty { IsNonempty within.now }
    requires from_zero { IsFromZero within.now }
    requires small { AreSmall row.now.parts row.now.most within.now.high }
    requires counted { count ≡ length within.now.high }
    ensures { result ≡ tight_fault count within.now var (Some row.now) }
{
    if (var as usize) < count {
        match tighten(row, var, within) {
            Some(_) => None,
            None => Some(Why::NotTight),
        }
    } else {
        Some(Why::BadVar)
    }
}

/// Why a tightening is not accepted on a box inside the root box, if it is not.
pub fn fault_of_tight(ip: &Ip, within: &IpBox, var: u32, row: u32) -> Option<Why>
    requires limits { IsInLimits ip.now }
    requires inside { IsInside ip.now within.now }
    ensures { result ≡ tight_fault (length ip.now.tops) within.now var (slice_get ip.now.rows row) }
{
    let rows = ip.rows.as_slice();
    let row = row as usize;
    if row < rows.len() {
        fault_of_tight_row(&rows[row], ip.tops.as_slice().len(), within, var)
    } else {
        Some(Why::BadVar)
    }
}

/// Why a leaf by a row is not accepted on a box, if it is not.
pub fn fault_of_row(row: &Row, within: &IpBox) -> Option<Why>
    requires nonempty { IsNonempty within.now }
    requires from_zero { IsFromZero within.now }
    requires small { AreSmall row.now.parts row.now.most within.now.high }
    ensures { result ≡ row_fault within.now (Some row.now) }
{
    if row.most < least(row, within) {
        None
    } else {
        Some(Why::RowHolds)
    }
}

/// Why a row leaf is not accepted on a box inside the root box, if it is not.
pub fn fault_of_row_leaf(ip: &Ip, within: &IpBox, row: u32) -> Option<Why>
    requires limits { IsInLimits ip.now }
    requires inside { IsInside ip.now within.now }
    ensures { result ≡ row_fault within.now (slice_get ip.now.rows row) }
{
    let rows = ip.rows.as_slice();
    let row = row as usize;
    if row < rows.len() {
        fault_of_row(&rows[row], within)
    } else {
        Some(Why::BadVar)
    }
}

/// The objective's greatest value on a box inside the root box, its constant included.
pub fn goal_most(ip: &Ip, within: &IpBox) -> i128
    requires limits { IsInLimits ip.now }
    requires inside { IsInside ip.now within.now }
    ensures { result ≡ most_of ip.now.goal within.now +ℤ ip.now.base }
{
    most(ip.goal.as_slice(), within) + ip.base
}

/// Why a goal leaf is not accepted on a box inside the root box for the known value, or for none, if it is not.
pub fn fault_of_goal_leaf(ip: &Ip, within: &IpBox, known: Option<i128>) -> Option<Why>
    requires limits { IsInLimits ip.now }
    requires inside { IsInside ip.now within.now }
    ensures { result ≡ goal_fault ip.now within.now known }
{
    match known {
        None => Some(Why::ObjAbove),
        Some(value) => {
            if goal_most(ip, within) <= value {
                None
            } else {
                Some(Why::ObjAbove)
            }
        }
    }
}

//! What a row leaves to one variable of a box.

ghost use Rattle.std.specs.Prelude.{◌≡◌, ◌≢◌, ◌==◌, ◌-ℤ◌, if◌then◌else◌, pos, ◌+◌, ◌<◌, ◌≤◌, length, unsigned_abs, All};
ghost use Rattle.std.specs.Int.{int_div_euclid};
ghost use Rattle.int_program.specs.Sums.{at};
ghost use Rattle.int_program.specs.Boxes.{IsNonempty, IsFromZero};
ghost use Rattle.int_program.specs.Bounds.{least_of, part_least};
ghost use Rattle.int_program.specs.Limits.{part_weight, weight, AreSmall, weight_limit};
ghost use Rattle.int_program.specs.Tightening.{factor, others, shrunk, tight_ends, IsRowTightened};

use crate::bounds::{End, part_end};
use crate::program::{IpBox, Part, Row};

/// The part's coefficient, where it is the variable's.
fn part_factor(part: &Part, var: u32, high: &[i128]) -> i128
    ensures value { result ≡ (if part.now.var == var then part.now.by else pos 0) }
    ensures bound { unsigned_abs result ≤ part_weight part.now high.now }
{
    if part.var == var { part.by } else { 0 }
}

/// The part's least value, where it is another variable's.
fn part_other(part: &Part, var: u32, within: &IpBox) -> i128
    requires nonempty { IsNonempty within.now }
    requires from_zero { IsFromZero within.now }
    requires in_box { part.now.var < length within.now.high }
    requires small { part_weight part.now within.now.high < weight_limit }
    ensures value { result ≡ (if part.now.var == var then pos 0 else part_least part.now within.now) }
    ensures bound { unsigned_abs result ≤ part_weight part.now within.now.high }
{
    if part.var == var {
        0
    } else {
        part_end(End::Least, part, within)
    }
}

/// The variable's coefficient.
fn factor_of(parts: &[Part], var: u32, high: &[i128]) -> i128
    requires { weight parts.now high.now < weight_limit }
    ensures value { result ≡ factor parts.now var }
    ensures bound { unsigned_abs result < weight_limit }
{
    let mut sum = 0;
    for part in parts {
        sum += part_factor(part, var, high);
    }
    sum
}

/// The least value of the other variables' parts.
fn least_of_others(parts: &[Part], var: u32, within: &IpBox) -> i128
    requires nonempty { IsNonempty within.now }
    requires from_zero { IsFromZero within.now }
    requires vars { All (λ p. p.var < length within.now.high) parts.now }
    requires small { weight parts.now within.now.high < weight_limit }
    ensures value { result ≡ least_of (others parts.now var) within.now }
    ensures bound { unsigned_abs result < weight_limit }
{
    let mut sum = 0;
    for part in parts {
        sum += part_other(part, var, within);
    }
    sum
}

/// The quotient, rounded down for a divisor above 0 and up for one below.
fn rounded(most: i128, least: i128, factor: i128) -> i128
    requires most { unsigned_abs most < weight_limit }
    requires least { unsigned_abs least < weight_limit }
    requires factor { factor ≢ pos 0 }
    ensures { result ≡ int_div_euclid (most -ℤ least) factor }
{
    (most - least).div_euclid(factor)
}

/// The ends that are left, where they shrink.
#[tactic(auto, using(std::proofs::lemmas::Int::ints))]
fn shrunk_ends(factor: i128, low: i128, high: i128, end: i128) -> Option<(i128, i128)>
    ensures { result ≡ shrunk factor low high end end }
{
    if factor > 0 {
        if low <= end && end < high {
            Some((low, end))
        } else {
            None
        }
    } else if factor < 0 && low < end && end <= high {
        Some((end, high))
    } else {
        None
    }
}

/// The ends of the variable that are left, where they shrink.
fn shrunk_at(within: &IpBox, var: u32, factor: i128, end: i128) -> Option<(i128, i128)>
    requires lengths { length within.now.low ≡ length within.now.high }
    requires in_box { var < length within.now.high }
    ensures { result ≡ shrunk factor (at within.now.low var) (at within.now.high var) end end }
{
    let var = var as usize;
    shrunk_ends(
        factor,
        within.low.as_slice()[var],
        within.high.as_slice()[var],
        end,
    )
}

/// The ends of the variable that the row leaves.
fn ends_left(row: &Row, var: u32, within: &IpBox) -> Option<(i128, i128)>
    requires nonempty { IsNonempty within.now }
    requires from_zero { IsFromZero within.now }
    requires small { AreSmall row.now.parts row.now.most within.now.high }
    requires var { var < length within.now.high }
    ensures { result ≡ tight_ends row.now var within.now }
{
    let factor = factor_of(row.parts.as_slice(), var, within.high.as_slice());
    if factor == 0 {
        return None;
    }
    let least = least_of_others(row.parts.as_slice(), var, within);
    let end = rounded(row.most, least, factor);
    shrunk_at(within, var, factor, end)
}

/// The variable's low and high end after the row, or none where they don't shrink or nothing would be left.
///
/// The variable is one of the box, and the condition on row and box is that of `least`.
pub fn tighten(row: &Row, var: u32, within: &IpBox) -> Option<(i128, i128)>
    requires nonempty { IsNonempty within.now }
    requires from_zero { IsFromZero within.now }
    requires small { AreSmall row.now.parts row.now.most within.now.high }
    requires var { var < length within.now.high }
    ensures value { result ≡ tight_ends row.now var within.now }
    ensures exact { IsRowTightened row.now var within.now result }
{
    ends_left(row, var, within)
}

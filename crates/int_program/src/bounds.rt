//! The root box, and the least and the greatest value of a sum of parts over a box.

ghost use Rattle.std.specs.Prelude.{◌≡◌, ℤ, pos, ◌*◌, ◌<◌, ◌≤◌, ◌≤ℤ◌, length, unsigned_abs, max, All, IfOk};
ghost use Rattle.int_program.specs.Boxes.{IsNonempty, IsFromZero, root_of};
ghost use Rattle.int_program.specs.Bounds.{least_of, most_of, term_end as term_end_of, part_end as part_end_of, sum_end as sum_end_of, IsReached, NoneBelow, NoneAbove};
ghost use Rattle.int_program.specs.Limits.{part_weight, weight, AreSmall, weight_limit};

use crate::program::{Ip, IpBox, Part, Row};
use elx_bits::Items;
use std::alloc::{AllocError, Global};

/// The box of all points from 0 to the tops.
pub fn root(alloc: Global, ip: &Ip) -> Result<IpBox, AllocError>
    ensures { IfOk result (λ b. b ≡ root_of ip.now) }
{
    let tops = ip.tops.as_slice();
    let mut low = Items::new(alloc);
    'tops: for _top in tops {
        low.push(0)?;
    }
    let high = Items::from_vec(tops.to_vec(alloc)?);
    Ok(IpBox { low, high })
}

/// An end of the values of a sum over a box.
#[derive(Clone, Copy, Debug, PartialEq, Eq)]
pub(crate) enum End {
    Least,
    Most,
}

/// The least or the greatest value of a coefficient times a number from `low` to `high`.
fn term_end(end: End, by: i128, low: i128, high: i128) -> i128
    requires from_zero { pos 0 ≤ℤ low }
    requires nonempty { low ≤ℤ high }
    requires small { unsigned_abs by * max (unsigned_abs high) 1 < weight_limit }
    ensures value { result ≡ term_end_of end by low high }
    ensures bound { unsigned_abs result ≤ unsigned_abs by * max (unsigned_abs high) 1 }
{
    match end {
        End::Least => { if by < 0 { by * high } else { by * low } }
        End::Most => { if by < 0 { by * low } else { by * high } }
    }
}

/// The least or the greatest value of one part.
pub(crate) fn part_end(end: End, part: &Part, within: &IpBox) -> i128
    requires nonempty { IsNonempty within.now }
    requires from_zero { IsFromZero within.now }
    requires var { part.now.var < length within.now.high }
    requires small { part_weight part.now within.now.high < weight_limit }
    ensures value { result ≡ part_end_of end part.now within.now }
    ensures bound { unsigned_abs result ≤ part_weight part.now within.now.high }
{
    let var = part.var as usize;
    term_end(
        end,
        part.by,
        within.low.as_slice()[var],
        within.high.as_slice()[var],
    )
}

/// The least or the greatest value of the parts.
fn sum_end(end: End, parts: &[Part], within: &IpBox) -> i128
    requires nonempty { IsNonempty within.now }
    requires from_zero { IsFromZero within.now }
    requires vars { All (λ p. p.var < length within.now.high) parts.now }
    requires small { weight parts.now within.now.high < weight_limit }
    ensures value { result ≡ sum_end_of end parts.now within.now }
    ensures bound { unsigned_abs result ≤ weight parts.now within.now.high }
{
    let mut sum = 0;
    for part in parts {
        sum += part_end(end, part, within);
    }
    sum
}

/// The least value of a row over a box.
///
/// The box is nonempty and has no number below 0. The row names variables of the box, each once at most, and is small over
/// it, as it is where the box lies inside the root box of a program in its limits.
pub fn least(row: &Row, within: &IpBox) -> i128
    requires nonempty { IsNonempty within.now }
    requires from_zero { IsFromZero within.now }
    requires small { AreSmall row.now.parts row.now.most within.now.high }
    ensures value { result ≡ least_of row.now.parts within.now }
    ensures reached { IsReached row.now.parts within.now result }
    ensures none_below { NoneBelow row.now.parts within.now result }
    ensures bound { unsigned_abs result ≤ weight row.now.parts within.now.high }
{
    sum_end(End::Least, row.parts.as_slice(), within)
}

/// The greatest value of the parts of an objective over a box, its constant not included.
///
/// The condition is that of `least`.
pub fn most(goal: &[Part], within: &IpBox) -> i128
    requires nonempty { IsNonempty within.now }
    requires from_zero { IsFromZero within.now }
    requires small { AreSmall goal.now (pos 0) within.now.high }
    ensures value { result ≡ most_of goal.now within.now }
    ensures reached { IsReached goal.now within.now result }
    ensures none_above { NoneAbove goal.now within.now result }
    ensures bound { unsigned_abs result ≤ weight goal.now within.now.high }
{
    sum_end(End::Most, goal, within)
}

//! The limits within which no sum of a row or of the objective leaves 128 bits.

ghost use Rattle.std.specs.Prelude.{◌≡◌, ◌↔◌, ℕ, ℤ, pos, ◌*◌, ◌+◌, ◌^◌, ◌<◌, ◌-◌, ◌≤◌, ◌≤ℤ◌, length, unsigned_abs, min, max, All, IsTrue};
ghost use Rattle.int_program.specs.Boxes.{IsNonempty, IsFromZero};
ghost use Rattle.int_program.specs.Limits.{part_weight, weight, IsRising, AreSmall, IsInLimits, weight_limit};

use crate::program::{Ip, IpBox, Part, Row};

/// The most variables of a program.
const MOST_VARIABLES: usize = 100_000;

/// The most rows of a program.
const MOST_ROWS: usize = 200_000;

/// What a row, with what stands beside it, must stay below.
const WEIGHT_LIMIT: u128 = 1 << 100;

/// Whether the part names a variable from `next` on, one of the first `count`.
fn is_next(part: &Part, next: u64, count: usize) -> bool
    ensures { IsTrue result ↔ ((next ≤ part.now.var) × (part.now.var < count)) }
{
    next <= part.var as u64 && (part.var as usize) < count
}

/// Whether each part names one of the first `count` variables, by rising number.
fn are_rising(parts: &[Part], count: usize) -> bool
    ensures { IsTrue result ↔ (IsRising parts.now × All (λ p. p.var < count) parts.now) }
{
    let mut next = 0;
    for part in parts {
        if !is_next(part, next, count) {
            return false;
        }
        next = part.var as u64 + 1;
    }
    true
}

/// The absolute value of the part times the greater of its variable's top and 1, at most the greatest number.
fn capped_weight(part: &Part, tops: &[i128]) -> u128
    ensures { result ≡ min (part_weight part.now tops.now) (2 ^ 128 - 1) }
{
    let top = match tops.get(part.var as usize) {
        Some(top) => *top,
        None => 0,
    };
    part.by
        .unsigned_abs()
        .saturating_mul(top.unsigned_abs().max(1))
}

/// Whether the parts and the number beside them are small together.
fn is_light(parts: &[Part], beside: i128, tops: &[i128]) -> bool
    ensures { IsTrue result ↔ weight parts.now tops.now + unsigned_abs beside < weight_limit }
{
    let mut sum = beside.unsigned_abs();
    for part in parts {
        sum = sum.saturating_add(capped_weight(part, tops));
    }
    sum < WEIGHT_LIMIT
}

/// Whether the parts are small together with a number beside them, and name variables that have a top, each once at most, by
/// rising number: the condition of `least`, `most` and `tighten` on parts, over the box's high ends.
pub fn are_small(parts: &[Part], beside: i128, tops: &[i128]) -> bool
    ensures { IsTrue result ↔ AreSmall parts.now beside tops.now }
{
    are_rising(parts, tops.len()) && is_light(parts, beside, tops)
}

/// Whether no top is below 0.
fn are_from_zero(tops: &[i128]) -> bool
    ensures { IsTrue result ↔ All (λ top. pos 0 ≤ℤ top) tops.now }
{
    for top in tops {
        if *top < 0 {
            return false;
        }
    }
    true
}

/// Whether the row is small.
fn is_row_small(row: &Row, tops: &[i128]) -> bool
    ensures { IsTrue result ↔ AreSmall row.now.parts row.now.most tops.now }
{
    are_small(row.parts.as_slice(), row.most, tops)
}

/// Whether each variable has two ends, the low one isn't below 0, and the high one isn't below the low one: the condition of `least`,
/// `most` and `tighten` on boxes.
pub fn is_nonempty(within: &IpBox) -> bool
    ensures { IsTrue result ↔ (IsNonempty within.now × IsFromZero within.now) }
{
    let low = within.low.as_slice();
    let high = within.high.as_slice();
    if low.len() != high.len() {
        return false;
    }
    for i in 0..low.len() {
        if low[i] < 0 || high[i] < low[i] {
            return false;
        }
    }
    true
}

/// Whether each row is small.
fn are_rows_small(rows: &[Row], tops: &[i128]) -> bool
    ensures { IsTrue result ↔ All (λ row. AreSmall row.parts row.most tops.now) rows.now }
{
    for row in rows {
        if !is_row_small(row, tops) {
            return false;
        }
    }
    true
}

/// Whether the program is in its limits: few enough variables and rows, no top below 0, and small rows and a small objective
/// that name variables of the program, each once at most, by rising number.
pub fn is_in_limits(ip: &Ip) -> bool
    ensures { IsTrue result ↔ IsInLimits ip.now }
{
    let tops = ip.tops.as_slice();
    let rows = ip.rows.as_slice();
    if tops.len() > MOST_VARIABLES || rows.len() > MOST_ROWS {
        return false;
    }
    if !are_from_zero(tops) || !are_rows_small(rows, tops) {
        return false;
    }
    are_small(ip.goal.as_slice(), ip.base, tops)
}

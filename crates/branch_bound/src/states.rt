//! What is kept of each row while the box changes.

ghost use Rattle.std.specs.Prelude.{◌≡◌, ℕ, ℤ, ◌<◌, ◌+ℤ◌, ◌-ℤ◌, ◌*ℤ◌, All, length, IfOk};
ghost use Rattle.std.specs.Int.{int_wrap, w128};
ghost use Rattle.int_program.specs.Sums.{at, sum_at};
ghost use Rattle.int_program.specs.Boxes.{IsNonempty, IsFromZero, IsInside};
ghost use Rattle.int_program.specs.Bounds.{least_term};
ghost use Rattle.int_program.specs.Accepts.{with_ends};
ghost use Rattle.int_program.specs.Limits.{AreSmall, IsInLimits};
ghost use Rattle.branch_bound.specs.Columns.{AreColumns};
ghost use Rattle.branch_bound.specs.States.{IsRowState, AreStates, moved_state, moved_rows};

use crate::columns::{Columns, Entry};
use int_program::{Ip, IpBox, Part, Row, least};
use std::alloc::{AllocError, Global};

/// A row's least value on the box and its value at the lows, as 128 bits hold them, and whether it is known that it tightens nothing.
#[derive(Clone, Copy, Debug)]
pub(crate) struct RowState {
    pub(crate) least: i128,
    pub(crate) at_lows: i128,
    pub(crate) settled: bool,
}

/// The sum, as 128 bits hold it.
fn sum(a: i128, b: i128) -> i128
    ensures { result ≡ int_wrap w128 (a +ℤ b) }
{
    a.wrapping_add(b)
}

/// The difference, as 128 bits hold it.
fn difference(a: i128, b: i128) -> i128
    ensures { result ≡ int_wrap w128 (a -ℤ b) }
{
    a.wrapping_sub(b)
}

/// The product, as 128 bits hold it.
fn product(a: i128, b: i128) -> i128
    ensures { result ≡ int_wrap w128 (a *ℤ b) }
{
    a.wrapping_mul(b)
}

/// The least value of a coefficient times a number between the ends, as 128 bits hold it.
fn least_end(by: i128, ends: (i128, i128)) -> i128
    ensures { result ≡ int_wrap w128 (least_term by ends.0 ends.1) }
{
    if by < 0 {
        by.wrapping_mul(ends.1)
    } else {
        by.wrapping_mul(ends.0)
    }
}

/// A value of which one part becomes another, as 128 bits hold it.
fn shifted(value: i128, old: i128, new: i128) -> i128
    ensures { (a b : ℤ) → old ≡ int_wrap w128 a → new ≡ int_wrap w128 b → result ≡ int_wrap w128 (value +ℤ (b -ℤ a)) }
{
    sum(value, difference(new, old))
}

/// The state of a row that names the variable of these own ends, with other ends of it.
fn moved(state: RowState, entry: Entry, own: (i128, i128), ends: (i128, i128)) -> RowState
    ensures { result ≡ moved_state own ends entry.by state }
{
    let by = entry.by;
    RowState {
        least: shifted(state.least, least_end(by, own), least_end(by, ends)),
        at_lows: shifted(state.at_lows, product(by, own.0), product(by, ends.0)),
        settled: false,
    }
}

/// Moves the rows of a column.
fn move_rows(states: &mut [RowState], column: &[Entry], own: (i128, i128), ends: (i128, i128))
    requires { All (λ e. e.row < length states.old) column.now }
    ensures { states.new ≡ moved_rows own ends column.now states.old }
{
    for entry in column {
        let row = entry.row as usize;
        states[row] = moved(states[row], *entry, own, ends);
    }
}

/// Moves the states to a box with other ends of a variable, whose own ends are handed in.
pub(crate) fn change_ends(
    ip: &Ip,
    columns: &Columns,
    states: &mut [RowState],
    within: &IpBox,
    var: u32,
    own: (i128, i128),
    ends: (i128, i128),
)
    requires columns { AreColumns ip.now columns.now }
    requires states { AreStates ip.now within.now states.old }
    requires low_count { length within.now.low ≡ length ip.now.tops }
    requires high_count { length within.now.high ≡ length ip.now.tops }
    requires var { var < length ip.now.tops }
    requires own { own ≡ (at within.now.low var, at within.now.high var) }
    ensures { AreStates ip.now (with_ends within.now var ends) states.new }
{
    let _ = ip;
    let _ = within;
    move_rows(states, columns.column(var), own, ends);
}

/// The value of a part at the numbers, as 128 bits hold it.
fn term_at(part: &Part, low: &[i128]) -> i128
    requires { part.now.var < length low.now }
    ensures { result ≡ int_wrap w128 (part.now.by *ℤ at low.now part.now.var) }
{
    part.by.wrapping_mul(low[part.var as usize])
}

/// The value of the parts at the numbers, as 128 bits hold it.
fn lows_sum(parts: &[Part], low: &[i128]) -> i128
    requires { All (λ p. p.var < length low.now) parts.now }
    ensures { result ≡ int_wrap w128 (sum_at parts.now low.now) }
{
    let mut worth = 0i128;
    for part in parts {
        worth = sum(worth, term_at(part, low));
    }
    worth
}

/// The state of a row.
fn state_of(row: &Row, within: &IpBox) -> RowState
    requires nonempty { IsNonempty within.now }
    requires from_zero { IsFromZero within.now }
    requires small { AreSmall row.now.parts row.now.most within.now.high }
    ensures { (n : ℕ) → IsRowState n within.now row.now result }
{
    RowState {
        least: least(row, within),
        at_lows: lows_sum(row.parts.as_slice(), within.low.as_slice()),
        settled: false,
    }
}

/// The states of the rows on a box.
pub(crate) fn states_of(alloc: Global, ip: &Ip, within: &IpBox) -> Result<Vec<RowState>, AllocError>
    requires limits { IsInLimits ip.now }
    requires inside { IsInside ip.now within.now }
    ensures { IfOk result (λ states. AreStates ip.now within.now states.items) }
{
    let rows = ip.rows.as_slice();
    let mut states = Vec::new(alloc);
    'rows: for i in 0..rows.len() {
        states.push(state_of(&rows[i], within))?;
    }
    Ok(states)
}

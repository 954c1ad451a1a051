//! The ranges of the variables while the guide narrows them, each row's least value and its value at the lows, and the way back.

use crate::columns::Entry;
use crate::table::{Table, copies, number, place, put};
use int_program::{Ip, IpBox, Part};
use std::alloc::{AllocError, Global};

/// A right side that each row is below.
const OPEN: i128 = 1 << 110;

/// A range above this is wide: it is narrowed only by a sixteenth of it at least.
const WIDE: i128 = 64;

/// One change of a range: which end, what it was, and the row that did it.
#[derive(Clone, Copy, Debug)]
pub(crate) struct Change {
    pub(crate) var: u32,
    pub(crate) low: bool,
    old: i128,
    pub(crate) row: u32,
}

/// What holds of the ranges.
#[derive(Drop)]
pub(crate) struct Ranges {
    pub(crate) low: Vec<i128>,
    pub(crate) high: Vec<i128>,
    most: Vec<i128>,
    least: Vec<i128>,
    at_lows: Vec<i128>,
    pub(crate) trail: Vec<Change>,
    queue: Vec<u32>,
    head: usize,
    queued: Vec<bool>,
    broken: Vec<u32>,
    broken_at: Vec<u32>,
    skipped: Vec<u32>,
    /// How far one part of the row can raise its least value on the root box.
    reach: Vec<i128>,
    /// How many entries were looked at.
    pub(crate) work: u64,
}

/// The least value of the parts, and their value at the lows.
fn sums(parts: &[Part], low: &[i128], high: &[i128]) -> (i128, i128) {
    let mut least = 0i128;
    let mut at_lows = 0i128;
    for part in parts {
        let value = part.by.wrapping_mul(number(low, part.var));
        at_lows = at_lows.wrapping_add(value);
        least = least.wrapping_add(if part.by < 0 {
            part.by.wrapping_mul(number(high, part.var))
        } else {
            value
        });
    }
    (least, at_lows)
}

/// How far one of the parts can raise the sum's least value.
fn greatest_reach(parts: &[Part], tops: &[i128]) -> i128 {
    let mut reach = 0i128;
    for part in parts {
        let size = part.by.wrapping_abs().wrapping_mul(number(tops, part.var));
        if size > reach {
            reach = size;
        }
    }
    reach
}

impl Ranges {
    /// The ranges of the root box. No value is asked of the objective.
    pub(crate) fn new(alloc: Global, ip: &Ip, table: &Table) -> Result<Ranges, AllocError> {
        let variables = ip.tops.as_slice().len();
        let rows = (table.objective() as usize).wrapping_add(1);
        let mut most = Vec::new(alloc);
        for row in ip.rows.as_slice() {
            most.push(row.most)?;
        }
        most.push(OPEN)?;
        let mut reach = Vec::new(alloc);
        for row in 0..table.objective().saturating_add(1) {
            reach.push(greatest_reach(table.row(ip, row), ip.tops.as_slice()))?;
        }
        Ok(Ranges {
            low: copies(alloc, 0i128, variables)?,
            high: ip.tops.as_slice().to_vec(alloc)?,
            most,
            least: copies(alloc, 0i128, rows)?,
            at_lows: copies(alloc, 0i128, rows)?,
            trail: Vec::new(alloc),
            queue: Vec::new(alloc),
            head: 0,
            queued: copies(alloc, false, rows)?,
            broken: Vec::new(alloc),
            broken_at: copies(alloc, 0u32, rows)?,
            skipped: Vec::new(alloc),
            reach,
            work: 0,
        })
    }

    /// Takes over a box end by end, and looks at rows whose least value rises.
    pub(crate) fn load(&mut self, table: &Table, within: &IpBox) -> Result<(), AllocError> {
        self.trail.clear();
        for (i, to) in within.low.as_slice().iter().enumerate() {
            let var = place(i);
            if number(self.low.as_slice(), var) != *to {
                self.move_low(table, var, *to)?;
            }
        }
        for (i, to) in within.high.as_slice().iter().enumerate() {
            let var = place(i);
            if number(self.high.as_slice(), var) != *to {
                self.move_high(table, var, *to)?;
            }
        }
        Ok(())
    }

    /// Takes each sum anew, and looks at each row.
    pub(crate) fn refresh(&mut self, ip: &Ip, table: &Table) -> Result<(), AllocError> {
        self.trail.clear();
        self.forget_queue();
        self.broken.clear();
        for row in 0..table.objective().saturating_add(1) {
            let parts = table.row(ip, row);
            let (least, at_lows) = sums(parts, self.low.as_slice(), self.high.as_slice());
            self.work = self.work.wrapping_add(parts.len() as u64);
            put(self.least.as_mut_slice(), row, least);
            put(self.at_lows.as_mut_slice(), row, at_lows);
            if at_lows > number(self.most.as_slice(), row) {
                self.enter(row)?;
            }
            self.touch(row)?;
        }
        Ok(())
    }

    /// Asks a value of the objective, or none.
    pub(crate) fn ask(
        &mut self,
        ip: &Ip,
        table: &Table,
        value: Option<i128>,
    ) -> Result<(), AllocError> {
        let row = table.objective();
        let before = number(self.at_lows.as_slice(), row) > number(self.most.as_slice(), row);
        let most = match value {
            Some(value) => ip.base.wrapping_sub(value),
            None => OPEN,
        };
        put(self.most.as_mut_slice(), row, most);
        let after = number(self.at_lows.as_slice(), row) > most;
        self.turn(row, before, after)?;
        self.touch(row)
    }

    /// The objective's greatest value.
    pub(crate) fn goal_most(&self, ip: &Ip, table: &Table) -> i128 {
        ip.base
            .wrapping_sub(number(self.least.as_slice(), table.objective()))
    }

    /// The objective's value at the lows.
    pub(crate) fn goal_lows(&self, ip: &Ip, table: &Table) -> i128 {
        ip.base
            .wrapping_sub(number(self.at_lows.as_slice(), table.objective()))
    }

    /// The rows that the lows break.
    pub(crate) fn broken(&self) -> &[u32] {
        self.broken.as_slice()
    }

    /// The width of a variable's range.
    pub(crate) fn span(&self, var: u32) -> i128 {
        number(self.high.as_slice(), var).wrapping_sub(number(self.low.as_slice(), var))
    }

    fn enter(&mut self, row: u32) -> Result<(), AllocError> {
        let at = place(self.broken.len());
        if let Some(slot) = self.broken_at.get_mut(row as usize) {
            *slot = at;
        }
        self.broken.push(row)?;
        Ok(())
    }

    fn leave(&mut self, row: u32) {
        let at = match self.broken_at.get(row as usize) {
            Some(at) => *at,
            None => 0,
        };
        if let Some(last) = self.broken.pop() {
            if last != row {
                if let Some(slot) = self.broken.get_mut(at as usize) {
                    *slot = last;
                }
                if let Some(slot) = self.broken_at.get_mut(last as usize) {
                    *slot = at;
                }
            }
        }
    }

    fn turn(&mut self, row: u32, before: bool, after: bool) -> Result<(), AllocError> {
        if !before && after {
            self.enter(row)?;
        }
        if before && !after {
            self.leave(row);
        }
        Ok(())
    }

    fn touch(&mut self, row: u32) -> Result<(), AllocError> {
        let waits = match self.queued.get_mut(row as usize) {
            Some(slot) => {
                let waits = *slot;
                *slot = true;
                waits
            }
            None => true,
        };
        if !waits {
            self.queue.push(row)?;
        }
        Ok(())
    }

    /// Looks at each row once more.
    pub(crate) fn look_at_all(&mut self, table: &Table) -> Result<(), AllocError> {
        for row in 0..table.objective().saturating_add(1) {
            self.touch(row)?;
        }
        Ok(())
    }

    /// Looks once more at each row by which a wide range wasn't narrowed because the step was small.
    pub(crate) fn look_at_skipped(&mut self) -> Result<(), AllocError> {
        for _ in 0..self.skipped.len() {
            if let Some(row) = self.skipped.pop() {
                self.touch(row)?;
            }
        }
        Ok(())
    }

    fn forget_queue(&mut self) {
        for row in self.queue.as_slice() {
            if let Some(slot) = self.queued.get_mut(*row as usize) {
                *slot = false;
            }
        }
        self.queue.clear();
        self.head = 0;
    }

    /// Moves a row's value at the lows.
    fn shift_lows(&mut self, row: u32, by: i128) -> Result<(), AllocError> {
        let most = number(self.most.as_slice(), row);
        let old = number(self.at_lows.as_slice(), row);
        let new = old.wrapping_add(by);
        put(self.at_lows.as_mut_slice(), row, new);
        self.turn(row, old > most, new > most)
    }

    /// Moves a row's least value.
    fn shift_least(&mut self, row: u32, by: i128) {
        let old = number(self.least.as_slice(), row);
        put(self.least.as_mut_slice(), row, old.wrapping_add(by));
    }

    /// What a row becomes where the low end of one of its variables moves by so much.
    fn low_moved(&mut self, entry: Entry, by: i128) -> Result<(), AllocError> {
        let change = entry.by.wrapping_mul(by);
        self.shift_lows(entry.row, change)?;
        if entry.by > 0 {
            self.shift_least(entry.row, change);
            if by > 0 {
                self.touch(entry.row)?;
            }
        }
        Ok(())
    }

    /// What a row becomes where the high end of one of its variables moves by so much.
    fn high_moved(&mut self, entry: Entry, by: i128) -> Result<(), AllocError> {
        if entry.by < 0 {
            self.shift_least(entry.row, entry.by.wrapping_mul(by));
            if by < 0 {
                self.touch(entry.row)?;
            }
        }
        Ok(())
    }

    /// Moves the low end of a variable, and looks at rows whose least value rose.
    fn move_low(&mut self, table: &Table, var: u32, to: i128) -> Result<(), AllocError> {
        let by = to.wrapping_sub(number(self.low.as_slice(), var));
        put(self.low.as_mut_slice(), var, to);
        let column = table.column(var);
        self.work = self.work.wrapping_add(column.len() as u64);
        for entry in column {
            self.low_moved(*entry, by)?;
        }
        self.low_moved(table.objective_entry(var), by)
    }

    /// Moves the high end of a variable, and looks at rows whose least value rose.
    fn move_high(&mut self, table: &Table, var: u32, to: i128) -> Result<(), AllocError> {
        let by = to.wrapping_sub(number(self.high.as_slice(), var));
        put(self.high.as_mut_slice(), var, to);
        let column = table.column(var);
        self.work = self.work.wrapping_add(column.len() as u64);
        for entry in column {
            self.high_moved(*entry, by)?;
        }
        self.high_moved(table.objective_entry(var), by)
    }

    /// Raises the low end of a variable.
    pub(crate) fn raise(
        &mut self,
        table: &Table,
        var: u32,
        to: i128,
        row: u32,
    ) -> Result<(), AllocError> {
        let old = number(self.low.as_slice(), var);
        self.trail.push(Change {
            var,
            low: true,
            old,
            row,
        })?;
        self.move_low(table, var, to)
    }

    /// Lowers the high end of a variable.
    pub(crate) fn lower(
        &mut self,
        table: &Table,
        var: u32,
        to: i128,
        row: u32,
    ) -> Result<(), AllocError> {
        let old = number(self.high.as_slice(), var);
        self.trail.push(Change {
            var,
            low: false,
            old,
            row,
        })?;
        self.move_high(table, var, to)
    }

    /// Takes back the changes behind the first `kept` ones.
    pub(crate) fn undo(&mut self, table: &Table, kept: usize) -> Result<(), AllocError> {
        self.forget_queue();
        for _ in 0..self.trail.len().saturating_sub(kept) {
            if let Some(change) = self.trail.pop() {
                if change.low {
                    self.move_low(table, change.var, change.old)?;
                } else {
                    self.move_high(table, change.var, change.old)?;
                }
            }
        }
        Ok(())
    }

    /// Keeps a row for later.
    fn skip(&mut self, row: u32) -> Result<(), AllocError> {
        if self.skipped.as_slice().last() != Some(&row) {
            self.skipped.push(row)?;
        }
        Ok(())
    }

    /// Narrows one variable by a row with this much left between its least value and its right side.
    fn narrow(
        &mut self,
        table: &Table,
        part: &Part,
        slack: i128,
        row: u32,
        lazy: bool,
    ) -> Result<(), AllocError> {
        let span = self.span(part.var);
        let size = part.by.wrapping_abs();
        if span <= 0 || size <= 0 || size.wrapping_mul(span) <= slack {
            return Ok(());
        }
        let steps = slack.div_euclid(size);
        if lazy && span > WIDE && span.wrapping_sub(steps) < span.div_euclid(16) {
            return self.skip(row);
        }
        if part.by > 0 {
            let to = number(self.low.as_slice(), part.var).wrapping_add(steps);
            self.lower(table, part.var, to, row)
        } else {
            let to = number(self.high.as_slice(), part.var).wrapping_sub(steps);
            self.raise(table, part.var, to, row)
        }
    }

    /// Narrows the variables of a row. Answers whether the row is broken everywhere.
    fn narrow_row(
        &mut self,
        ip: &Ip,
        table: &Table,
        row: u32,
        lazy: bool,
    ) -> Result<bool, AllocError> {
        let slack = number(self.most.as_slice(), row).wrapping_sub(number(
            self.least.as_slice(),
            row,
        ));
        if slack < 0 {
            return Ok(true);
        }
        if slack >= number(self.reach.as_slice(), row) {
            return Ok(false);
        }
        let parts = table.row(ip, row);
        self.work = self.work.wrapping_add(parts.len() as u64);
        for part in parts {
            self.narrow(table, part, slack, row, lazy)?;
        }
        Ok(false)
    }

    /// Narrows by the rows that wait, until none does or the trail is so long. Answers a row that is broken everywhere.
    pub(crate) fn propagate(
        &mut self,
        ip: &Ip,
        table: &Table,
        lazy: bool,
        longest: usize,
    ) -> Result<Option<u32>, AllocError> {
        if lazy {
            self.skipped.clear();
        }
        for _ in 0..u64::MAX {
            let row = match self.queue.get(self.head) {
                Some(row) => *row,
                None => break,
            };
            self.head = self.head.wrapping_add(1);
            if let Some(slot) = self.queued.get_mut(row as usize) {
                *slot = false;
            }
            if self.narrow_row(ip, table, row, lazy)? {
                self.forget_queue();
                return Ok(Some(row));
            }
            if self.trail.len() >= longest {
                break;
            }
        }
        self.forget_queue();
        Ok(None)
    }
}

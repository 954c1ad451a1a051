//! What to try first at a place: the tightenings that lead to a row that closes it, or all that there are and then a split.

use crate::choosing::{Choice, strongest};
use crate::deciding::Hint;
use crate::ranges::{Change, Ranges};
use crate::table::{Table, copies, number};
use int_program::{Ip, IpBox, Part, Place};
use std::alloc::{AllocError, Global};

/// How many tightenings may stand directly above another node.
const MOST_HINTS: usize = 100;

#[derive(Drop)]
pub(crate) struct Guide {
    ranges: Ranges,
    /// Whether some box was left before all its rows had been looked at.
    partial: bool,
    hints: Vec<Hint>,
    split: Hint,
    low_needed: Vec<bool>,
    high_needed: Vec<bool>,
}

/// Sets each of them to false.
fn clear(flags: &mut [bool]) {
    for flag in flags.iter_mut() {
        *flag = false;
    }
}

/// Sets one of them, and answers what it was.
fn set(flags: &mut [bool], place: u32, value: bool) -> bool {
    match flags.get_mut(place as usize) {
        Some(flag) => {
            let was = *flag;
            *flag = value;
            was
        }
        None => false,
    }
}

impl Guide {
    pub(crate) fn new(alloc: Global, ip: &Ip, table: &Table) -> Result<Guide, AllocError> {
        let variables = ip.tops.as_slice().len();
        let mut ranges = Ranges::new(alloc, ip, table)?;
        ranges.refresh(ip, table)?;
        Ok(Guide {
            ranges,
            partial: false,
            hints: Vec::new(alloc),
            split: Hint::Nothing,
            low_needed: copies(alloc, false, variables)?,
            high_needed: copies(alloc, false, variables)?,
        })
    }

    /// What to try at the place. Places come in the order in which they are opened.
    pub(crate) fn hint(
        &mut self,
        ip: &Ip,
        table: &Table,
        place: &Place,
        known: Option<i128>,
    ) -> Result<Hint, AllocError> {
        if place.above == 0 {
            self.visit(ip, table, &place.within, known)?;
        }
        match self.hints.pop() {
            Some(hint) => Ok(hint),
            None => Ok(self.split),
        }
    }

    fn visit(
        &mut self,
        ip: &Ip,
        table: &Table,
        within: &IpBox,
        known: Option<i128>,
    ) -> Result<(), AllocError> {
        self.hints.clear();
        self.split = Hint::Nothing;
        self.ranges.load(table, within)?;
        if self.partial {
            self.ranges.look_at_all(table)?;
        }
        if let Some(value) = known {
            if self.ranges.goal_most(ip, table) <= value {
                return Ok(());
            }
        }
        match self.ranges.propagate(ip, table, true, usize::MAX)? {
            Some(row) => self.give_reasons(ip, table, row),
            None => self.give_all(ip, table),
        }
    }

    /// Each tightening, the last first, and then a split. Wide ranges are narrowed by small steps only here.
    fn give_all(&mut self, ip: &Ip, table: &Table) -> Result<(), AllocError> {
        self.ranges.look_at_skipped()?;
        if let Some(row) = self.ranges.propagate(ip, table, false, MOST_HINTS)? {
            return self.give_reasons(ip, table, row);
        }
        self.partial = self.partial || self.ranges.trail.len() >= MOST_HINTS;
        for change in self.ranges.trail.as_slice().iter().rev() {
            self.hints.push(hint_of(change))?;
        }
        self.split = self.split_of(ip, table);
        Ok(())
    }

    /// Where to split.
    fn split_of(&self, ip: &Ip, table: &Table) -> Hint {
        let choice = Choice {
            weights: &[],
            tie: None,
        };
        let chosen = match choice.variable(ip, table, &self.ranges) {
            Some((var, _)) => Some(var),
            None => strongest(&self.ranges, table.row(ip, table.objective())),
        };
        match chosen {
            Some(var) => {
                let half = self.ranges.span(var).div_euclid(2);
                let at = number(self.ranges.low.as_slice(), var).wrapping_add(half);
                Hint::Split {
                    var,
                    at: if self.ranges.span(var) == half {
                        at.wrapping_sub(1)
                    } else {
                        at
                    },
                }
            }
            None => Hint::Nothing,
        }
    }

    /// Marks what the least value of a row rests on.
    fn need(&mut self, parts: &[Part], but: u32) {
        for part in parts {
            if part.var != but {
                if part.by > 0 {
                    let _ = set(self.low_needed.as_mut_slice(), part.var, true);
                } else {
                    let _ = set(self.high_needed.as_mut_slice(), part.var, true);
                }
            }
        }
    }

    /// Whether a change is needed; earlier ones of the same end are then not, unless for another reason.
    fn is_needed(&mut self, change: &Change) -> bool {
        if change.low {
            set(self.low_needed.as_mut_slice(), change.var, false)
        } else {
            set(self.high_needed.as_mut_slice(), change.var, false)
        }
    }

    /// Only the tightenings that lead to the broken row, and then that row.
    fn give_reasons(&mut self, ip: &Ip, table: &Table, row: u32) -> Result<(), AllocError> {
        clear(self.low_needed.as_mut_slice());
        clear(self.high_needed.as_mut_slice());
        self.hints.push(Hint::Row { row })?;
        self.need(table.row(ip, row), u32::MAX);
        for _ in 0..self.ranges.trail.len() {
            if let Some(change) = self.ranges.trail.pop() {
                if self.is_needed(&change) {
                    self.hints.push(hint_of(&change))?;
                    self.need(table.row(ip, change.row), change.var);
                }
            }
        }
        Ok(())
    }
}

fn hint_of(change: &Change) -> Hint {
    Hint::Tight {
        var: change.var,
        row: change.row,
    }
}

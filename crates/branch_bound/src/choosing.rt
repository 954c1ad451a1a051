//! Which variable is decided next: one that a row needs which the lows break.

use crate::ranges::Ranges;
use crate::table::Table;
use int_program::{Ip, Part};

/// How many entries are looked at for one choice.
const MOST_LOOKED_AT: usize = 20_000;

/// What a choice is made by: a weight for each row, and a number that breaks ties, or none, and then the first is taken.
#[derive(Clone, Copy)]
pub(crate) struct Choice<'a> {
    pub(crate) weights: &'a [u64],
    pub(crate) tie: Option<u64>,
}

/// A broken row as a candidate.
#[derive(Clone, Copy)]
struct Candidate {
    row: u32,
    free: u64,
    weight: u64,
    last: bool,
}

/// Whether raising the variable helps the row.
fn helps(ranges: &Ranges, part: &Part) -> bool {
    part.by < 0 && ranges.span(part.var) > 0
}

impl Choice<'_> {
    fn weight(&self, row: u32) -> u64 {
        match self.weights.get(row as usize) {
            Some(weight) => *weight,
            None => 1,
        }
    }

    /// How many variables can help the row, and whether it comes behind others: the objective does, and what has wide ranges.
    fn candidate(&self, table: &Table, ranges: &Ranges, row: u32, parts: &[Part]) -> Candidate {
        let mut free = 0u64;
        let mut last = row == table.objective();
        for part in parts {
            if helps(ranges, part) {
                free = free.wrapping_add(1);
                last = last || ranges.span(part.var) > 1;
            }
        }
        Candidate {
            row,
            free,
            weight: self.weight(row),
            last,
        }
    }

    /// The broken row that is decided next.
    fn row(&self, ip: &Ip, table: &Table, ranges: &Ranges) -> Option<u32> {
        let mut best: Option<Candidate> = None;
        let mut looked_at = 0usize;
        for row in ranges.broken() {
            let parts = table.row(ip, *row);
            looked_at = looked_at.wrapping_add(parts.len());
            let next = self.candidate(table, ranges, *row, parts);
            if next.free > 0 && is_before(&next, best) {
                best = Some(next);
            }
            if looked_at > MOST_LOOKED_AT {
                break;
            }
        }
        match best {
            Some(best) => Some(best.row),
            None => None,
        }
    }

    /// One of the variables that help the row.
    fn helper(&self, ranges: &Ranges, parts: &[Part]) -> Option<u32> {
        let mut free = 0u64;
        for part in parts {
            if helps(ranges, part) {
                free = free.wrapping_add(1);
            }
        }
        let mut left = match self.tie {
            Some(tie) => { if free > 0 { tie % free } else { 0 } }
            None => 0,
        };
        for part in parts {
            if helps(ranges, part) {
                if left == 0 {
                    return Some(part.var);
                }
                left = left.wrapping_sub(1);
            }
        }
        None
    }

    /// The variable that is decided next, and whether it is for the objective.
    pub(crate) fn variable(&self, ip: &Ip, table: &Table, ranges: &Ranges) -> Option<(u32, bool)> {
        let row = self.row(ip, table, ranges)?;
        if row == table.objective() {
            let var = strongest(ranges, table.row(ip, row))?;
            Some((var, true))
        } else {
            let var = self.helper(ranges, table.row(ip, row))?;
            Some((var, false))
        }
    }
}

/// Whether a candidate comes before the best one so far.
fn is_before(next: &Candidate, best: Option<Candidate>) -> bool {
    match best {
        None => true,
        Some(best) => {
            if next.last == best.last {
                next.free.wrapping_mul(best.weight) < best.free.wrapping_mul(next.weight)
            } else {
                best.last
            }
        }
    }
}

/// The variable with the greatest part in the sum.
pub(crate) fn strongest(ranges: &Ranges, parts: &[Part]) -> Option<u32> {
    let mut best = None;
    let mut most = 0i128;
    for part in parts {
        let worth = 0i128.wrapping_sub(part.by.wrapping_mul(ranges.span(part.var)));
        if worth > most {
            most = worth;
            best = Some(part.var);
        }
    }
    best
}

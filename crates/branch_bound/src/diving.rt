//! The first point: dives into the root box that go back at conflicts, with a budget of work. A row in a conflict gets more weight.

use crate::choosing::Choice;
use crate::ranges::Ranges;
use crate::table::{Table, copies, number};
use int_program::Ip;
use std::alloc::{AllocError, Global};

/// A range above this is halved, one up to it is raised by 1.
const SMALL: i128 = 64;

/// How much work the dives may do besides looking at each entry some times.
const WORK: u64 = 100_000_000;

/// How many conflicts each of the dives at one value may have.
const CONFLICTS: [u64; 4] = [125, 250, 500, 1000];

/// How a dive ends.
#[derive(Clone, Copy, PartialEq, Eq)]
enum End {
    Found,
    Nothing,
    Tired,
}

/// One decision: the variable is at least `at`, or, once that failed, below it.
#[derive(Clone, Copy)]
struct Decision {
    kept: usize,
    var: u32,
    at: i128,
    failed: bool,
}

#[derive(Drop)]
struct Dives {
    ranges: Ranges,
    weights: Vec<u64>,
    decisions: Vec<Decision>,
    random: u64,
    kept: usize,
    budget: u64,
    best: Option<Vec<i128>>,
    value: i128,
}

impl Dives {
    /// The next number of a simple sequence.
    fn next_random(&mut self) -> u64 {
        self.random = self
            .random
            .wrapping_mul(6364136223846793005)
            .wrapping_add(1442695040888963407);
        self.random >> 33
    }

    fn is_tired(&self) -> bool {
        self.ranges.work > self.budget
    }

    /// Goes back to the last decision that has another side, and takes that.
    fn turn_back(&mut self, table: &Table) -> Result<bool, AllocError> {
        for _ in 0..self.decisions.len() {
            if let Some(decision) = self.decisions.pop() {
                self.ranges.undo(table, decision.kept)?;
                if !decision.failed {
                    self.decisions.push(Decision {
                        kept: decision.kept,
                        var: decision.var,
                        at: decision.at,
                        failed: true,
                    })?;
                    let below = decision.at.wrapping_sub(1);
                    self.ranges.lower(table, decision.var, below, u32::MAX)?;
                    return Ok(true);
                }
            }
        }
        Ok(false)
    }

    /// Raises one variable. Answers false where none would help.
    fn decide(&mut self, ip: &Ip, table: &Table, first: bool) -> Result<bool, AllocError> {
        let tie = if first {
            None
        } else {
            Some(self.next_random())
        };
        let choice = Choice {
            weights: self.weights.as_slice(),
            tie,
        };
        let Some((var, objective)) = choice.variable(ip, table, &self.ranges) else {
            return Ok(false);
        };
        let span = self.ranges.span(var);
        let step = if span > SMALL {
            span.wrapping_add(1).div_euclid(2)
        } else if objective {
            span
        } else {
            1
        };
        let at = number(self.ranges.low.as_slice(), var).wrapping_add(step);
        self.decisions.push(Decision {
            kept: self.ranges.trail.len(),
            var,
            at,
            failed: false,
        })?;
        self.ranges.raise(table, var, at, u32::MAX)?;
        Ok(true)
    }

    /// Gives a row more weight.
    fn blame(&mut self, row: u32) {
        if let Some(weight) = self.weights.get_mut(row as usize) {
            *weight = weight.wrapping_add(1);
        }
    }

    /// Keeps the lows as the best point.
    fn keep(&mut self, alloc: Global, ip: &Ip, table: &Table) -> Result<(), AllocError> {
        self.value = self.ranges.goal_lows(ip, table);
        self.best = Some(self.ranges.low.as_slice().to_vec(alloc)?);
        Ok(())
    }

    /// One dive at the value that is asked for.
    fn dive(
        &mut self,
        alloc: Global,
        ip: &Ip,
        table: &Table,
        conflicts: u64,
        first: bool,
    ) -> Result<End, AllocError> {
        self.decisions.clear();
        let mut left = conflicts;
        for _ in 0..u64::MAX {
            if self.is_tired() {
                break;
            }
            let blamed = match self.ranges.propagate(ip, table, true, usize::MAX)? {
                Some(row) => Some(row),
                None => {
                    if self.ranges.broken().is_empty() {
                        self.keep(alloc, ip, table)?;
                        return Ok(End::Found);
                    }
                    if self.decide(ip, table, first)? {
                        None
                    } else {
                        Some(u32::MAX)
                    }
                }
            };
            if let Some(row) = blamed {
                self.blame(row);
                if left == 0 {
                    break;
                }
                left = left.wrapping_sub(1);
                if !self.turn_back(table)? {
                    return Ok(End::Nothing);
                }
            }
        }
        Ok(End::Tired)
    }

    /// Some dives for a point with at least this value, or for any.
    fn attempt(
        &mut self,
        alloc: Global,
        ip: &Ip,
        table: &Table,
        value: Option<i128>,
    ) -> Result<End, AllocError> {
        let mut first = true;
        for conflicts in CONFLICTS {
            self.ranges.undo(table, self.kept)?;
            self.ranges.ask(ip, table, value)?;
            let end = self.dive(alloc, ip, table, conflicts, first)?;
            if end != End::Tired {
                return Ok(end);
            }
            first = false;
        }
        Ok(End::Tired)
    }

    /// Halves what is between the best value and the greatest one, as long as there is work left.
    fn improve(
        &mut self,
        alloc: Global,
        ip: &Ip,
        table: &Table,
        top: i128,
    ) -> Result<(), AllocError> {
        let mut most = top.wrapping_sub(1);
        for _ in 0..128 {
            if self.value >= most || self.is_tired() {
                break;
            }
            let gap = most.wrapping_sub(self.value).wrapping_add(1);
            let asked = self.value.wrapping_add(gap.div_euclid(2));
            if self.attempt(alloc, ip, table, Some(asked))? != End::Found {
                most = asked.wrapping_sub(1);
            }
        }
        Ok(())
    }

    /// Looks for a point: with the greatest value first, then any, then better ones.
    fn run(&mut self, alloc: Global, ip: &Ip, table: &Table) -> Result<(), AllocError> {
        self.ranges.refresh(ip, table)?;
        self.budget = self.ranges.work.wrapping_mul(40).wrapping_add(WORK);
        if self
            .ranges
            .propagate(ip, table, true, usize::MAX)?
            .is_some()
        {
            return Ok(());
        }
        self.kept = self.ranges.trail.len();
        let top = self.ranges.goal_most(ip, table);
        if self.attempt(alloc, ip, table, Some(top))? == End::Found {
            return Ok(());
        }
        if self.attempt(alloc, ip, table, None)? == End::Found {
            self.improve(alloc, ip, table, top)?;
        }
        Ok(())
    }
}

/// A point that may be one of the program, and a good one.
pub(crate) fn first_point(
    alloc: Global,
    ip: &Ip,
    table: &Table,
) -> Result<Option<Vec<i128>>, AllocError> {
    let ranges = Ranges::new(alloc, ip, table)?;
    let mut dives = Dives {
        ranges,
        weights: copies(alloc, 1u64, (table.objective() as usize).wrapping_add(1))?,
        decisions: Vec::new(alloc),
        random: 1,
        kept: 0,
        budget: 0,
        best: None,
        value: 0,
    };
    dives.run(alloc, ip, table)?;
    Ok(dives.best)
}

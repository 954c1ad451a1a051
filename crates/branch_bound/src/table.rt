//! The rows of a program, the objective as one more row, and for each variable the rows that name it. What stands here and in the
//! other files of the guide only says what to try first, so that no clause speaks of it.

ghost use Rattle.std.specs.Prelude.{◌≡◌, IfOk};

use crate::columns::{Columns, Entry};
use int_program::{Ip, Part};
use std::alloc::{AllocError, Global};

/// The number at a place, 0 where there is none.
pub(crate) fn number(numbers: &[i128], place: u32) -> i128 {
    match numbers.get(place as usize) {
        Some(number) => *number,
        None => 0,
    }
}

/// Writes a number, where there is such a place.
pub(crate) fn put(numbers: &mut [i128], place: u32, number: i128) {
    if let Some(slot) = numbers.get_mut(place as usize) {
        *slot = number;
    }
}

/// The number as a place; there are never as many as would not fit.
pub(crate) fn place(number: usize) -> u32 {
    match u32::try_from(number) {
        Ok(place) => place,
        Err(_) => u32::MAX,
    }
}

/// The columns of a program, and its objective as one more row, with each sign turned.
#[derive(Drop)]
pub(crate) struct Table {
    pub(crate) columns: Columns,
    objective: Vec<Part>,
    worth: Vec<i128>,
    rows: u32,
}

/// The objective with each sign turned.
fn turned(alloc: Global, goal: &[Part]) -> Result<Vec<Part>, AllocError> {
    let mut parts = Vec::new(alloc);
    for part in goal {
        parts.push(Part {
            var: part.var,
            by: 0i128.wrapping_sub(part.by),
        })?;
    }
    Ok(parts)
}

/// As many copies of a value.
pub(crate) fn copies<T: Copy + Drop>(
    alloc: Global,
    value: T,
    count: usize,
) -> Result<Vec<T>, AllocError> {
    let mut copies = Vec::new(alloc);
    for _ in 0..count {
        copies.push(value)?;
    }
    Ok(copies)
}

impl Table {
    /// The table of a program with these columns.
    pub(crate) fn new(alloc: Global, ip: &Ip, columns: Columns) -> Result<Table, AllocError>
        ensures { IfOk result (λ table. table.columns ≡ columns) }
    {
        let objective = turned(alloc, ip.goal.as_slice())?;
        let mut worth = copies(alloc, 0i128, ip.tops.as_slice().len())?;
        for part in objective.as_slice() {
            put(worth.as_mut_slice(), part.var, part.by);
        }
        Ok(Table {
            columns,
            objective,
            worth,
            rows: place(ip.rows.as_slice().len()),
        })
    }

    /// How many rows the program has; the objective is the row of this number.
    pub(crate) fn objective(&self) -> u32 {
        self.rows
    }

    /// The parts of a row.
    pub(crate) fn row<'a>(&'a self, ip: &'a Ip, row: u32) -> &'a [Part] {
        match ip.rows.as_slice().get(row as usize) {
            Some(row) => row.parts.as_slice(),
            None => self.objective.as_slice(),
        }
    }

    /// The rows that name a variable.
    pub(crate) fn column(&self, var: u32) -> &[Entry] {
        self.columns.column(var)
    }

    /// The variable in the objective.
    pub(crate) fn objective_entry(&self, var: u32) -> Entry {
        Entry {
            row: self.rows,
            by: number(self.worth.as_slice(), var),
        }
    }
}

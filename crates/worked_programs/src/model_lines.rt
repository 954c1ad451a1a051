//! The lines of an integer program: the bounds, the variables with their names, the rows and the objective.

use crate::unit_lines::{put_count, put_symbol};
use elastic_ast::{Cells, Unit, Units};
use elx_io::Lines;
use ilp_model::Candidate;
use int_program::{Ip, Part, Row};
use std::alloc::{AllocError, Global};
use target_desc::Target;

/// Of more rows than this only the first and the last `ENDS` have a line.
const MOST_ROWS: usize = 3000;

const ENDS: usize = 50;

/// Adds a line for each symbol with its bound.
pub fn put_bounds(lines: &mut Lines, units: &Units, bounds: &[u64]) -> Result<(), AllocError> {
    for (name, bound) in units.terms.symbols.as_slice().iter().zip(bounds) {
        lines.word(b"bound")?;
        lines.word(name.as_slice())?;
        lines.number(i128::from(*bound))?;
        lines.end()?;
    }
    Ok(())
}

/// The variables whose lines are written: the number of the next one, and the tops of all.
#[derive(Drop)]
struct Variables<'a> {
    next: usize,
    tops: &'a [i128],
}

impl Variables<'_> {
    /// Begins the line of the next variable.
    fn begin(&mut self, lines: &mut Lines, kind: &[u8]) -> Result<(), AllocError> {
        lines.number(self.next as i128)?;
        lines.word(kind)
    }

    /// Ends it with the variable's top.
    fn end(&mut self, lines: &mut Lines) -> Result<(), AllocError> {
        let top = self.tops.get(self.next).copied().unwrap_or(-1);
        self.next = self.next.wrapping_add(1);
        put_count(lines, b"top", top)
    }

    /// Adds the lines of the sizes.
    fn put_sizes(&mut self, lines: &mut Lines, units: &Units) -> Result<(), AllocError> {
        for name in units.terms.symbols.as_slice() {
            self.begin(lines, b"size")?;
            lines.word(name.as_slice())?;
            self.end(lines)?;
        }
        Ok(())
    }

    /// Adds the lines of a loop's indices, which count from 1 here.
    fn put_loop(
        &mut self,
        lines: &mut Lines,
        units: &Units,
        symbol: u32,
        bound: u64,
    ) -> Result<(), AllocError> {
        for index in 0..bound {
            self.begin(lines, b"e")?;
            put_symbol(lines, units.terms.symbols.as_slice(), symbol)?;
            lines.number(i128::from(index) + 1)?;
            self.end(lines)?;
        }
        Ok(())
    }

    /// Adds the lines of the loops over symbols that units stand in.
    fn put_loops(
        &mut self,
        lines: &mut Lines,
        units: &Units,
        bounds: &[u64],
    ) -> Result<(), AllocError> {
        let mut symbol = 0u32;
        for bound in bounds {
            if is_looped(units.list.as_slice(), symbol) {
                self.put_loop(lines, units, symbol, *bound)?;
            }
            symbol = symbol.wrapping_add(1);
        }
        Ok(())
    }

    /// Adds the lines of the keys of step tables, as many as are left before those of instances.
    fn put_keys(&mut self, lines: &mut Lines, rest: usize) -> Result<(), AllocError> {
        let keys = self
            .tops
            .len()
            .saturating_sub(self.next)
            .saturating_sub(rest);
        for key in 0..keys {
            self.begin(lines, b"y")?;
            lines.number(key as i128)?;
            self.end(lines)?;
        }
        Ok(())
    }

    /// Adds the lines of an instance, one a stage.
    fn put_stages(
        &mut self,
        lines: &mut Lines,
        kind: &[u8],
        one: Candidate,
        stages: u8,
    ) -> Result<(), AllocError> {
        for stage in 0..stages {
            self.begin(lines, kind)?;
            lines.number(i128::from(one.unit))?;
            lines.number(i128::from(one.index))?;
            lines.number(i128::from(stage))?;
            self.end(lines)?;
        }
        Ok(())
    }
}

/// Whether a unit stands in a loop over the symbol of this number.
fn is_looped(units: &[Unit], symbol: u32) -> bool {
    units.iter().any(|unit| unit.size == Some(symbol))
}

/// Whether a symbol counts the cells of the unit of this number.
fn is_symbolic(units: &[Unit], number: u32) -> bool {
    match units.get(number as usize) {
        Some(unit) => matches!(unit.cells, Some(Cells::Symbol(_))),
        None => false,
    }
}

/// Adds the lines of the variables.
pub fn put_variables(
    lines: &mut Lines,
    units: &Units,
    target: &Target,
    bounds: &[u64],
    list: &[Candidate],
    tops: &[i128],
) -> Result<(), AllocError> {
    put_count(lines, b"variables", tops.len() as i128)?;
    let flat = units.list.as_slice();
    let symbolic = list
        .iter()
        .filter(|one| is_symbolic(flat, one.unit))
        .count();
    let stages = usize::from(target.stages);
    let instances = list.len().wrapping_add(symbolic).wrapping_mul(stages);
    let mut variables = Variables { next: 0, tops };
    variables.put_sizes(lines, units)?;
    variables.put_loops(lines, units, bounds)?;
    variables.put_keys(lines, instances)?;
    for one in list {
        variables.put_stages(lines, b"x", *one, target.stages)?;
    }
    for one in list {
        if is_symbolic(flat, one.unit) {
            variables.put_stages(lines, b"c", *one, target.stages)?;
        }
    }
    Ok(())
}

/// Adds the words of variables by their numbers, each with its coefficient.
fn put_parts(alloc: Global, lines: &mut Lines, parts: &[Part]) -> Result<(), AllocError> {
    for part in parts {
        let Part { var, by } = *part;
        lines.word(format!(in alloc; "{var}:{by}")?.as_bytes())?;
    }
    Ok(())
}

/// Adds the rest of the line of a row.
fn put_row(alloc: Global, lines: &mut Lines, row: &Row) -> Result<(), AllocError> {
    put_parts(alloc, lines, row.parts.as_slice())?;
    put_count(lines, b"<=", row.most)
}

/// A hash of bytes behind others, by FNV-1a with 64 bits.
fn hashed(hash: u64, bytes: &[u8]) -> u64 {
    let mut hash = hash;
    for byte in bytes {
        hash = (hash ^ u64::from(*byte)).wrapping_mul(0x0000_0100_0000_01b3);
    }
    hash
}

/// Adds the line of a hash of all rows.
fn put_hash(alloc: Global, lines: &mut Lines, rows: &[Row]) -> Result<(), AllocError> {
    let mut hash = 0xcbf2_9ce4_8422_2325;
    for row in rows {
        let mut line = Lines::new(alloc);
        put_row(alloc, &mut line, row)?;
        hash = hashed(hash, line.bytes());
    }
    lines.word(b"fnv")?;
    lines.word(format!(in alloc; "{hash:016x}")?.as_bytes())?;
    lines.end()
}

/// Adds the lines of the rows.
fn put_rows(alloc: Global, lines: &mut Lines, rows: &[Row]) -> Result<(), AllocError> {
    put_count(lines, b"rows", rows.len() as i128)?;
    put_hash(alloc, lines, rows)?;
    for (place, row) in rows.iter().enumerate() {
        if rows.len() <= MOST_ROWS || place < ENDS || rows.len().saturating_sub(place) <= ENDS {
            lines.word(b"row")?;
            lines.number(place as i128)?;
            put_row(alloc, lines, row)?;
        }
    }
    Ok(())
}

/// Adds the lines of the rows and of the objective.
pub fn put_program(alloc: Global, lines: &mut Lines, ip: &Ip) -> Result<(), AllocError> {
    put_rows(alloc, lines, ip.rows.as_slice())?;
    lines.word(b"goal")?;
    put_parts(alloc, lines, ip.goal.as_slice())?;
    lines.end()?;
    put_count(lines, b"base", ip.base)
}

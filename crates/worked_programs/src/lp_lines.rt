//! An integer program as a file in the LP format of CPLEX, which other solvers read. The constant of the objective, which the format
//! hasn't everywhere, stands in a comment in the first line.

use crate::unit_lines::put_count;
use elx_io::Lines;
use int_program::{Ip, Part};
use std::alloc::{AllocError, Global};

/// Adds a sum; one without parts is 0 times the first variable.
fn put_sum(alloc: Global, lines: &mut Lines, parts: &[Part]) -> Result<(), AllocError> {
    if parts.is_empty() {
        lines.word(b"0 x0")?;
    }
    for part in parts {
        let Part { var, by } = *part;
        let sign = if by < 0 { "-" } else { "+" };
        let times = by.unsigned_abs();
        lines.word(format!(in alloc; "{sign} {times} x{var}")?.as_bytes())?;
    }
    Ok(())
}

/// Adds the file of an integer program.
pub fn put_lp(alloc: Global, lines: &mut Lines, ip: &Ip) -> Result<(), AllocError> {
    put_count(lines, b"\\ base", ip.base)?;
    lines.word(b"Maximize")?;
    lines.end()?;
    lines.word(b"value:")?;
    put_sum(alloc, lines, ip.goal.as_slice())?;
    lines.end()?;
    lines.word(b"Subject To")?;
    lines.end()?;
    for (place, row) in ip.rows.as_slice().iter().enumerate() {
        lines.word(format!(in alloc; "r{place}:")?.as_bytes())?;
        put_sum(alloc, lines, row.parts.as_slice())?;
        put_count(lines, b"<=", row.most)?;
    }
    lines.word(b"Bounds")?;
    lines.end()?;
    for (place, top) in ip.tops.as_slice().iter().enumerate() {
        lines.word(format!(in alloc; "0 <= x{place} <= {top}")?.as_bytes())?;
        lines.end()?;
    }
    lines.word(b"General")?;
    lines.end()?;
    for place in 0..ip.tops.as_slice().len() {
        lines.word(format!(in alloc; "x{place}")?.as_bytes())?;
        lines.end()?;
    }
    lines.word(b"End")?;
    lines.end()
}

//! The lines of a program's units.

use crate::expressions::put_expr;
use crate::locations::put_locations;
use crate::statements::put_stmt;
use elastic_ast::{Cells, Lit, Unit, Units, Work};
use elx_bits::Name;
use elx_io::Lines;
use std::alloc::{AllocError, Global};

/// Adds a line with one number.
pub fn put_count(lines: &mut Lines, what: &[u8], count: i128) -> Result<(), AllocError> {
    lines.word(what)?;
    lines.number(count)?;
    lines.end()
}

/// Adds the name of the symbol of a number.
pub fn put_symbol(lines: &mut Lines, symbols: &[Name], symbol: u32) -> Result<(), AllocError> {
    match symbols.get(symbol as usize) {
        Some(name) => lines.word(name.as_slice()),
        None => lines.word(b"?"),
    }
}

/// Adds the line of the loop that a unit stands in: its number, its symbol and its index.
fn put_loop(lines: &mut Lines, symbols: &[Name], unit: &Unit) -> Result<(), AllocError> {
    lines.word(b"loop")?;
    match (unit.loop_no, unit.size, &unit.index) {
        (Some(number), Some(symbol), Some(index)) => {
            lines.number(i128::from(number))?;
            put_symbol(lines, symbols, symbol)?;
            lines.word(index.as_slice())?;
        }
        (None, None, None) => lines.word(b"-")?,
        _ => lines.word(b"?")?,
    }
    lines.end()
}

fn put_stage(lines: &mut Lines, stage: Option<u8>) -> Result<(), AllocError> {
    lines.word(b"stage")?;
    match stage {
        Some(stage) => lines.number(i128::from(stage))?,
        None => lines.word(b"-")?,
    }
    lines.end()
}

fn put_literal(lines: &mut Lines, literal: Lit) -> Result<(), AllocError> {
    lines.word(b"literal")?;
    lines.number(i128::from(literal.number))?;
    lines.word(if literal.own { b"own" } else { b"shared" })?;
    lines.word(if literal.on { b"on" } else { b"off" })?;
    lines.end()
}

/// Adds a line for each literal, and one for each condition.
fn put_guard(alloc: Global, lines: &mut Lines, unit: &Unit) -> Result<(), AllocError> {
    for literal in unit.lits.as_slice() {
        put_literal(lines, *literal)?;
    }
    for condition in unit.conds.as_slice() {
        lines.word(b"condition")?;
        put_expr(alloc, lines, condition, false)?;
        lines.end()?;
    }
    Ok(())
}

fn put_work(alloc: Global, lines: &mut Lines, work: &Work) -> Result<(), AllocError> {
    lines.word(b"work")?;
    match work {
        Work::Plain(stmt) => {
            lines.word(b"plain")?;
            put_stmt(alloc, lines, stmt)?;
        }
        Work::Call(stmt) => {
            lines.word(b"call")?;
            put_stmt(alloc, lines, stmt)?;
        }
        Work::Apply(table) => {
            lines.word(b"apply")?;
            lines.word(table.as_slice())?;
        }
        Work::Pred { number, cond } => {
            lines.word(b"if")?;
            lines.number(i128::from(*number))?;
            put_expr(alloc, lines, cond, false)?;
        }
    }
    lines.end()
}

/// Adds the line of the cells that a unit's register has, and of their width.
fn put_cells(lines: &mut Lines, symbols: &[Name], unit: &Unit) -> Result<(), AllocError> {
    lines.word(b"cells")?;
    match unit.cells {
        None => lines.word(b"-")?,
        Some(cells) => {
            match cells {
                Cells::Fixed(count) => lines.number(i128::from(count))?,
                Cells::Symbol(symbol) => put_symbol(lines, symbols, symbol)?,
            }
            lines.number(i128::from(unit.cell_width))?;
        }
    }
    lines.end()
}

/// Adds the lines of what a unit takes of a stage, and of its operators.
fn put_needs(lines: &mut Lines, symbols: &[Name], unit: &Unit) -> Result<(), AllocError> {
    put_cells(lines, symbols, unit)?;
    put_count(lines, b"cost", i128::from(unit.cost))?;
    put_count(lines, b"ops", i128::from(unit.ops))?;
    put_count(lines, b"table", i128::from(unit.table_bits))?;
    put_count(lines, b"ternary", i128::from(unit.ternary_bits))
}

fn put_unit(
    alloc: Global,
    lines: &mut Lines,
    symbols: &[Name],
    unit: &Unit,
) -> Result<(), AllocError> {
    put_loop(lines, symbols, unit)?;
    put_stage(lines, unit.stage)?;
    put_guard(alloc, lines, unit)?;
    put_work(alloc, lines, &unit.work)?;
    put_locations(alloc, lines, b"reads", unit.reads.as_slice())?;
    put_locations(alloc, lines, b"writes", unit.writes.as_slice())?;
    put_needs(lines, symbols, unit)
}

/// Adds the lines of the header bits at all sizes, and of those for each one in the size of a symbol.
fn put_bits(lines: &mut Lines, units: &Units) -> Result<(), AllocError> {
    put_count(lines, b"fixed_bits", i128::from(units.fixed_bits))?;
    let symbols = units.terms.symbols.as_slice();
    for (symbol, bits) in symbols.iter().zip(units.symbol_bits.as_slice()) {
        lines.word(b"symbol_bits")?;
        put_count(lines, symbol.as_slice(), i128::from(*bits))?;
    }
    Ok(())
}

/// Adds the lines of the symbols, of each unit, and of the header bits.
pub fn put_units(alloc: Global, lines: &mut Lines, units: &Units) -> Result<(), AllocError> {
    let symbols = units.terms.symbols.as_slice();
    lines.word(b"symbols")?;
    for symbol in symbols {
        lines.word(symbol.as_slice())?;
    }
    lines.end()?;
    let list = units.list.as_slice();
    put_count(lines, b"units", list.len() as i128)?;
    for (number, unit) in list.iter().enumerate() {
        put_count(lines, b"unit", number as i128)?;
        put_unit(alloc, lines, symbols, unit)?;
    }
    put_bits(lines, units)
}

//! The canonical text of expressions, one space between its tokens.

use elastic_ast::{Amount, Expr, Lval};
use elx_bits::Name;
use elx_io::Lines;
use operator_table::text_at;
use std::alloc::{AllocError, Global};

/// Adds an index in brackets, where there is one.
pub fn put_index(lines: &mut Lines, index: &Option<Name>) -> Result<(), AllocError> {
    match index {
        None => Ok(()),
        Some(index) => {
            lines.word(b"[")?;
            lines.word(index.as_slice())?;
            lines.word(b"]")
        }
    }
}

/// Adds what a statement assigns or an expression reads.
pub fn put_lval(lines: &mut Lines, lval: &Lval) -> Result<(), AllocError> {
    match lval {
        Lval::Header { header, field } => {
            lines.word(b"hdr .")?;
            lines.word(header.as_slice())?;
            lines.word(b".")?;
            lines.word(field.as_slice())
        }
        Lval::Meta { name, index } => {
            lines.word(b"meta .")?;
            lines.word(name.as_slice())?;
            put_index(lines, index)
        }
        Lval::Std(name) => {
            lines.word(b"std .")?;
            lines.word(name.as_slice())
        }
    }
}

fn put_amount(lines: &mut Lines, amount: &Amount) -> Result<(), AllocError> {
    match amount {
        Amount::Num(number) => lines.number(i128::from(*number)),
        Amount::Named(name) => lines.word(name.as_slice()),
    }
}

fn put_number(
    alloc: Global,
    lines: &mut Lines,
    width: Option<u8>,
    value: u128,
) -> Result<(), AllocError> {
    let word = match width {
        Some(width) => format!(in alloc; "{width}w{value}")?,
        None => format!(in alloc; "{value}")?,
    };
    lines.word(word.as_bytes())
}

fn put_valid(lines: &mut Lines, header: &Name) -> Result<(), AllocError> {
    lines.word(b"hdr .")?;
    lines.word(header.as_slice())?;
    lines.word(b". isValid ( )")
}

fn put_range(lines: &mut Lines, high: u8, low: u8) -> Result<(), AllocError> {
    lines.word(b"[")?;
    lines.number(i128::from(high))?;
    lines.word(b":")?;
    lines.number(i128::from(low))?;
    lines.word(b"]")
}

fn put_width(lines: &mut Lines, width: u8) -> Result<(), AllocError> {
    lines.word(b"( bit <")?;
    lines.number(i128::from(width))?;
    lines.word(b"> )")
}

/// Whether an expression is an operator with its operands.
fn is_operation(expr: &Expr) -> bool {
    match expr {
        Expr::Num { .. } | Expr::Bool(_) | Expr::Named(_) | Expr::Field(_) => false,
        _ => true,
    }
}

/// Adds an expression, in brackets where it is an operator with its operands and stands as an operand itself.
pub fn put_expr(
    alloc: Global,
    lines: &mut Lines,
    expr: &Expr,
    operand: bool,
) -> Result<(), AllocError> {
    let brackets = operand && is_operation(expr);
    if brackets {
        lines.word(b"(")?;
    }
    match expr {
        Expr::Num { width, value } => put_number(alloc, lines, *width, *value)?,
        Expr::Bool(true) => lines.word(b"true")?,
        Expr::Bool(false) => lines.word(b"false")?,
        Expr::Named(name) => lines.word(name.as_slice())?,
        Expr::Field(lval) => put_lval(lines, lval)?,
        Expr::IsValid(header) => put_valid(lines, header)?,
        Expr::Unary { op, of } => {
            lines.word(text_at(*op).as_bytes())?;
            put_expr(alloc, lines, of, true)?;
        }
        Expr::Binary { op, left, right } => {
            put_expr(alloc, lines, left, true)?;
            lines.word(text_at(*op).as_bytes())?;
            put_expr(alloc, lines, right, true)?;
        }
        Expr::Cast { width, of } => {
            put_width(lines, *width)?;
            put_expr(alloc, lines, of, true)?;
        }
        Expr::Slice { of, high, low } => {
            put_expr(alloc, lines, of, true)?;
            put_range(lines, *high, *low)?;
        }
        Expr::Hash { k, of, modulus } => {
            lines.word(b"hash (")?;
            put_amount(lines, k)?;
            lines.word(b",")?;
            put_expr(alloc, lines, of, false)?;
            lines.word(b",")?;
            put_amount(lines, modulus)?;
            lines.word(b")")?;
        }
    }
    if brackets {
        lines.word(b")")?;
    }
    Ok(())
}

//! The canonical text of statements without statements in them.

use crate::expressions::{put_expr, put_index, put_lval};
use elastic_ast::{Expr, RegRef, Stmt};
use elx_bits::Name;
use elx_io::Lines;
use std::alloc::{AllocError, Global};

fn put_register(lines: &mut Lines, register: &RegRef) -> Result<(), AllocError> {
    lines.word(register.name.as_slice())?;
    put_index(lines, &register.index)
}

fn put_args(alloc: Global, lines: &mut Lines, args: &[Expr]) -> Result<(), AllocError> {
    for (place, arg) in args.iter().enumerate() {
        if place > 0 {
            lines.word(b",")?;
        }
        put_expr(alloc, lines, arg, false)?;
    }
    Ok(())
}

fn put_marked(lines: &mut Lines, header: &Name, on: bool) -> Result<(), AllocError> {
    lines.word(b"hdr .")?;
    lines.word(header.as_slice())?;
    if on {
        lines.word(b". setValid ( ) ;")
    } else {
        lines.word(b". setInvalid ( ) ;")
    }
}

/// Adds a statement. One with statements in it is no unit's work, and neither is the application of a table.
pub fn put_stmt(alloc: Global, lines: &mut Lines, stmt: &Stmt) -> Result<(), AllocError> {
    match stmt {
        Stmt::Block { .. } | Stmt::If { .. } | Stmt::For { .. } | Stmt::Apply(_) => Ok(()),
        Stmt::Assign { to, value } => {
            put_lval(lines, to)?;
            lines.word(b"=")?;
            put_expr(alloc, lines, value, false)?;
            lines.word(b";")
        }
        Stmt::Read { to, reg, cell } => {
            put_lval(lines, to)?;
            lines.word(b"=")?;
            put_register(lines, reg)?;
            lines.word(b". read (")?;
            put_expr(alloc, lines, cell, false)?;
            lines.word(b") ;")
        }
        Stmt::Write { reg, cell, value } => {
            put_register(lines, reg)?;
            lines.word(b". write (")?;
            put_expr(alloc, lines, cell, false)?;
            lines.word(b",")?;
            put_expr(alloc, lines, value, false)?;
            lines.word(b") ;")
        }
        Stmt::Valid { header, on } => put_marked(lines, header, *on),
        Stmt::Call {
            action,
            index,
            args,
        } => {
            lines.word(action.as_slice())?;
            put_index(lines, index)?;
            lines.word(b"(")?;
            put_args(alloc, lines, args.as_slice())?;
            lines.word(b") ;")
        }
    }
}

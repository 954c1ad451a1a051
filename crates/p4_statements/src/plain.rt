//! Plain statements: assignments, reads and writes of registers, and changes of a header's validity.

ghost use Rattle.std.specs.Prelude.{◌↔◌, IsTrue, codes, drop};
ghost use Rattle.spelling.specs.Grammar.{Begins, IsSign};
ghost use Rattle.spelling.specs.Reading.{ahead};
ghost use Rattle.spelling.specs.Readers.{itself, Reads};
ghost use Rattle.p4_statements.specs.Statements.{SpellsPlain, SpellsValidity};
ghost use Rattle.p4_statements.specs.WordsAhead.{IfIndexedName, IfReadCall, IsChangeAhead, IsWriteAhead};
ghost use Rattle.p4_statements.specs.Reading.{IsReadAhead, ReadsAssign, ReadsStmtMade, ReadsPlains};
ghost use Rattle.p4_statements.specs.Reading.{ReadsRead, ReadsStmt, a_change, a_write};

use crate::brackets::{bracketed, two};
use elastic_ast::{Lval, Stmt};
use elx_bits::Items;
use p4_expr::{header, lval, no_arguments, read_expr, register};
use spelling::{Parsed, Reader, until_closed};
use std::alloc::Global;

/// Reads plain statements up to a closing bracket. `depth` is how many brackets may be open from here on.
pub fn plain_statements(alloc: Global, reader: &mut Reader<'_>, depth: u32) -> Parsed<Items<Stmt>>
    ensures { ReadsPlains depth reader.old reader.new result }
{
    until_closed(
        alloc,
        reader,
        |reader| plain_statement(alloc, reader, depth),
    )
}

/// Reads a plain statement. `depth` is how many brackets may be open from here on.
pub fn plain_statement(alloc: Global, reader: &mut Reader<'_>, depth: u32) -> Parsed<Stmt>
    ensures { ReadsStmt SpellsPlain depth reader.old reader.new result }
{
    if is_at_write(reader) {
        return write(alloc, reader, depth);
    }
    if is_at_validity(reader) {
        return validity(alloc, reader, depth);
    }
    let to = lval(alloc, reader, depth)?;
    reader.sign(b"=")?;
    if is_at_read(reader) {
        return read(alloc, reader, depth, to);
    }
    assign(alloc, reader, depth, to)
}

/// Whether a register is written: an index follows the name, or the brackets of a call the name behind it.
fn is_at_write(reader: &Reader<'_>) -> bool
    ensures index { Begins (IsSign (codes "[")) (drop 1 (ahead reader.now)) → IsTrue result }
    ensures call { Begins (IsSign (codes "(")) (drop 3 (ahead reader.now)) → IsTrue result }
    ensures none { IsTrue result → IsWriteAhead (ahead reader.now) }
{
    reader.later(1).is_at_sign(b"[") || reader.later(3).is_at_sign(b"(")
}

/// Whether a header's validity is changed: `hdr.HEADER.CHANGE(`.
fn is_at_validity(reader: &Reader<'_>) -> bool
    ensures { IsTrue result ↔ IsChangeAhead (ahead reader.now) }
{
    reader.later(3).is_at_sign(b".") && reader.later(5).is_at_sign(b"(")
}

/// Whether a register is read: an index follows a name, or `NAME.read(` stands there.
fn is_at_read(reader: &Reader<'_>) -> bool
    ensures index { IfIndexedName (ahead reader.now) (IsTrue result) }
    ensures call { IfReadCall (ahead reader.now) (IsTrue result) }
    ensures none { IsTrue result → IsReadAhead (ahead reader.now) }
{
    if !reader.is_at_any_name() {
        return false;
    }
    if reader.later(1).is_at_sign(b"[") {
        return reader.later(2).is_at_any_name();
    }
    reader.later(1).is_at_sign(b".")
        && reader.later(2).is_at_name(b"read")
        && reader.later(3).is_at_sign(b"(")
}

/// `REGISTER.write(CELL, VALUE);`
fn write(alloc: Global, reader: &mut Reader<'_>, depth: u32) -> Parsed<Stmt>
    ensures { ReadsStmtMade SpellsPlain a_write depth reader.old reader.new result }
{
    let reg = register(alloc, reader, depth)?;
    reader.sign(b".")?;
    reader.fixed_name(b"write")?;
    let (cell, value) = two(alloc, reader, depth)?;
    reader.sign(b";")?;
    Ok(Stmt::Write { reg, cell, value })
}

/// `hdr.HEADER.setValid();` or `hdr.HEADER.setInvalid();`
fn validity(alloc: Global, reader: &mut Reader<'_>, depth: u32) -> Parsed<Stmt>
    ensures { ReadsStmtMade SpellsPlain a_change depth reader.old reader.new result }
{
    let header = header(alloc, reader)?;
    reader.sign(b".")?;
    let on = change(reader)?;
    no_arguments(reader, depth)?;
    reader.sign(b";")?;
    Ok(Stmt::Valid { header, on })
}

/// `setValid` or `setInvalid`: whether the header is made valid.
fn change(reader: &mut Reader<'_>) -> Parsed<bool>
    ensures { Reads SpellsValidity itself reader.old reader.new result }
{
    if reader.is_at_name(b"setValid") {
        reader.fixed_name(b"setValid")?;
        return Ok(true);
    }
    reader.fixed_name(b"setInvalid")?;
    Ok(false)
}

/// Reads what follows `PLACE =` where it is `REGISTER.read(CELL);`.
fn read(alloc: Global, reader: &mut Reader<'_>, depth: u32, to: Lval) -> Parsed<Stmt>
    ensures { ReadsRead depth to reader.old reader.new result }
{
    let reg = register(alloc, reader, depth)?;
    reader.sign(b".")?;
    reader.fixed_name(b"read")?;
    let cell = bracketed(alloc, reader, depth)?;
    reader.sign(b";")?;
    Ok(Stmt::Read { to, reg, cell })
}

/// Reads what follows `PLACE =` where it is `VALUE;`.
fn assign(alloc: Global, reader: &mut Reader<'_>, depth: u32, to: Lval) -> Parsed<Stmt>
    ensures { ReadsAssign depth to reader.old reader.new result }
{
    let value = read_expr(alloc, reader, depth)?;
    reader.sign(b";")?;
    Ok(Stmt::Assign { to, value })
}

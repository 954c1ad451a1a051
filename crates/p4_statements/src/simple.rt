//! Statements that have no statement in them.

ghost use Rattle.std.specs.Prelude.{◌↔◌, IsTrue, codes, drop};
ghost use Rattle.spelling.specs.Grammar.{Begins, IsSign};
ghost use Rattle.spelling.specs.Reading.{ahead};
ghost use Rattle.p4_statements.specs.WordsAhead.{IfIndexedCall, IsApplyAhead, IsCallAhead};
ghost use Rattle.p4_statements.specs.Reading.{ReadsStmt, SpellsSimple};

use crate::calls::{apply, call};
use crate::plain::plain_statement;
use elastic_ast::Stmt;
use spelling::{Parsed, Reader};
use std::alloc::Global;

/// Reads a call of an action, an application of a table or a plain statement, which the first words tell apart. `depth` is how
/// many brackets may be open from here on.
pub fn simple_statement(alloc: Global, reader: &mut Reader<'_>, depth: u32) -> Parsed<Stmt>
    ensures { ReadsStmt SpellsSimple depth reader.old reader.new result }
{
    if is_at_call(reader) {
        call(alloc, reader, depth)
    } else if is_at_apply(reader) {
        apply(alloc, reader, depth)
    } else {
        plain_statement(alloc, reader, depth)
    }
}

/// Whether an action is called: the brackets of a call follow the name, or its index.
fn is_at_call(reader: &Reader<'_>) -> bool
    ensures plain { Begins (IsSign (codes "(")) (drop 1 (ahead reader.now)) → IsTrue result }
    ensures index { IfIndexedCall (ahead reader.now) (IsTrue result) }
    ensures none { IsTrue result → IsCallAhead (ahead reader.now) }
{
    reader.later(1).is_at_sign(b"(")
        || reader.later(1).is_at_sign(b"[") && reader.later(4).is_at_sign(b"(")
}

/// Whether a table is applied: `NAME.apply(`.
fn is_at_apply(reader: &Reader<'_>) -> bool
    ensures { IsTrue result ↔ IsApplyAhead (ahead reader.now) }
{
    reader.later(2).is_at_name(b"apply") && reader.later(3).is_at_sign(b"(")
}

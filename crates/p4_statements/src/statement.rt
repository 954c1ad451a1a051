//! The reader of statements.

ghost use Rattle.std.specs.Prelude.{◌↔◌, IsTrue};
ghost use Rattle.spelling.specs.Reading.{ahead};
ghost use Rattle.spelling.specs.Readers.{itself, Reads, ReadsLine, ReadsLineUpTo};
ghost use Rattle.p4_statements.specs.ReadingStatements.{BeginsBlock, BeginsFor, ReadsBraces};
ghost use Rattle.p4_statements.specs.ReadingStatements.{ReadsBranch, ReadsClosed, ReadsIf};
ghost use Rattle.p4_statements.specs.ReadingStatements.{ReadsStatement, ReadsStmts};
ghost use Rattle.p4_statements.specs.Reading.{OpensNextBlock, ReadsExpr};
ghost use Rattle.p4_statements.specs.Statements.{SpellsCondition, SpellsFor, SpellsStage, SpellsTurn};

use crate::brackets::bracketed;
use crate::simple::simple_statement;
use elastic_ast::{Expr, Stmt};
use elx_bits::{Items, Name};
use spelling::{Brackets, Parsed, Reader, keep};
use std::alloc::Global;

/// Reads statements up to a closing bracket. `depth` is how many brackets may be open from here on.
///
/// NotProgram names the token at which the reading stopped; TooDeep the token at which too many brackets are open, a branch that
/// is no block counted as one, or an expression has too many operators; Memory comes for want of memory.
#[cycle(statements)]
pub fn statements(alloc: Global, reader: &mut Reader<'_>, depth: u32) -> Parsed<Items<Stmt>>
    ensures { ReadsStmts depth reader.old reader.new result }
{
    let mut stmts = Items::new(alloc);
    'stmts: while !reader.is_at_sign(b"}") {
        let stmt = statement(alloc, reader, depth)?;
        keep(&mut stmts, stmt)?;
    }
    Ok(stmts)
}

/// Reads a statement, which its first token determines.
#[cycle(statements)]
fn statement(alloc: Global, reader: &mut Reader<'_>, depth: u32) -> Parsed<Stmt>
    ensures { ReadsStatement depth reader.old reader.new result }
{
    if is_at_block(reader) {
        return block(alloc, reader, depth);
    }
    if reader.is_at_reserved(b"if") {
        return conditional(alloc, reader, depth);
    }
    if reader.is_at_reserved(b"for") {
        return repeated(alloc, reader, depth);
    }
    simple_statement(alloc, reader, depth)
}

/// `{ STATEMENTS }`, perhaps with `@stage(STAGE)` before it.
#[cycle(statements)]
fn block(alloc: Global, reader: &mut Reader<'_>, depth: u32) -> Parsed<Stmt>
    ensures { ReadsClosed BeginsBlock depth reader.old reader.new result }
{
    let stage = stage(reader, depth)?;
    let body = in_braces(alloc, reader, depth)?;
    Ok(Stmt::Block { stage, body })
}

/// `if (CONDITION) BRANCH` or `if (CONDITION) BRANCH else BRANCH`
#[cycle(statements)]
fn conditional(alloc: Global, reader: &mut Reader<'_>, depth: u32) -> Parsed<Stmt>
    ensures { ReadsIf depth reader.old reader.new result }
{
    let cond = condition(alloc, reader, depth)?;
    let yes = branch(alloc, reader, depth)?;
    if !reader.is_at_reserved(b"else") {
        return Ok(Stmt::If {
            cond,
            yes,
            no: None,
        });
    }
    reader.reserved(b"else")?;
    let no = branch(alloc, reader, depth)?;
    Ok(Stmt::If {
        cond,
        yes,
        no: Some(no),
    })
}

/// `for (INDEX < SIZE) { STATEMENTS }`
#[cycle(statements)]
fn repeated(alloc: Global, reader: &mut Reader<'_>, depth: u32) -> Parsed<Stmt>
    ensures { ReadsClosed BeginsFor depth reader.old reader.new result }
{
    let (index, size) = turns(alloc, reader, depth)?;
    let body = in_braces(alloc, reader, depth)?;
    Ok(Stmt::For { index, size, body })
}

/// A branch of an `if`: the statements of a block without a stage, or one other statement, which counts as one more bracket.
#[cycle(statements)]
fn branch(alloc: Global, reader: &mut Reader<'_>, depth: u32) -> Parsed<Items<Stmt>>
    ensures { ReadsBranch depth reader.old reader.new result }
{
    if reader.is_at_sign(b"{") {
        return in_braces(alloc, reader, depth);
    }
    if depth == 0 {
        return Err(reader.too_deep());
    }
    let stmt = statement(alloc, reader, depth - 1)?;
    let mut stmts = Items::new(alloc);
    keep(&mut stmts, stmt)?;
    Ok(stmts)
}

/// `{ STATEMENTS }`
#[cycle(statements)]
fn in_braces(alloc: Global, reader: &mut Reader<'_>, depth: u32) -> Parsed<Items<Stmt>>
    ensures { ReadsBraces depth reader.old reader.new result }
{
    let inner = reader.open(b"{", depth)?;
    let stmts = statements(alloc, reader, inner)?;
    reader.sign(b"}")?;
    Ok(stmts)
}

/// Whether a block stands next, perhaps with its stage before it.
fn is_at_block(reader: &Reader<'_>) -> bool
    ensures { IsTrue result ↔ BeginsBlock (ahead reader.now) }
{
    reader.is_at_sign(b"{") || reader.is_at_sign(b"@")
}

/// `@stage(STAGE)`, where it is there.
fn stage(reader: &mut Reader<'_>, depth: u32) -> Parsed<Option<u8>>
    ensures { ReadsLineUpTo OpensNextBlock SpellsStage itself depth reader.old reader.new result }
{
    if !reader.eat_sign(b"@") {
        return Ok(None);
    }
    reader.fixed_name(b"stage")?;
    let _inner = reader.open(b"(", depth)?;
    let stage = reader.number(u128::from(u8::MAX))?;
    reader.sign(b")")?;
    Ok(Some(stage as u8))
}

/// `if (CONDITION)`
fn condition(alloc: Global, reader: &mut Reader<'_>, depth: u32) -> Parsed<Expr>
    ensures { ReadsExpr SpellsCondition depth reader.old reader.new result }
{
    reader.reserved(b"if")?;
    bracketed(alloc, reader, depth)
}

/// `for (INDEX < SIZE)`
fn turns(alloc: Global, reader: &mut Reader<'_>, depth: u32) -> Parsed<(Name, Name)>
    ensures { ReadsLine SpellsFor itself depth reader.old reader.new result }
{
    reader.reserved(b"for")?;
    Brackets::Round(depth).around(reader, |reader, _| turn(alloc, reader))
}

/// `INDEX < SIZE`
fn turn(alloc: Global, reader: &mut Reader<'_>) -> Parsed<(Name, Name)>
    ensures { Reads SpellsTurn itself reader.old reader.new result }
{
    let index = reader.name(alloc)?;
    reader.sign(b"<")?;
    let size = reader.name(alloc)?;
    Ok((index, size))
}

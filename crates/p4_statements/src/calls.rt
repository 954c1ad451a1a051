//! Calls of actions and applications of tables.

ghost use Rattle.elastic_ast.specs.Tree.{PlainStmt};
ghost use Rattle.spelling.specs.Readers.{InRound};
ghost use Rattle.p4_statements.specs.Reading.{ReadsExprs, ReadsExprsBefore, ReadsExprsUpTo};
ghost use Rattle.p4_statements.specs.Reading.{ReadsStmtMade, SpellsArguments, SpellsExprList};
ghost use Rattle.p4_statements.specs.Reading.{SpellsSimple, a_call};

use elastic_ast::{Expr, Stmt};
use elx_bits::Items;
use p4_expr::{index, no_arguments, read_expr};
use spelling::{Brackets, Parsed, Reader, keep};
use std::alloc::Global;

/// `ACTION(ARGUMENTS);` or `ACTION[INDEX](ARGUMENTS);`
pub fn call(alloc: Global, reader: &mut Reader<'_>, depth: u32) -> Parsed<Stmt>
    ensures { ReadsStmtMade SpellsSimple a_call depth reader.old reader.new result }
{
    let action = reader.name(alloc)?;
    let index = index(alloc, reader, depth)?;
    let args = arguments(alloc, reader, depth)?;
    reader.sign(b";")?;
    Ok(Stmt::Call {
        action,
        index,
        args,
    })
}

/// `TABLE.apply();`
pub fn apply(alloc: Global, reader: &mut Reader<'_>, depth: u32) -> Parsed<Stmt>
    ensures { ReadsStmtMade SpellsSimple PlainStmt.Apply depth reader.old reader.new result }
{
    let table = reader.name(alloc)?;
    reader.sign(b".")?;
    reader.fixed_name(b"apply")?;
    no_arguments(reader, depth)?;
    reader.sign(b";")?;
    Ok(Stmt::Apply(table))
}

/// Expressions between brackets, with a comma between each two.
fn arguments(alloc: Global, reader: &mut Reader<'_>, depth: u32) -> Parsed<Items<Expr>>
    ensures { ReadsExprs (InRound SpellsArguments) depth reader.old reader.new result }
{
    Brackets::Round(depth).around(reader, |reader, inner| argument_list(alloc, reader, inner))
}

/// Expressions with a comma between each two, perhaps none, up to the closing bracket.
fn argument_list(alloc: Global, reader: &mut Reader<'_>, depth: u32) -> Parsed<Items<Expr>>
    ensures { ReadsExprsUpTo SpellsArguments depth reader.old reader.new result }
{
    if reader.is_at_sign(b")") {
        return Ok(Items::new(alloc));
    }
    expressions(alloc, reader, depth)
}

/// At least one expression, with a comma between each two.
fn expressions(alloc: Global, reader: &mut Reader<'_>, depth: u32) -> Parsed<Items<Expr>>
    ensures { ReadsExprsBefore SpellsExprList depth reader.old reader.new result }
{
    let mut exprs = Items::new(alloc);
    let first = read_expr(alloc, reader, depth)?;
    keep(&mut exprs, first)?;
    'exprs: while reader.eat_sign(b",") {
        let next = read_expr(alloc, reader, depth)?;
        keep(&mut exprs, next)?;
    }
    Ok(exprs)
}

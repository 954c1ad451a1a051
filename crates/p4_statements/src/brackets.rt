//! Expressions between brackets.

ghost use Rattle.spelling.specs.Readers.{InRound};
ghost use Rattle.p4_expr.specs.Expressions.{SpellsExpr};
ghost use Rattle.p4_statements.specs.Reading.{ReadsExpr, ReadsTwo, ReadsTwoUpTo, SpellsTwo};

use elastic_ast::Expr;
use p4_expr::read_expr;
use spelling::{Brackets, Parsed, Reader};
use std::alloc::Global;

/// `(EXPRESSION)`. `depth` is how many brackets may be open from here on. NotProgram where something else follows; TooDeep where
/// too many brackets are open or the expression has too many operators; Memory for want of memory.
pub fn bracketed(alloc: Global, reader: &mut Reader<'_>, depth: u32) -> Parsed<Expr>
    ensures { ReadsExpr (InRound SpellsExpr) depth reader.old reader.new result }
{
    Brackets::Round(depth).around(reader, |reader, inner| read_expr(alloc, reader, inner))
}

/// `(EXPRESSION, EXPRESSION)`
pub fn two(alloc: Global, reader: &mut Reader<'_>, depth: u32) -> Parsed<(Expr, Expr)>
    ensures { ReadsTwo (InRound SpellsTwo) depth reader.old reader.new result }
{
    Brackets::Round(depth).around(reader, |reader, inner| two_in(alloc, reader, inner))
}

/// `EXPRESSION, EXPRESSION`, up to the closing bracket.
fn two_in(alloc: Global, reader: &mut Reader<'_>, depth: u32) -> Parsed<(Expr, Expr)>
    ensures { ReadsTwoUpTo SpellsTwo depth reader.old reader.new result }
{
    let one = read_expr(alloc, reader, depth)?;
    reader.sign(b",")?;
    let other = read_expr(alloc, reader, depth)?;
    Ok((one, other))
}

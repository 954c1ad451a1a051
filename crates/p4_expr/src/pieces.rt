//! The pieces of expressions that have no expression in them, and the making of trees.

ghost use Rattle.std.specs.Prelude.{◌≡◌, IfOk, IfErr};
ghost use Rattle.elastic_ast.specs.Seen.{seen_expr};
ghost use Rattle.elastic_ast.specs.Tree.{PlainExpr};
ghost use Rattle.spelling.specs.Reading.{IsWant};
ghost use Rattle.spelling.specs.Readers.{itself, Reads, ReadsLine};
ghost use Rattle.p4_expr.specs.Readings.{Makes};
ghost use Rattle.p4_expr.specs.Parts.{SpellsAmountBefore, SpellsCast, SpellsHashEnd};
ghost use Rattle.p4_expr.specs.Parts.{SpellsIsValid, SpellsSlice, SpellsTruth};

use crate::parts::{amount, bits, header, no_arguments};
use elastic_ast::{Amount, Expr};
use elx_bits::Name;
use spelling::{Parsed, Reader, SyntaxError, in_brackets};
use std::alloc::Global;

/// `true` or `false`
pub fn truth(reader: &mut Reader<'_>) -> Parsed<bool>
    ensures { Reads SpellsTruth itself reader.old reader.new result }
{
    if reader.is_at_reserved(b"true") {
        reader.reserved(b"true")?;
        return Ok(true);
    }
    reader.reserved(b"false")?;
    Ok(false)
}

/// `(bit<WIDTH>)`: the width. `depth` is how many brackets may be open from here on.
pub fn cast(reader: &mut Reader<'_>, depth: u32) -> Parsed<u8>
    ensures { ReadsLine SpellsCast itself depth reader.old reader.new result }
{
    in_brackets(reader, b"(", b")", depth, |reader, _| bits(reader))
}

/// `[HIGH:LOW]`: the two bits. `depth` is how many brackets may be open from here on.
pub fn bit_range(reader: &mut Reader<'_>, depth: u32) -> Parsed<(u8, u8)>
    ensures { ReadsLine SpellsSlice itself depth reader.old reader.new result }
{
    let _inner = reader.open(b"[", depth)?;
    let high = reader.number(255)?;
    reader.sign(b":")?;
    let low = reader.number(255)?;
    reader.sign(b"]")?;
    Ok((high as u8, low as u8))
}

/// `hdr.NAME.isValid()`: the name of the header. `depth` is how many brackets may be open from here on.
pub fn validity(alloc: Global, reader: &mut Reader<'_>, depth: u32) -> Parsed<Name>
    ensures { ReadsLine SpellsIsValid itself depth reader.old reader.new result }
{
    let name = header(alloc, reader)?;
    reader.sign(b".")?;
    reader.fixed_name(b"isValid")?;
    no_arguments(reader, depth)?;
    Ok(name)
}

/// A number or a name, and a sign behind it.
pub fn amount_before(alloc: Global, reader: &mut Reader<'_>, sign: &[u8]) -> Parsed<Amount>
    ensures { Reads (SpellsAmountBefore sign.now) itself reader.old reader.new result }
{
    let read = amount(alloc, reader)?;
    reader.sign(sign)?;
    Ok(read)
}

/// `, MODULUS)` of a hash
pub fn hash_end(alloc: Global, reader: &mut Reader<'_>) -> Parsed<Amount>
    ensures { Reads SpellsHashEnd itself reader.old reader.new result }
{
    reader.sign(b",")?;
    amount_before(alloc, reader, b")")
}

/// An expression as a part of another.
pub fn boxed(alloc: Global, e: Expr) -> Parsed<Box<Expr>>
    ensures made { IfOk result (λ b. b.value ≡ e) }
    ensures memory { IfErr result IsWant }
{
    match Box::new(alloc, e) {
        Ok(e) => Ok(e),
        Err(_) => Err(SyntaxError::Memory),
    }
}

/// Two operands with an operator between them.
pub fn binary(alloc: Global, op: u16, left: Expr, right: Expr) -> Parsed<Expr>
    ensures made { Makes (PlainExpr.Binary op (seen_expr left) (seen_expr right)) result }
    ensures memory { IfErr result IsWant }
{
    let left = boxed(alloc, left)?;
    let right = boxed(alloc, right)?;
    Ok(Expr::Binary { op, left, right })
}

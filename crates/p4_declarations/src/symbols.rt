//! Symbols, assumptions about them, and the utility.

ghost use Rattle.std.specs.Prelude.{ℕ};
ghost use Rattle.elastic_ast.specs.Tree.{PlainDecl};
ghost use Rattle.spelling.specs.Readers.{InRound, itself, ReadsWithin};
ghost use Rattle.p4_declarations.specs.Flat.{SpellsGains};
ghost use Rattle.p4_declarations.specs.Made.{SpellsAssumption, ReadsFlat};

use crate::fields::ended_name;
use crate::gains::gains;
use crate::sums::comparisons;
use elastic_ast::{Comp, Decl, UtilTerm};
use elx_bits::Items;
use spelling::{Brackets, Parsed, Reader, then_sign};
use std::alloc::Global;

/// `symbolic int NAME;`
pub fn symbol(alloc: Global, reader: &mut Reader<'_>) -> Parsed<Decl>
    ensures { (depth : ℕ) → ReadsFlat PlainDecl.Symbol depth reader.old reader.new result }
{
    reader.reserved(b"symbolic")?;
    reader.reserved(b"int")?;
    ended_name(alloc, reader).map(Decl::Symbol)
}

/// `assume(COMPARISONS);`
pub fn assume(alloc: Global, reader: &mut Reader<'_>, depth: u32) -> Parsed<Decl>
    ensures { ReadsFlat PlainDecl.Assume depth reader.old reader.new result }
{
    reader.fixed_name(b"assume")?;
    then_sign(reader, b";", |reader| assume_body(alloc, reader, depth)).map(Decl::Assume)
}

/// `maximize(UTILITY);`
pub fn maximize(alloc: Global, reader: &mut Reader<'_>, depth: u32) -> Parsed<Decl>
    ensures { ReadsFlat PlainDecl.Maximize depth reader.old reader.new result }
{
    reader.fixed_name(b"maximize")?;
    then_sign(reader, b";", |reader| maximize_body(alloc, reader, depth)).map(Decl::Maximize)
}

/// `(COMPARISONS)`
fn assume_body(alloc: Global, reader: &mut Reader<'_>, depth: u32) -> Parsed<Items<Comp>>
    ensures { ReadsWithin SpellsAssumption itself depth reader.old reader.new result }
{
    Brackets::Round(depth).around(reader, |reader, _| comparisons(alloc, reader))
}

/// `(UTILITY)`
fn maximize_body(alloc: Global, reader: &mut Reader<'_>, depth: u32) -> Parsed<Items<UtilTerm>>
    ensures { ReadsWithin (InRound SpellsGains) itself depth reader.old reader.new result }
{
    Brackets::Round(depth).around(reader, |reader, inner| gains(alloc, reader, inner))
}

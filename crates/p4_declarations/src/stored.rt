//! Constants and registers.

ghost use Rattle.std.specs.Prelude.{ℕ};
ghost use Rattle.spelling.specs.Readers.{InRound, itself, Reads, ReadsWithin};
ghost use Rattle.p4_expr.specs.Parts.{SpellsAmount};
ghost use Rattle.p4_declarations.specs.Flat.{SpellsConstant};
ghost use Rattle.p4_declarations.specs.Made.{ReadsFlat, a_constant, a_register};

use crate::fields::ended_name;
use elastic_ast::{Amount, Decl};
use p4_expr::{amount, bits, index, number};
use spelling::{Brackets, Parsed, Reader};
use std::alloc::Global;

/// `const bit<WIDTH> NAME = VALUE;`
pub fn constant(alloc: Global, reader: &mut Reader<'_>) -> Parsed<Decl>
    ensures { (depth : ℕ) → ReadsFlat a_constant depth reader.old reader.new result }
{
    reader.reserved(b"const")?;
    let width = bits(reader)?;
    let name = reader.name(alloc)?;
    reader.sign(b"=")?;
    let value = constant_value(reader, width)?;
    reader.sign(b";")?;
    Ok(Decl::Const { name, width, value })
}

/// A number without a width or with this one.
fn constant_value(reader: &mut Reader<'_>, width: u8) -> Parsed<u128>
    ensures { Reads (SpellsConstant width) itself reader.old reader.new result }
{
    let refusal = reader.refusal();
    let (own_width, value) = number(reader)?;
    if let Some(own) = own_width {
        if own != width {
            return Err(refusal);
        }
    }
    Ok(value)
}

/// `Register<bit<WIDTH>>(CELLS) NAME;` or `Register<bit<WIDTH>>(CELLS)[SIZE] NAME;`
pub fn register(alloc: Global, reader: &mut Reader<'_>, depth: u32) -> Parsed<Decl>
    ensures { ReadsFlat a_register depth reader.old reader.new result }
{
    reader.fixed_name(b"Register")?;
    reader.sign(b"<")?;
    let width = bits(reader)?;
    reader.sign(b">")?;
    let cells = register_cells(alloc, reader, depth)?;
    let size = index(alloc, reader, depth)?;
    let name = ended_name(alloc, reader)?;
    Ok(Decl::Register {
        name,
        width,
        cells,
        size,
    })
}

/// `(CELLS)`
fn register_cells(alloc: Global, reader: &mut Reader<'_>, depth: u32) -> Parsed<Amount>
    ensures { ReadsWithin (InRound (λ _. SpellsAmount)) itself depth reader.old reader.new result }
{
    Brackets::Round(depth).around(reader, |reader, _| amount(alloc, reader))
}

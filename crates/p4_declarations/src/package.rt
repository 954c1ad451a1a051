//! The package of the program: its parser, control and deparser.

ghost use Rattle.spelling.specs.Readers.{InRound, itself, ReadsWithin};
ghost use Rattle.p4_declarations.specs.Flat.{SpellsPart};
ghost use Rattle.p4_declarations.specs.Made.{SpellsThreeParts, ReadsFlat, a_package};

use elastic_ast::Decl;
use elx_bits::Name;
use p4_expr::no_arguments;
use spelling::{Brackets, Parsed, Reader, then_sign};
use std::alloc::Global;

/// The names of the three parts of a program.
#[derive(Drop)]
struct Parts {
    parser: Name,
    control: Name,
    deparser: Name,
}

/// `Pisa(PARSER(), CONTROL(), DEPARSER()) main;`
pub fn package(alloc: Global, reader: &mut Reader<'_>, depth: u32) -> Parsed<Decl>
    ensures { ReadsFlat a_package depth reader.old reader.new result }
{
    reader.fixed_name(b"Pisa")?;
    let parts = part_list(alloc, reader, depth)?;
    reader.fixed_name(b"main")?;
    reader.sign(b";")?;
    Ok(Decl::Main {
        parser: parts.parser,
        control: parts.control,
        deparser: parts.deparser,
    })
}

/// `(PARSER(), CONTROL(), DEPARSER())`
fn part_list(alloc: Global, reader: &mut Reader<'_>, depth: u32) -> Parsed<Parts>
    ensures { ReadsWithin (InRound SpellsThreeParts) itself depth reader.old reader.new result }
{
    Brackets::Round(depth).around(reader, |reader, inner| three_parts(alloc, reader, inner))
}

/// `PARSER(), CONTROL(), DEPARSER()`
fn three_parts(alloc: Global, reader: &mut Reader<'_>, depth: u32) -> Parsed<Parts>
    ensures { ReadsWithin SpellsThreeParts itself depth reader.old reader.new result }
{
    let parser = then_sign(reader, b",", |reader| part(alloc, reader, depth))?;
    let control = then_sign(reader, b",", |reader| part(alloc, reader, depth))?;
    let deparser = part(alloc, reader, depth)?;
    Ok(Parts {
        parser,
        control,
        deparser,
    })
}

/// `NAME()`
fn part(alloc: Global, reader: &mut Reader<'_>, depth: u32) -> Parsed<Name>
    ensures { ReadsWithin SpellsPart itself depth reader.old reader.new result }
{
    let name = reader.name(alloc)?;
    no_arguments(reader, depth)?;
    Ok(name)
}

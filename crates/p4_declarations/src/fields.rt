//! The fields of headers and of the metadata, and the headers of a packet.

ghost use Rattle.spelling.specs.Readers.{ClosesNext, Reads, ReadsInBlock, ReadsWithin, ReadsWordsUpTo, itself};
ghost use Rattle.p4_declarations.specs.Flat.{SpellsEndedName, SpellsHeaderField};
ghost use Rattle.p4_declarations.specs.Flat.{SpellsHeaderFields, SpellsMember, SpellsMembers};
ghost use Rattle.p4_declarations.specs.Flat.{SpellsMetaField, SpellsMetaFields};

use elastic_ast::Field;
use elx_bits::{Items, Name};
use p4_expr::{bits, index};
use spelling::{Parsed, Reader, until_closed};
use std::alloc::Global;

/// Reads the fields of the metadata, and stops at the closing bracket.
pub fn meta_fields(alloc: Global, reader: &mut Reader<'_>, depth: u32) -> Parsed<Items<Field>>
    ensures { ReadsInBlock SpellsMetaFields depth reader.old reader.new result }
{
    until_closed(alloc, reader, |reader| meta_field(alloc, reader, depth))
}

/// `bit<WIDTH> NAME;` or `bit<WIDTH>[SIZE] NAME;`
fn meta_field(alloc: Global, reader: &mut Reader<'_>, depth: u32) -> Parsed<Field>
    ensures { ReadsWithin SpellsMetaField itself depth reader.old reader.new result }
{
    let width = bits(reader)?;
    let size = index(alloc, reader, depth)?;
    let name = ended_name(alloc, reader)?;
    Ok(Field { name, width, size })
}

/// Reads the fields of a header, and stops at the closing bracket.
pub fn header_fields(alloc: Global, reader: &mut Reader<'_>) -> Parsed<Items<Field>>
    ensures { ReadsWordsUpTo ClosesNext SpellsHeaderFields itself reader.old reader.new result }
{
    until_closed(alloc, reader, |reader| header_field(alloc, reader))
}

/// `bit<WIDTH> NAME;`
fn header_field(alloc: Global, reader: &mut Reader<'_>) -> Parsed<Field>
    ensures { Reads SpellsHeaderField itself reader.old reader.new result }
{
    let width = bits(reader)?;
    let name = ended_name(alloc, reader)?;
    Ok(Field {
        name,
        width,
        size: None,
    })
}

/// Reads the headers of a packet, and stops at the closing bracket.
pub fn members(alloc: Global, reader: &mut Reader<'_>) -> Parsed<Items<(Name, Name)>>
    ensures { ReadsWordsUpTo ClosesNext SpellsMembers itself reader.old reader.new result }
{
    until_closed(alloc, reader, |reader| member(alloc, reader))
}

/// `HEADER NAME;`
fn member(alloc: Global, reader: &mut Reader<'_>) -> Parsed<(Name, Name)>
    ensures { Reads SpellsMember itself reader.old reader.new result }
{
    let header = reader.name(alloc)?;
    let name = ended_name(alloc, reader)?;
    Ok((header, name))
}

/// `NAME;`
pub fn ended_name(alloc: Global, reader: &mut Reader<'_>) -> Parsed<Name>
    ensures { Reads SpellsEndedName itself reader.old reader.new result }
{
    let name = reader.name(alloc)?;
    reader.sign(b";")?;
    Ok(name)
}

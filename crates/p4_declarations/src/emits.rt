//! The deparser.

ghost use Rattle.spelling.specs.Readers.{ClosesNext, InCurly, Many, itself, Reads, ReadsWithin};
ghost use Rattle.spelling.specs.Readers.{ReadsUpTo};
ghost use Rattle.p4_declarations.specs.Flat.{SpellsEmit};
ghost use Rattle.p4_declarations.specs.Made.{SpellsEmitBlock, SpellsParameterList, ReadsFlat};
ghost use Rattle.p4_declarations.specs.Made.{a_deparser};
ghost use Rattle.p4_declarations.specs.Flat.{SpellsDeparserParameters};

use crate::packets::{of_packet, packet_parameters};
use elastic_ast::Decl;
use elx_bits::{Items, Name};
use spelling::{Brackets, Parsed, Reader, until_closed};
use std::alloc::Global;

/// `control NAME(packet_out pkt, in headers_t hdr) { apply { EMITS } }`
pub fn deparser(alloc: Global, reader: &mut Reader<'_>, depth: u32) -> Parsed<Decl>
    ensures { ReadsFlat a_deparser depth reader.old reader.new result }
{
    reader.reserved(b"control")?;
    let name = reader.name(alloc)?;
    parameters(reader, depth)?;
    let emits = body(alloc, reader, depth)?;
    Ok(Decl::Deparser { name, emits })
}

/// `(packet_out pkt, in headers_t hdr)`
fn parameters(reader: &mut Reader<'_>, depth: u32) -> Parsed<()>
    ensures { ReadsWithin SpellsParameterList itself depth reader.old reader.new result }
{
    Brackets::Round(depth).around(
        reader,
        |reader, _inner|
            ensures { Reads (λ _. SpellsDeparserParameters) itself reader.old reader.new result }
        { packet_parameters(reader, b"packet_out", b"in") },
    )
}

/// `{ apply { EMITS } }`
fn body(alloc: Global, reader: &mut Reader<'_>, depth: u32) -> Parsed<Items<Name>>
    ensures { ReadsWithin (InCurly SpellsEmitBlock) itself depth reader.old reader.new result }
{
    Brackets::Curly(depth).around(reader, |reader, inner| apply(alloc, reader, inner))
}

/// `apply { EMITS }`
fn apply(alloc: Global, reader: &mut Reader<'_>, depth: u32) -> Parsed<Items<Name>>
    ensures { ReadsWithin SpellsEmitBlock itself depth reader.old reader.new result }
{
    reader.fixed_name(b"apply")?;
    emit_block(alloc, reader, depth)
}

/// `{ EMITS }`
fn emit_block(alloc: Global, reader: &mut Reader<'_>, depth: u32) -> Parsed<Items<Name>>
    ensures { ReadsWithin (InCurly (Many SpellsEmit)) itself depth reader.old reader.new result }
{
    Brackets::Curly(depth).around(reader, |reader, inner| emits(alloc, reader, inner))
}

/// Reads the headers that are emitted, and stops at the closing bracket.
fn emits(alloc: Global, reader: &mut Reader<'_>, depth: u32) -> Parsed<Items<Name>>
    ensures { ReadsUpTo ClosesNext (Many SpellsEmit) itself depth reader.old reader.new result }
{
    until_closed(alloc, reader, |reader| emit(alloc, reader, depth))
}

/// `pkt.emit(hdr.HEADER);`
fn emit(alloc: Global, reader: &mut Reader<'_>, depth: u32) -> Parsed<Name>
    ensures { ReadsWithin SpellsEmit itself depth reader.old reader.new result }
{
    of_packet(alloc, reader, depth, b"emit")
}

//! What parsers and deparsers say of a packet.

ghost use Rattle.spelling.specs.Readers.{InRound, itself, ReadsWithin};
ghost use Rattle.p4_expr.specs.Parts.{SpellsHeader};
ghost use Rattle.p4_declarations.specs.Flat.{SpellsOfPacket};
ghost use Rattle.p4_declarations.specs.Made.{ReadsParameters};

use elx_bits::Name;
use p4_expr::header;
use spelling::{Brackets, Parsed, Reader, then_sign};
use std::alloc::Global;

/// `PACKET pkt, DIRECTION headers_t hdr`, with these two words. NotProgram where something else follows.
pub fn packet_parameters(reader: &mut Reader<'_>, packet: &[u8], direction: &[u8]) -> Parsed<()>
    ensures { ReadsParameters packet.now direction.now reader.old reader.new result }
{
    reader.fixed_name(packet)?;
    reader.fixed_name(b"pkt")?;
    reader.sign(b",")?;
    reader.reserved(direction)?;
    reader.fixed_name(b"headers_t")?;
    reader.fixed_name(b"hdr")?;
    Ok(())
}

/// `pkt.WORD(hdr.HEADER);`, with this word: the name of the header. `depth` is how many brackets may be open from here on.
pub fn of_packet(alloc: Global, reader: &mut Reader<'_>, depth: u32, word: &[u8]) -> Parsed<Name>
    ensures { ReadsWithin (SpellsOfPacket word.now) itself depth reader.old reader.new result }
{
    reader.fixed_name(b"pkt")?;
    reader.sign(b".")?;
    reader.fixed_name(word)?;
    then_sign(
        reader,
        b";",
        |reader| header_in_brackets(alloc, reader, depth),
    )
}

/// `(hdr.HEADER)`
fn header_in_brackets(alloc: Global, reader: &mut Reader<'_>, depth: u32) -> Parsed<Name>
    ensures { ReadsWithin (InRound (λ _. SpellsHeader)) itself depth reader.old reader.new result }
{
    Brackets::Round(depth).around(reader, |reader, _| header(alloc, reader))
}

//! Headers, the headers of a packet, and the metadata.

ghost use Rattle.elastic_ast.specs.Tree.{PlainDecl};
ghost use Rattle.spelling.specs.Readers.{InCurly, ReadsWithin, itself};
ghost use Rattle.p4_declarations.specs.Flat.{SpellsHeaderFields};
ghost use Rattle.p4_declarations.specs.Made.{FlatOf, ReadsFlat, a_header, a_struct};

use crate::fields::{header_fields, members, meta_fields};
use elastic_ast::{Decl, Field};
use elx_bits::{Items, Name};
use spelling::{Brackets, Parsed, Reader};
use std::alloc::Global;

/// `header NAME { FIELDS }`
pub fn header(alloc: Global, reader: &mut Reader<'_>, depth: u32) -> Parsed<Decl>
    ensures { ReadsFlat a_header depth reader.old reader.new result }
{
    reader.reserved(b"header")?;
    let name = reader.name(alloc)?;
    let fields = header_body(alloc, reader, depth)?;
    Ok(Decl::Header { name, fields })
}

/// `{ FIELDS }` of a header
fn header_body(alloc: Global, reader: &mut Reader<'_>, depth: u32) -> Parsed<Items<Field>>
    ensures { ReadsWithin (InCurly (λ _. SpellsHeaderFields)) itself depth reader.old reader.new result }
{
    Brackets::Curly(depth).around(reader, |reader, _| header_fields(alloc, reader))
}

/// A structure: `struct headers_t { HEADERS }` or `struct meta_t { FIELDS }`
pub fn structure(alloc: Global, reader: &mut Reader<'_>, depth: u32) -> Parsed<Decl>
    ensures { ReadsFlat a_struct depth reader.old reader.new result }
{
    if reader.later(1).is_at_name(b"meta_t") {
        return meta(alloc, reader, depth).map(Decl::Meta);
    }
    headers(alloc, reader, depth).map(Decl::Headers)
}

/// `struct headers_t { HEADERS }`
fn headers(alloc: Global, reader: &mut Reader<'_>, depth: u32) -> Parsed<Items<(Name, Name)>>
    ensures { ReadsWithin (FlatOf PlainDecl.Headers) itself depth reader.old reader.new result }
{
    reader.reserved(b"struct")?;
    reader.fixed_name(b"headers_t")?;
    Brackets::Curly(depth).around(reader, |reader, _| members(alloc, reader))
}

/// `struct meta_t { FIELDS }`
fn meta(alloc: Global, reader: &mut Reader<'_>, depth: u32) -> Parsed<Items<Field>>
    ensures { ReadsWithin (FlatOf PlainDecl.Meta) itself depth reader.old reader.new result }
{
    reader.reserved(b"struct")?;
    reader.fixed_name(b"meta_t")?;
    Brackets::Curly(depth).around(reader, |reader, inner| meta_fields(alloc, reader, inner))
}

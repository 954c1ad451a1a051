ghost use Rattle.std.specs.Prelude.{ℕ};
ghost use Rattle.elastic_ast.specs.Seen.{seen_decl};
ghost use Rattle.elastic_ast.specs.Tree.{PlainDecl};
ghost use Rattle.spelling.specs.Readers.{ReadsWithin};
ghost use Rattle.p4_declarations.specs.Flat.{SpellsFlat};
ghost use Rattle.p4_declarations.specs.Made.{ReadsFlat};

use crate::emits::deparser;
use crate::package::package;
use crate::stored::{constant, register};
use crate::structs::{header, structure};
use crate::symbols::{assume, maximize, symbol};
use elastic_ast::Decl;
use spelling::{Parsed, Reader};
use std::alloc::Global;

/// Reads one declaration that has no expression in it: any but a parser and a control that is no deparser. `depth` is how
/// many brackets may be open from here on.
///
/// NotProgram names the token at which the reading stopped: no such declaration goes on with it. TooDeep names a token that
/// opens more than `depth` brackets. Memory comes only for want of memory.
pub fn flat(alloc: Global, reader: &mut Reader<'_>, depth: u32) -> Parsed<Decl>
    ensures { ReadsWithin SpellsFlat seen_decl depth reader.old reader.new result }
{
    if reader.is_at_reserved(b"symbolic") {
        symbol(alloc, reader)
    } else if reader.is_at_name(b"assume") {
        assume(alloc, reader, depth)
    } else if reader.is_at_name(b"maximize") {
        maximize(alloc, reader, depth)
    } else if reader.is_at_reserved(b"const") {
        constant(alloc, reader)
    } else if reader.is_at_reserved(b"header") {
        header(alloc, reader, depth)
    } else if reader.is_at_reserved(b"struct") {
        structure(alloc, reader, depth)
    } else if reader.is_at_name(b"Register") {
        register(alloc, reader, depth)
    } else if reader.is_at_reserved(b"control") {
        deparser(alloc, reader, depth)
    } else if reader.is_at_name(b"Pisa") {
        package(alloc, reader, depth)
    } else {
        include(reader)
    }
}

/// An include.
fn include(reader: &mut Reader<'_>) -> Parsed<Decl>
    ensures { (depth : ℕ) → ReadsFlat PlainDecl.Include depth reader.old reader.new result }
{
    let file = reader.include()?;
    Ok(Decl::Include(file))
}

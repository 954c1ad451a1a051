//! A whole table.

ghost use Rattle.std.specs.Prelude.{◌≡◌, ◌≢◌, ◌↔◌, false, All, map};
ghost use Rattle.elastic_ast.specs.Seen.{seen_table};
ghost use Rattle.spelling.specs.Readers.{ClosesNext, InCurly, ReadsUpTo, ReadsWithin};
ghost use Rattle.p4_tables.specs.Reading.{ReadsOther, SpellsProperties};
ghost use Rattle.p4_tables.specs.Seen.{seen_part, seen_parts};
ghost use Rattle.p4_tables.specs.Tables.{SpellsTable, kind_of, table_with, with_property};

use crate::properties::{Kind, Part, kind_ahead, property};
use elastic_ast::Table;
use elx_bits::{Items, Name};
use spelling::{Brackets, Parsed, Reader, keep};
use std::alloc::Global;

/// Reads a table: `table NAME { PROPERTIES }`, its properties in any order, no two of one kind. `depth` is how many brackets
/// may be open from here on. NotProgram names the token that doesn't go on what stands before it: the first of a second
/// property of a kind is such a one. TooDeep names a bracket that `depth` doesn't allow.
pub fn table(alloc: Global, reader: &mut Reader<'_>, depth: u32) -> Parsed<Table>
    ensures { ReadsWithin SpellsTable seen_table depth reader.old reader.new result }
{
    reader.reserved(b"table")?;
    let name = reader.name(alloc)?;
    let parts = property_block(alloc, reader, depth)?;
    Ok(table_of(alloc, name, parts))
}

/// `{ PROPERTIES }`
fn property_block(alloc: Global, reader: &mut Reader<'_>, depth: u32) -> Parsed<Items<Part>>
    ensures { ReadsWithin (InCurly SpellsProperties) seen_parts depth reader.old reader.new result }
{
    Brackets::Curly(depth).around(reader, |reader, inner| properties(alloc, reader, inner))
}

/// Reads properties up to the closing bracket, no two of one kind.
fn properties(alloc: Global, reader: &mut Reader<'_>, depth: u32) -> Parsed<Items<Part>>
    ensures { ReadsUpTo ClosesNext SpellsProperties seen_parts depth reader.old reader.new result }
{
    let mut parts = Items::new(alloc);
    'parts: while !reader.is_at_sign(b"}") {
        let part = other_property(alloc, reader, depth, parts.as_slice())?;
        keep(&mut parts, part)?;
    }
    Ok(parts)
}

/// Reads a property of another kind than those that there are.
fn other_property(
    alloc: Global,
    reader: &mut Reader<'_>,
    depth: u32,
    parts: &[Part],
) -> Parsed<Part>
    ensures { ReadsOther parts.now depth reader.old reader.new result }
{
    let kind = kind_ahead(reader)?;
    if is_there(parts, kind) {
        return Err(reader.refusal());
    }
    property(alloc, reader, depth, kind)
}

/// Whether one of the properties is of this kind.
fn is_there(parts: &[Part], kind: Kind) -> bool
    ensures { result ≡ false ↔ All (λ one. kind_of one ≢ kind) (map seen_part parts.now) }
{
    for part in parts {
        if part.kind() == kind {
            return true;
        }
    }
    false
}

/// The table of this name with these properties.
fn table_of(alloc: Global, name: Name, parts: Items<Part>) -> Table
    ensures { seen_table result ≡ table_with name (map seen_part parts) }
{
    let mut table = Table {
        name,
        keys: Items::new(alloc),
        actions: Items::new(alloc),
        entries: Items::new(alloc),
        fallback: None,
        size: None,
    };
    let mut left = parts.into_vec();
    'left: while let Some(part) = left.pop() {
        table = table_and(table, part);
    }
    table
}

/// The table to which a property is added.
fn table_and(table: Table, part: Part) -> Table
    ensures { seen_table result ≡ with_property (seen_part part) (seen_table table) }
{
    match part {
        Part::Keys(keys) => Table { keys, ..table },
        Part::Actions(actions) => Table { actions, ..table },
        Part::Fallback { action, args } => Table {
            fallback: Some((action, args)),
            ..table
        },
        Part::Size(size) => Table {
            size: Some(size),
            ..table
        },
        Part::Entries(entries) => Table { entries, ..table },
    }
}

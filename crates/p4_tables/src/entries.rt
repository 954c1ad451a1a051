//! The keys, the actions and the entries of a table.

ghost use Rattle.elastic_ast.specs.Seen.{seen_entry};
ghost use Rattle.spelling.specs.Readers.{ClosesNext, Many, Reads, ReadsUpTo, ReadsWithin, ReadsWordsUpTo, itself};
ghost use Rattle.p4_tables.specs.Seen.{seen_call, seen_entries};
ghost use Rattle.p4_tables.specs.Tables.{SpellsActionCall, SpellsActionName, SpellsActionNames, SpellsEntries, SpellsEntry, SpellsKey, SpellsMatch};

use crate::sets::{sets, values};
use elastic_ast::{Entry, Expr, Key};
use elx_bits::{Items, Name};
use p4_expr::lval;
use spelling::{Parsed, Reader, then_sign, until_closed};
use std::alloc::Global;

/// Reads keys up to the closing bracket. `depth` is how many brackets may be open from here on.
pub fn keys(alloc: Global, reader: &mut Reader<'_>, depth: u32) -> Parsed<Items<Key>>
    ensures { ReadsUpTo ClosesNext (Many SpellsKey) itself depth reader.old reader.new result }
{
    until_closed(alloc, reader, |reader| key(alloc, reader, depth))
}

/// Reads names, each with a semicolon, up to the closing bracket.
pub fn names(alloc: Global, reader: &mut Reader<'_>) -> Parsed<Items<Name>>
    ensures { ReadsWordsUpTo ClosesNext SpellsActionNames itself reader.old reader.new result }
{
    until_closed(alloc, reader, |reader| action_name(alloc, reader))
}

/// Reads entries up to the closing bracket. `depth` is how many brackets may be open from here on.
pub fn entries(alloc: Global, reader: &mut Reader<'_>, depth: u32) -> Parsed<Items<Entry>>
    ensures { ReadsUpTo ClosesNext SpellsEntries seen_entries depth reader.old reader.new result }
{
    until_closed(alloc, reader, |reader| entry(alloc, reader, depth))
}

/// `ACTION(VALUES);`
pub fn action_call(
    alloc: Global,
    reader: &mut Reader<'_>,
    depth: u32,
) -> Parsed<(Name, Items<Expr>)>
    ensures { ReadsWithin SpellsActionCall seen_call depth reader.old reader.new result }
{
    let action = reader.name(alloc)?;
    let args = then_sign(reader, b";", |reader| values(alloc, reader, depth))?;
    Ok((action, args))
}

/// `ACTION;`
fn action_name(alloc: Global, reader: &mut Reader<'_>) -> Parsed<Name>
    ensures { Reads SpellsActionName itself reader.old reader.new result }
{
    let name = reader.name(alloc)?;
    reader.sign(b";")?;
    Ok(name)
}

/// `SETS: ACTION(VALUES);`
fn entry(alloc: Global, reader: &mut Reader<'_>, depth: u32) -> Parsed<Entry>
    ensures { ReadsWithin SpellsEntry seen_entry depth reader.old reader.new result }
{
    let keys = then_sign(reader, b":", |reader| sets(alloc, reader, depth))?;
    let (action, args) = action_call(alloc, reader, depth)?;
    Ok(Entry { keys, action, args })
}

/// `PLACE: exact;` or `PLACE: ternary;`
fn key(alloc: Global, reader: &mut Reader<'_>, depth: u32) -> Parsed<Key>
    ensures { ReadsWithin SpellsKey itself depth reader.old reader.new result }
{
    let field = then_sign(reader, b":", |reader| lval(alloc, reader, depth))?;
    let ternary = then_sign(reader, b";", |reader| is_ternary(reader))?;
    Ok(Key { field, ternary })
}

/// Reads how a key matches: whether it is ternary.
fn is_ternary(reader: &mut Reader<'_>) -> Parsed<bool>
    ensures { Reads SpellsMatch itself reader.old reader.new result }
{
    if reader.is_at_name(b"ternary") {
        reader.fixed_name(b"ternary")?;
        return Ok(true);
    }
    reader.fixed_name(b"exact")?;
    Ok(false)
}

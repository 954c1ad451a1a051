//! Values, and sets of what a key may be.

ghost use Rattle.elastic_ast.specs.Seen.{seen_expr, seen_exprs, seen_keyset};
ghost use Rattle.spelling.specs.Readers.{EndsRound, Reads, ReadsBefore, ReadsWithin, ReadsWithinBefore, ReadsWordsUpTo};
ghost use Rattle.p4_tables.specs.Seen.{seen_sets};
ghost use Rattle.p4_tables.specs.GoesOn.{EndsSet, EndsSetList};
ghost use Rattle.p4_tables.specs.Tables.{SpellsOneSet, SpellsSet, SpellsSetList, SpellsSets, SpellsValue, SpellsValueList, SpellsValues};

use elastic_ast::{Expr, Keyset};
use elx_bits::Items;
use p4_expr::number;
use spelling::{Brackets, Parsed, Reader, commas, keep, separated};
use std::alloc::Global;

/// Reads a set of a key: a value, a value with a mask, or `_` for any. NotProgram where none follows, or no value behind the
/// sign of a mask.
pub fn set(alloc: Global, reader: &mut Reader<'_>) -> Parsed<Keyset>
    ensures { ReadsBefore EndsSet SpellsSet seen_keyset reader.old reader.new result }
{
    if reader.is_at_reserved(b"_") {
        reader.reserved(b"_")?;
        return Ok(Keyset::Any);
    }
    let first = value(alloc, reader)?;
    if !reader.eat_sign(b"&&&") {
        return Ok(Keyset::One(first));
    }
    let mask = value(alloc, reader)?;
    Ok(Keyset::Masked { value: first, mask })
}

/// Reads a set alone, or several in brackets. `depth` is how many brackets may be open from here on.
pub fn sets(alloc: Global, reader: &mut Reader<'_>, depth: u32) -> Parsed<Items<Keyset>>
    ensures { ReadsWithinBefore EndsSet SpellsSets seen_sets depth reader.old reader.new result }
{
    if !reader.is_at_sign(b"(") {
        return one_set(alloc, reader);
    }
    Brackets::Round(depth).around(reader, |reader, _| set_list(alloc, reader))
}

/// Reads values in brackets, with commas between them. `depth` is how many brackets may be open from here on.
pub fn values(alloc: Global, reader: &mut Reader<'_>, depth: u32) -> Parsed<Items<Expr>>
    ensures { ReadsWithin SpellsValues seen_exprs depth reader.old reader.new result }
{
    Brackets::Round(depth).around(reader, |reader, _| value_list(alloc, reader))
}

/// Reads a set, as the list of it.
fn one_set(alloc: Global, reader: &mut Reader<'_>) -> Parsed<Items<Keyset>>
    ensures { ReadsBefore EndsSet SpellsOneSet seen_sets reader.old reader.new result }
{
    let mut sets = Items::new(alloc);
    let set = set(alloc, reader)?;
    keep(&mut sets, set)?;
    Ok(sets)
}

/// Reads sets with commas between them, at least one.
fn set_list(alloc: Global, reader: &mut Reader<'_>) -> Parsed<Items<Keyset>>
    ensures { ReadsBefore EndsSetList SpellsSetList seen_sets reader.old reader.new result }
{
    separated(alloc, reader, b",", |reader| set(alloc, reader))
}

/// Reads values with commas between them, perhaps none, up to the closing bracket.
fn value_list(alloc: Global, reader: &mut Reader<'_>) -> Parsed<Items<Expr>>
    ensures { ReadsWordsUpTo EndsRound SpellsValueList seen_exprs reader.old reader.new result }
{
    commas(alloc, reader, |reader| value(alloc, reader))
}

/// Reads a value: a number or a name.
fn value(alloc: Global, reader: &mut Reader<'_>) -> Parsed<Expr>
    ensures { Reads SpellsValue seen_expr reader.old reader.new result }
{
    if !reader.is_at_number() {
        let name = reader.name(alloc)?;
        return Ok(Expr::Named(name));
    }
    let (width, value) = number(reader)?;
    Ok(Expr::Num { width, value })
}

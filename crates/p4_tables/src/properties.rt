//! The properties of a table.

ghost use Rattle.std.specs.Prelude.{◌≡◌, IfErr};
ghost use Rattle.spelling.specs.Reading.{ahead};
ghost use Rattle.spelling.specs.Bounds.{IsNeverDeep};
ghost use Rattle.spelling.specs.Readers.{Reads, ReadsWithin, ReadsWordsUpTo, itself};
ghost use Rattle.p4_tables.specs.Reading.{DefaultsNext, IsKindAhead, ReadsOfKind};
ghost use Rattle.p4_tables.specs.Seen.{seen_call, seen_entries, seen_part};
ghost use Rattle.p4_tables.specs.Tables.{SpellsActions, SpellsConstEntries, SpellsFallback, SpellsKeys, PerhapsConst, SpellsSize, kind_of};

use crate::entries::{action_call, entries, keys, names};
use elastic_ast::{Entry, Expr, Key};
use elx_bits::{Items, Name};
use spelling::{Brackets, Parsed, Reader};
use std::alloc::Global;

/// What one property of a table says.
#[derive(Drop)]
pub enum Part {
    Keys(Items<Key>),
    Actions(Items<Name>),
    Fallback { action: Name, args: Items<Expr> },
    Size(u32),
    Entries(Items<Entry>),
}

/// The kinds of properties, of each of which a table has one at most.
#[derive(Clone, Copy, Debug, PartialEq, Eq)]
pub enum Kind {
    Keys,
    Actions,
    Fallback,
    Size,
    Entries,
}

impl Part {
    /// The kind of the property.
    pub fn kind(&self) -> Kind
        ensures { result ≡ kind_of (seen_part self.now) }
    {
        match self {
            Part::Keys(_) => Kind::Keys,
            Part::Actions(_) => Kind::Actions,
            Part::Fallback { .. } => Kind::Fallback,
            Part::Size(_) => Kind::Size,
            Part::Entries(_) => Kind::Entries,
        }
    }
}

/// The kind of the property that begins at the next token. NotProgram where none begins there: it names that token, or the one
/// behind it where that doesn't go on `const`.
pub fn kind_ahead(reader: &Reader<'_>) -> Parsed<Kind>
    ensures only { IsKindAhead (ahead reader.now) result }
    ensures shallow { IfErr result IsNeverDeep }
{
    if reader.is_at_name(b"key") {
        return Ok(Kind::Keys);
    }
    if reader.is_at_name(b"actions") {
        return Ok(Kind::Actions);
    }
    if reader.is_at_name(b"default_action") {
        return Ok(Kind::Fallback);
    }
    if reader.is_at_name(b"size") {
        return Ok(Kind::Size);
    }
    if !reader.is_at_reserved(b"const") {
        return Err(reader.refusal());
    }
    let behind = reader.later(1);
    if behind.is_at_name(b"default_action") {
        return Ok(Kind::Fallback);
    }
    if behind.is_at_name(b"entries") {
        return Ok(Kind::Entries);
    }
    Err(behind.refusal())
}

/// Reads the property of this kind. `depth` is how many brackets may be open from here on.
pub fn property(alloc: Global, reader: &mut Reader<'_>, depth: u32, kind: Kind) -> Parsed<Part>
    ensures { ReadsOfKind kind depth reader.old reader.new result }
{
    match kind {
        Kind::Keys => Ok(Part::Keys(key_block(alloc, reader, depth)?)),
        Kind::Actions => Ok(Part::Actions(action_block(alloc, reader, depth)?)),
        Kind::Fallback => {
            let (action, args) = fallback(alloc, reader, depth)?;
            Ok(Part::Fallback { action, args })
        }
        Kind::Size => Ok(Part::Size(size(reader)?)),
        Kind::Entries => Ok(Part::Entries(entry_block(alloc, reader, depth)?)),
    }
}

/// `key = { KEYS }`
fn key_block(alloc: Global, reader: &mut Reader<'_>, depth: u32) -> Parsed<Items<Key>>
    ensures { ReadsWithin SpellsKeys itself depth reader.old reader.new result }
{
    reader.fixed_name(b"key")?;
    reader.sign(b"=")?;
    Brackets::Curly(depth).around(reader, |reader, inner| keys(alloc, reader, inner))
}

/// `actions = { NAMES }`
fn action_block(alloc: Global, reader: &mut Reader<'_>, depth: u32) -> Parsed<Items<Name>>
    ensures { ReadsWithin SpellsActions itself depth reader.old reader.new result }
{
    reader.fixed_name(b"actions")?;
    reader.sign(b"=")?;
    Brackets::Curly(depth).around(reader, |reader, _| names(alloc, reader))
}

/// `default_action = ACTION(VALUES);`, with `const` before it or without.
fn fallback(alloc: Global, reader: &mut Reader<'_>, depth: u32) -> Parsed<(Name, Items<Expr>)>
    ensures { ReadsWithin SpellsFallback seen_call depth reader.old reader.new result }
{
    const_before(reader)?;
    reader.fixed_name(b"default_action")?;
    reader.sign(b"=")?;
    action_call(alloc, reader, depth)
}

/// `size = NUMBER;`
fn size(reader: &mut Reader<'_>) -> Parsed<u32>
    ensures { Reads SpellsSize itself reader.old reader.new result }
{
    reader.fixed_name(b"size")?;
    reader.sign(b"=")?;
    let size = reader.number(u128::from(u32::MAX))? as u32;
    reader.sign(b";")?;
    Ok(size)
}

/// `const entries = { ENTRIES }`
fn entry_block(alloc: Global, reader: &mut Reader<'_>, depth: u32) -> Parsed<Items<Entry>>
    ensures { ReadsWithin SpellsConstEntries seen_entries depth reader.old reader.new result }
{
    reader.reserved(b"const")?;
    reader.fixed_name(b"entries")?;
    reader.sign(b"=")?;
    Brackets::Curly(depth).around(reader, |reader, inner| entries(alloc, reader, inner))
}

/// Goes over `const`, where it is there.
fn const_before(reader: &mut Reader<'_>) -> Parsed<()>
    ensures { ReadsWordsUpTo DefaultsNext PerhapsConst itself reader.old reader.new result }
{
    if !reader.is_at_reserved(b"const") {
        return Ok(());
    }
    reader.reserved(b"const")
}

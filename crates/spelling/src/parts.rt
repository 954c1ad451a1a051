ghost use Rattle.std.specs.Prelude.{◌↔◌, IsTrue};
ghost use Rattle.spelling.specs.Grammar.{Begins};
ghost use Rattle.spelling.specs.Reading.{ahead};
ghost use Rattle.spelling.specs.Readers.{ClosesNext, GoesOn, InCommas, InSeries, IsEndWord, ThenSign, Until};

use crate::collecting::keep;
use crate::error::Parsed;
use crate::reader::Reader;
use elx_bits::Items;
use std::alloc::Global;

/// What a list of parts goes up to: this sign, or this reserved word.
#[derive(Clone, Copy)]
pub enum End<'a> {
    Sign(&'a [u8]),
    Reserved(&'a [u8]),
}

impl End<'_> {
    /// Whether the next token is it.
    fn is_next(self, reader: &Reader<'_>) -> bool
        ensures { IsTrue result ↔ Begins (IsEndWord self.entry) (ahead reader.now) }
    {
        match self {
            End::Sign(sign) => reader.is_at_sign(sign),
            End::Reserved(text) => reader.is_at_reserved(text),
        }
    }
}

/// Reads one part after the other, and stops at the closing bracket of the block.
pub fn until_closed<T: Drop, F: Fn(&mut Reader<'_>) -> Parsed<T>>(
    alloc: Global,
    reader: &mut Reader<'_>,
    part: F,
) -> Parsed<Items<T>>
    requires { F.IsAlwaysCallable part × GoesOn (F.post part) }
    ensures { Until ClosesNext (F.post part) reader.old reader.new result }
{
    until(alloc, reader, End::Sign(b"}"), part)
}

/// Reads one part after the other, and stops at this end.
pub fn until<T: Drop, F: Fn(&mut Reader<'_>) -> Parsed<T>>(
    alloc: Global,
    reader: &mut Reader<'_>,
    end: End<'_>,
    part: F,
) -> Parsed<Items<T>>
    requires { F.IsAlwaysCallable part × GoesOn (F.post part) }
    ensures { Until (Begins (IsEndWord end.entry)) (F.post part) reader.old reader.new result }
{
    let mut items = Items::new(alloc);
    'items: while !end.is_next(reader) {
        let item = part(reader)?;
        keep(&mut items, item)?;
    }
    Ok(items)
}

/// Reads a part, and this sign behind it.
pub fn then_sign<T: Drop, F: FnOnce(&mut Reader<'_>) -> Parsed<T>>(
    reader: &mut Reader<'_>,
    sign: &[u8],
    part: F,
) -> Parsed<T>
    requires { F.IsAlwaysCallable part }
    ensures { ThenSign sign.now (F.post part) reader.old reader.new result }
{
    let read = part(reader)?;
    reader.sign(sign)?;
    Ok(read)
}

/// Reads a part, and one more behind this sign as long as it stands next.
pub fn separated<T: Drop, F: Fn(&mut Reader<'_>) -> Parsed<T>>(
    alloc: Global,
    reader: &mut Reader<'_>,
    sign: &[u8],
    part: F,
) -> Parsed<Items<T>>
    requires { F.IsAlwaysCallable part × GoesOn (F.post part) }
    ensures { InSeries sign.now (F.post part) reader.old reader.new result }
{
    let mut items = Items::new(alloc);
    let first = part(reader)?;
    keep(&mut items, first)?;
    'items: while reader.eat_sign(sign) {
        let item = part(reader)?;
        keep(&mut items, item)?;
    }
    Ok(items)
}

/// Reads parts with a comma between each two, perhaps none, up to the closing bracket.
pub fn commas<T: Drop, F: Fn(&mut Reader<'_>) -> Parsed<T>>(
    alloc: Global,
    reader: &mut Reader<'_>,
    part: F,
) -> Parsed<Items<T>>
    requires { F.IsAlwaysCallable part × GoesOn (F.post part) }
    ensures { InCommas (F.post part) reader.old reader.new result }
{
    if reader.is_at_sign(b")") {
        return Ok(Items::new(alloc));
    }
    separated(alloc, reader, b",", part)
}

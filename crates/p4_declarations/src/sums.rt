//! Sums of terms, and comparisons of sums.

ghost use Rattle.std.specs.Prelude.{◌≡◌, None};
ghost use Rattle.spelling.specs.Readers.{itself, Reads, ReadsBefore};
ghost use Rattle.p4_declarations.specs.GoesOn.{EndsProduct, EndsSum, EndsComparison};
ghost use Rattle.p4_declarations.specs.Sums.{SpellsComparisons, SpellsComparison, SpellsRelation};
ghost use Rattle.p4_declarations.specs.Sums.{SpellsSum, SpellsTerm, TakesSign, ReadsSign};

use elastic_ast::{Comp, LinTerm, Rel};
use elx_bits::Items;
use spelling::{Parsed, Reader, keep, separated};
use std::alloc::Global;

/// Reads comparisons with `&&` between them.
pub fn comparisons(alloc: Global, reader: &mut Reader<'_>) -> Parsed<Items<Comp>>
    ensures { ReadsBefore EndsComparison SpellsComparisons itself reader.old reader.new result }
{
    separated(alloc, reader, b"&&", |reader| comparison(alloc, reader))
}

/// Reads two sums with a relation between them.
fn comparison(alloc: Global, reader: &mut Reader<'_>) -> Parsed<Comp>
    ensures { ReadsBefore EndsSum SpellsComparison itself reader.old reader.new result }
{
    let left = sum(alloc, reader)?;
    let rel = relation(reader)?;
    let right = sum(alloc, reader)?;
    Ok(Comp { left, rel, right })
}

/// Reads the terms of a sum, each but the first with its sign.
fn sum(alloc: Global, reader: &mut Reader<'_>) -> Parsed<Items<LinTerm>>
    ensures { ReadsBefore EndsSum SpellsSum itself reader.old reader.new result }
{
    let mut terms = Items::new(alloc);
    let first = term(alloc, reader, false)?;
    keep(&mut terms, first)?;
    'terms: while let Some(minus) = sign(reader) {
        let term = term(alloc, reader, minus)?;
        keep(&mut terms, term)?;
    }
    Ok(terms)
}

/// Reads what follows the sign of a term: a number, a name, or a number of times a name.
pub fn term(alloc: Global, reader: &mut Reader<'_>, minus: bool) -> Parsed<LinTerm>
    ensures { ReadsBefore EndsProduct (SpellsTerm minus) itself reader.old reader.new result }
{
    if !reader.is_at_number() {
        let symbol = Some(reader.name(alloc)?);
        return Ok(LinTerm {
            minus,
            by: 1,
            symbol,
        });
    }
    let by = reader.number(u128::from(u64::MAX))? as u64;
    if !reader.eat_sign(b"*") {
        return Ok(LinTerm {
            minus,
            by,
            symbol: None,
        });
    }
    let symbol = Some(reader.name(alloc)?);
    Ok(LinTerm { minus, by, symbol })
}

/// Reads the sign of a term, where one is there: whether it is a minus.
pub fn sign(reader: &mut Reader<'_>) -> Option<bool>
    ensures taken { TakesSign reader.old reader.new result }
    ensures left { result ≡ None → reader.new ≡ reader.old }
    ensures only { ReadsSign reader.old reader.new result }
{
    if reader.eat_sign(b"-") {
        Some(true)
    } else if reader.eat_sign(b"+") {
        Some(false)
    } else {
        None
    }
}

/// Reads a relation.
fn relation(reader: &mut Reader<'_>) -> Parsed<Rel>
    ensures { Reads SpellsRelation itself reader.old reader.new result }
{
    if reader.eat_sign(b"<=") {
        Ok(Rel::Le)
    } else if reader.eat_sign(b"<") {
        Ok(Rel::Lt)
    } else if reader.eat_sign(b">=") {
        Ok(Rel::Ge)
    } else if reader.eat_sign(b">") {
        Ok(Rel::Gt)
    } else if reader.eat_sign(b"==") {
        Ok(Rel::Eq)
    } else {
        Err(reader.refusal())
    }
}

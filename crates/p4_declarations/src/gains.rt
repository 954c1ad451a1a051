//! The terms of the utility: sums of numbers times symbols, and tables of steps over a symbol.

ghost use Rattle.spelling.specs.Grammar.{Named};
ghost use Rattle.spelling.specs.Readers.{ClosesNext, InRound, Reads, ReadsBefore};
ghost use Rattle.spelling.specs.Readers.{ReadsWithin, ReadsWithinBefore, itself};
ghost use Rattle.p4_declarations.specs.Flat.{SpellsGainBehind, SpellsGains, SpellsStep, SpellsStepNumber};
ghost use Rattle.p4_declarations.specs.Made.{ReadsGain, SpellsStepBlock, SpellsStepList, SpellsStepTable};
ghost use Rattle.p4_declarations.specs.GoesOn.{EndsSum};

use crate::sums::{sign, term};
use elastic_ast::UtilTerm;
use elx_bits::{Items, Name};
use spelling::{Brackets, Parsed, Reader, keep, separated};
use std::alloc::Global;

/// Reads the terms of the utility, each but the first with its sign.
pub fn gains(alloc: Global, reader: &mut Reader<'_>, depth: u32) -> Parsed<Items<UtilTerm>>
    ensures { ReadsWithinBefore EndsSum SpellsGains itself depth reader.old reader.new result }
{
    let mut gains = Items::new(alloc);
    let first = gain(alloc, reader, depth, false)?;
    keep(&mut gains, first)?;
    'gains: while let Some(minus) = sign(reader) {
        let gain = gain(alloc, reader, depth, minus)?;
        keep(&mut gains, gain)?;
    }
    Ok(gains)
}

/// Reads what follows the sign of a term.
fn gain(alloc: Global, reader: &mut Reader<'_>, depth: u32, minus: bool) -> Parsed<UtilTerm>
    ensures { ReadsGain (SpellsGainBehind minus) depth reader.old reader.new result }
{
    if reader.is_at_reserved(b"table") {
        let (symbol, pairs) = steps(alloc, reader, depth)?;
        return Ok(UtilTerm::Steps {
            minus,
            symbol,
            pairs,
        });
    }
    let term = term(alloc, reader, minus)?;
    Ok(UtilTerm::Lin(term))
}

/// `table (SYMBOL) { STEPS }`
fn steps(alloc: Global, reader: &mut Reader<'_>, depth: u32) -> Parsed<(Name, Items<(u64, u64)>)>
    ensures { ReadsWithin SpellsStepTable itself depth reader.old reader.new result }
{
    reader.reserved(b"table")?;
    let symbol = steps_symbol(alloc, reader, depth)?;
    let pairs = steps_pairs(alloc, reader, depth)?;
    Ok((symbol, pairs))
}

/// `(SYMBOL)`
fn steps_symbol(alloc: Global, reader: &mut Reader<'_>, depth: u32) -> Parsed<Name>
    ensures { ReadsWithin (InRound (λ _. Named)) itself depth reader.old reader.new result }
{
    Brackets::Round(depth).around(reader, |reader, _| reader.name(alloc))
}

/// `{ STEPS }`
fn steps_pairs(alloc: Global, reader: &mut Reader<'_>, depth: u32) -> Parsed<Items<(u64, u64)>>
    ensures { ReadsWithin SpellsStepBlock itself depth reader.old reader.new result }
{
    Brackets::Curly(depth).around(reader, |reader, _| pairs(alloc, reader))
}

/// Reads steps with commas between them.
fn pairs(alloc: Global, reader: &mut Reader<'_>) -> Parsed<Items<(u64, u64)>>
    ensures { ReadsBefore ClosesNext SpellsStepList itself reader.old reader.new result }
{
    separated(alloc, reader, b",", |reader| pair(reader))
}

/// `KEY: VALUE`
fn pair(reader: &mut Reader<'_>) -> Parsed<(u64, u64)>
    ensures { Reads SpellsStep itself reader.old reader.new result }
{
    let key = number(reader)?;
    reader.sign(b":")?;
    let value = number(reader)?;
    Ok((key, value))
}

/// Reads a number of 64 bits.
fn number(reader: &mut Reader<'_>) -> Parsed<u64>
    ensures { Reads SpellsStepNumber itself reader.old reader.new result }
{
    Ok(reader.number(u128::from(u64::MAX))? as u64)
}

//! Where a state of a parser goes.

ghost use Rattle.elastic_ast.specs.Seen.{seen_case, seen_keyset, seen_next};
ghost use Rattle.spelling.specs.Readers.{ClosesNext, InCurly, Reads, ReadsBefore, ReadsWithin, ReadsWordsUpTo};
ghost use Rattle.p4_tables.specs.GoesOn.{EndsSet};
ghost use Rattle.p4_parser.specs.Declarations.{SpellsCase, CasesIn, SpellsCases, SpellsCaseSet, SpellsNext};
ghost use Rattle.p4_parser.specs.Reading.{NextHasFew, ReadsPart, ReadsSelect, seen_cases};

use elastic_ast::{Keyset, Next};
use elx_bits::{Items, Name};
use p4_statements::bracketed;
use p4_tables::set;
use spelling::{Brackets, Reader, SyntaxError, until_closed};
use std::alloc::Global;

/// Reads where a state goes: `NAME;` or `select (EXPRESSION) { CASES }`. `depth` is how many brackets may be open from here on.
/// NotProgram where something else follows; TooDeep where too many brackets are open or the expression has too many operators;
/// Memory for want of memory.
pub fn next(alloc: Global, reader: &mut Reader<'_>, depth: u32) -> Result<Next, SyntaxError>
    ensures { ReadsPart SpellsNext seen_next NextHasFew 0 depth reader.old reader.new result }
{
    if reader.is_at_reserved(b"select") {
        return select(alloc, reader, depth);
    }
    let state = reader.name(alloc)?;
    reader.sign(b";")?;
    Ok(Next::To(state))
}

/// `select (EXPRESSION) { CASES }`
fn select(alloc: Global, reader: &mut Reader<'_>, depth: u32) -> Result<Next, SyntaxError>
    ensures { ReadsSelect depth reader.old reader.new result }
{
    reader.reserved(b"select")?;
    let of = bracketed(alloc, reader, depth)?;
    let cases = case_block(alloc, reader, depth)?;
    Ok(Next::Select { of, cases })
}

/// `{ CASES }`
fn case_block(
    alloc: Global,
    reader: &mut Reader<'_>,
    depth: u32,
) -> Result<Items<(Keyset, Name)>, SyntaxError>
    ensures { ReadsWithin (InCurly CasesIn) seen_cases depth reader.old reader.new result }
{
    Brackets::Curly(depth).around(reader, |reader, _| cases(alloc, reader))
}

/// Reads cases up to the closing bracket.
fn cases(alloc: Global, reader: &mut Reader<'_>) -> Result<Items<(Keyset, Name)>, SyntaxError>
    ensures { ReadsWordsUpTo ClosesNext SpellsCases seen_cases reader.old reader.new result }
{
    until_closed(alloc, reader, |reader| case(alloc, reader))
}

/// `SET: NAME;`
fn case(alloc: Global, reader: &mut Reader<'_>) -> Result<(Keyset, Name), SyntaxError>
    ensures { Reads SpellsCase seen_case reader.old reader.new result }
{
    let set = case_set(alloc, reader)?;
    reader.sign(b":")?;
    let state = reader.name(alloc)?;
    reader.sign(b";")?;
    Ok((set, state))
}

/// Reads the set of a case, or `default`, which is the set of anything too.
fn case_set(alloc: Global, reader: &mut Reader<'_>) -> Result<Keyset, SyntaxError>
    ensures { ReadsBefore EndsSet SpellsCaseSet seen_keyset reader.old reader.new result }
{
    if reader.is_at_reserved(b"default") {
        reader.reserved(b"default")?;
        return Ok(Keyset::Any);
    }
    set(alloc, reader)
}

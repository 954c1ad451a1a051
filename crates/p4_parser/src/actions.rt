//! Actions.

ghost use Rattle.elastic_ast.specs.Seen.{seen_action, seen_stmts};
ghost use Rattle.spelling.specs.Readers.{EndsRound, Reads, ReadsUpTo, ReadsWithin, ReadsWordsUpTo, itself};
ghost use Rattle.p4_statements.specs.Reading.{HaveFew};
ghost use Rattle.p4_statements.specs.Statements.{SpellsPlains};
ghost use Rattle.p4_parser.specs.Declarations.{SpellsAction, SpellsActionIndex, SpellsIndexName, SpellsParam, SpellsParamList, SpellsParams};
ghost use Rattle.p4_parser.specs.Reading.{ActionHasFew, OpensNextRound, ReadsBlock, ReadsPart};

use elastic_ast::{Action, Param, Stmt};
use elx_bits::{Items, Name};
use p4_expr::bits;
use p4_statements::plain_statements;
use spelling::{Brackets, Reader, SyntaxError, commas};
use std::alloc::Global;

/// Reads `action NAME(PARAMETERS) { STATEMENTS }` or `action NAME[int INDEX](PARAMETERS) { STATEMENTS }`. `depth` is how many
/// brackets may be open from here on.
pub fn action(alloc: Global, reader: &mut Reader<'_>, depth: u32) -> Result<Action, SyntaxError>
    ensures { ReadsPart SpellsAction seen_action ActionHasFew 1 depth reader.old reader.new result }
{
    reader.reserved(b"action")?;
    let name = reader.name(alloc)?;
    let index = action_index(alloc, reader, depth)?;
    let params = params(alloc, reader, depth)?;
    let body = body(alloc, reader, depth)?;
    Ok(Action {
        name,
        index,
        params,
        body,
    })
}

/// `[int INDEX]`, where it is there.
fn action_index(
    alloc: Global,
    reader: &mut Reader<'_>,
    depth: u32,
) -> Result<Option<Name>, SyntaxError>
    ensures { ReadsUpTo OpensNextRound SpellsActionIndex itself depth reader.old reader.new result }
{
    if !reader.is_at_sign(b"[") {
        return Ok(None);
    }
    let name = Brackets::Square(depth).around(reader, |reader, _| index_name(alloc, reader))?;
    Ok(Some(name))
}

/// `int INDEX`
fn index_name(alloc: Global, reader: &mut Reader<'_>) -> Result<Name, SyntaxError>
    ensures { Reads SpellsIndexName itself reader.old reader.new result }
{
    reader.reserved(b"int")?;
    let name = reader.name(alloc)?;
    Ok(name)
}

/// Parameters between brackets, with a comma between each two.
fn params(alloc: Global, reader: &mut Reader<'_>, depth: u32) -> Result<Items<Param>, SyntaxError>
    ensures { ReadsWithin SpellsParams itself depth reader.old reader.new result }
{
    Brackets::Round(depth).around(reader, |reader, _| param_list(alloc, reader))
}

/// Parameters with a comma between each two, perhaps none, up to the closing bracket.
fn param_list(alloc: Global, reader: &mut Reader<'_>) -> Result<Items<Param>, SyntaxError>
    ensures { ReadsWordsUpTo EndsRound SpellsParamList itself reader.old reader.new result }
{
    commas(alloc, reader, |reader| param(alloc, reader))
}

/// `bit<WIDTH> NAME`
fn param(alloc: Global, reader: &mut Reader<'_>) -> Result<Param, SyntaxError>
    ensures { Reads SpellsParam itself reader.old reader.new result }
{
    let width = bits(reader)?;
    let name = reader.name(alloc)?;
    Ok(Param { name, width })
}

/// `{ STATEMENTS }`
fn body(alloc: Global, reader: &mut Reader<'_>, depth: u32) -> Result<Items<Stmt>, SyntaxError>
    ensures { ReadsBlock SpellsPlains seen_stmts HaveFew 1 depth reader.old reader.new result }
{
    Brackets::Curly(depth).around(
        reader,
        |reader, inner| plain_statements(alloc, reader, inner),
    )
}

//! Controls.

ghost use Rattle.std.specs.Prelude.{◌↔◌, IsTrue};
ghost use Rattle.elastic_ast.specs.Seen.{seen_local};
ghost use Rattle.spelling.specs.Reading.{ahead};
ghost use Rattle.p4_parser.specs.Declarations.{SpellsLocal};
ghost use Rattle.p4_parser.specs.Reading.{BeginsLocal, LocalHasFew, ReadsApplyBlock, ReadsContents, ReadsContentParts, ReadsControl, ReadsLocals, ReadsPart};

use crate::actions::action;
use crate::parameters::Owner;
use elastic_ast::{Decl, Local, Stmt};
use elx_bits::Items;
use p4_statements::statements;
use p4_tables::table;
use spelling::{Brackets, Reader, SyntaxError, keep};
use std::alloc::Global;

/// Reads `control NAME (PARAMETERS) { LOCALS apply { STATEMENTS } }`, where it is no deparser. `depth` is how many brackets may
/// be open from here on.
///
/// NotProgram names the token at which the reading stopped: no control goes on with it. TooDeep names the token at which too
/// many brackets are open, or an expression has too many operators. Memory comes only for want of memory.
pub fn control(alloc: Global, reader: &mut Reader<'_>, depth: u32) -> Result<Decl, SyntaxError>
    ensures { ReadsControl depth reader.old reader.new result }
{
    reader.reserved(b"control")?;
    let name = reader.name(alloc)?;
    Owner::Control.parameters(reader, depth)?;
    let (locals, body) = contents(alloc, reader, depth)?;
    Ok(Decl::Control { name, locals, body })
}

/// `{ LOCALS apply { STATEMENTS } }`
fn contents(
    alloc: Global,
    reader: &mut Reader<'_>,
    depth: u32,
) -> Result<(Items<Local>, Items<Stmt>), SyntaxError>
    ensures { ReadsContents depth reader.old reader.new result }
{
    Brackets::Curly(depth).around(reader, |reader, inner| content_parts(alloc, reader, inner))
}

/// `LOCALS apply { STATEMENTS }`
fn content_parts(
    alloc: Global,
    reader: &mut Reader<'_>,
    depth: u32,
) -> Result<(Items<Local>, Items<Stmt>), SyntaxError>
    ensures { ReadsContentParts depth reader.old reader.new result }
{
    let locals = locals(alloc, reader, depth)?;
    let body = apply_block(alloc, reader, depth)?;
    Ok((locals, body))
}

/// Reads actions and tables, and stops where neither begins.
fn locals(alloc: Global, reader: &mut Reader<'_>, depth: u32) -> Result<Items<Local>, SyntaxError>
    ensures { ReadsLocals depth reader.old reader.new result }
{
    let mut locals = Items::new(alloc);
    'locals: while is_at_local(reader) {
        let local = local(alloc, reader, depth)?;
        keep(&mut locals, local)?;
    }
    Ok(locals)
}

/// Whether an action or a table begins next.
fn is_at_local(reader: &Reader<'_>) -> bool
    ensures { IsTrue result ↔ BeginsLocal (ahead reader.now) }
{
    reader.is_at_reserved(b"action") || reader.is_at_reserved(b"table")
}

/// Reads an action or a table.
fn local(alloc: Global, reader: &mut Reader<'_>, depth: u32) -> Result<Local, SyntaxError>
    ensures { ReadsPart SpellsLocal seen_local LocalHasFew 1 depth reader.old reader.new result }
{
    if reader.is_at_reserved(b"action") {
        let action = action(alloc, reader, depth)?;
        return Ok(Local::Action(action));
    }
    let table = table(alloc, reader, depth)?;
    Ok(Local::Table(table))
}

/// `apply { STATEMENTS }`
fn apply_block(
    alloc: Global,
    reader: &mut Reader<'_>,
    depth: u32,
) -> Result<Items<Stmt>, SyntaxError>
    ensures { ReadsApplyBlock depth reader.old reader.new result }
{
    reader.fixed_name(b"apply")?;
    Brackets::Curly(depth).around(reader, |reader, inner| statements(alloc, reader, inner))
}

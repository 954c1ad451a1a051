//! A parser and its states.

ghost use Rattle.elastic_ast.specs.Seen.{seen_state};
ghost use Rattle.spelling.specs.Readers.{itself, ReadsUpTo};
ghost use Rattle.p4_parser.specs.Declarations.{SpellsExtracts, SpellsState, SpellsStateBody, SpellsStates};
ghost use Rattle.p4_parser.specs.Reading.{BodyHasFew, ReadsBlock, ReadsBodyParts, ReadsParser, ReadsBlock, ReadsPart, ReadsParts, StateHasFew, FewInStates, TransitionNext, seen_body, seen_states};

use crate::cases::next;
use crate::parameters::Owner;
use elastic_ast::{Decl, Next, State};
use elx_bits::{Items, Name};
use p4_declarations::of_packet;
use spelling::{Brackets, End, Reader, SyntaxError, until, until_closed};
use std::alloc::Global;

/// Reads `parser NAME (PARAMETERS) { STATES }`. `depth` is how many brackets may be open from here on. NotProgram names the token
/// that doesn't go on what stands before it; TooDeep names one at which too many brackets are open or an expression has too many
/// operators; Memory is want of memory.
pub fn parser(alloc: Global, reader: &mut Reader<'_>, depth: u32) -> Result<Decl, SyntaxError>
    ensures { ReadsParser depth reader.old reader.new result }
{
    reader.reserved(b"parser")?;
    let name = reader.name(alloc)?;
    Owner::Parser.parameters(reader, depth)?;
    let states = state_block(alloc, reader, depth)?;
    Ok(Decl::Parser { name, states })
}

/// `{ STATES }`
fn state_block(
    alloc: Global,
    reader: &mut Reader<'_>,
    depth: u32,
) -> Result<Items<State>, SyntaxError>
    ensures { ReadsBlock SpellsStates seen_states FewInStates 2 depth reader.old reader.new result }
{
    Brackets::Curly(depth).around(reader, |reader, inner| states(alloc, reader, inner))
}

/// Reads states up to the closing bracket.
fn states(alloc: Global, reader: &mut Reader<'_>, depth: u32) -> Result<Items<State>, SyntaxError>
    ensures { ReadsParts SpellsStates seen_states FewInStates 1 depth reader.old reader.new result }
{
    until_closed(alloc, reader, |reader| state(alloc, reader, depth))
}

/// `state NAME { EXTRACTS transition NEXT }`
fn state(alloc: Global, reader: &mut Reader<'_>, depth: u32) -> Result<State, SyntaxError>
    ensures { ReadsPart SpellsState seen_state StateHasFew 1 depth reader.old reader.new result }
{
    reader.reserved(b"state")?;
    let name = reader.name(alloc)?;
    let (extracts, next) = body(alloc, reader, depth)?;
    Ok(State {
        name,
        extracts,
        next,
    })
}

/// `{ EXTRACTS transition NEXT }`
fn body(
    alloc: Global,
    reader: &mut Reader<'_>,
    depth: u32,
) -> Result<(Items<Name>, Next), SyntaxError>
    ensures { ReadsBlock SpellsStateBody seen_body BodyHasFew 1 depth reader.old reader.new result }
{
    Brackets::Curly(depth).around(
        reader,
        |reader, inner|
            ensures { ReadsBodyParts inner reader.old reader.new result }
        { body_parts(alloc, reader, inner) },
    )
}

/// `EXTRACTS transition NEXT`
fn body_parts(
    alloc: Global,
    reader: &mut Reader<'_>,
    depth: u32,
) -> Result<(Items<Name>, Next), SyntaxError>
    ensures { ReadsBodyParts depth reader.old reader.new result }
{
    let extracts = extracts(alloc, reader, depth)?;
    reader.reserved(b"transition")?;
    let next = next(alloc, reader, depth)?;
    Ok((extracts, next))
}

/// Reads extracts up to `transition`.
fn extracts(alloc: Global, reader: &mut Reader<'_>, depth: u32) -> Result<Items<Name>, SyntaxError>
    ensures { ReadsUpTo TransitionNext SpellsExtracts itself depth reader.old reader.new result }
{
    until(
        alloc,
        reader,
        End::Reserved(b"transition"),
        |reader| of_packet(alloc, reader, depth, b"extract"),
    )
}

ghost use Rattle.std.specs.Prelude.{◌↔◌, IsTrue, length, IfErr, IfOk};
ghost use Rattle.elastic_ast.specs.Seen.{seen_program};
ghost use Rattle.spelling.specs.Words.{words};
ghost use Rattle.spelling.specs.Reading.{ahead, NamesAtMost};
ghost use Rattle.p4_parser.specs.Parsing.{AnswersProgram, BeginsControl, PassedBetween, PassedFirst, SpelledIn};
ghost use Rattle.p4_parser.specs.Reading.{ProgramHasFew, ReadsDecl};

use crate::controls::control;
use crate::states::parser;
use elastic_ast::{Decl, Program};
use elx_bits::Items;
use p4_declarations::flat;
use p4_lexer::Token;
use spelling::{Reader, SyntaxError, keep};
use std::alloc::Global;

/// Reads the program that the tokens of a text spell, with at most `most_depth` brackets open at any token and at most 64
/// operators in an expression. Takes the text in bytes, and its tokens as `p4_lexer::lex` gives them. Of brackets `(`, `[` and
/// `{` count, and a branch of an `if` that is no block counts as one; of operators those of `expr`.
///
/// NotProgram says that the tokens spell no program, however many brackets are open, and names the token at which the reading
/// stopped: there it neither goes on nor ends a declaration. TooDeep names a token that opens a bracket where `most_depth` stand
/// open before it, or begins an operator where 64 stand before it in its expression. Memory comes only for want of memory.
pub fn parse(
    alloc: Global,
    text: &[u8],
    tokens: &[Token],
    most_depth: u32,
) -> Result<Program, SyntaxError>
    ensures spelled { SpelledIn most_depth (words text.now tokens.now) result }
    ensures operators { IfOk result (λ program. ProgramHasFew (seen_program program)) }
    ensures only { AnswersProgram most_depth (words text.now tokens.now) result }
    ensures deep { PassedFirst most_depth text.now tokens.now result }
    ensures named { IfErr result (NamesAtMost (length tokens.now)) }
{
    let mut reader = Reader::new(text, tokens);
    match declarations(alloc, &mut reader, most_depth) {
        Ok(program) => Ok(program),
        Err(error) => Err(error.within(tokens.len(), tokens.len().saturating_sub(reader.left()))),
    }
}

/// Reads declarations up to the end of the tokens. A refusal may name a token past it.
fn declarations(alloc: Global, reader: &mut Reader<'_>, depth: u32) -> Result<Program, SyntaxError>
    ensures spelled { SpelledIn depth (ahead reader.old) result }
    ensures operators { IfOk result (λ program. ProgramHasFew (seen_program program)) }
    ensures only { AnswersProgram depth (ahead reader.old) result }
    ensures deep { PassedBetween depth reader.old reader.new result }
{
    let mut decls = Items::new(alloc);
    'decls: while !reader.is_done() {
        let decl = declaration(alloc, reader, depth)?;
        keep(&mut decls, decl)?;
    }
    Ok(Program { decls })
}

/// Reads one declaration, which its first words determine.
fn declaration(alloc: Global, reader: &mut Reader<'_>, depth: u32) -> Result<Decl, SyntaxError>
    ensures { ReadsDecl depth reader.old reader.new result }
{
    if reader.is_at_reserved(b"parser") {
        return parser(alloc, reader, depth);
    }
    if is_at_control(reader) {
        return control(alloc, reader, depth);
    }
    flat(alloc, reader, depth)
}

/// Whether a control stands next that is no deparser: that has no `packet_out` behind its bracket.
fn is_at_control(reader: &Reader<'_>) -> bool
    ensures { IsTrue result ↔ BeginsControl (ahead reader.now) }
{
    reader.is_at_reserved(b"control") && reader.later(3).is_at_reserved(b"inout")
}

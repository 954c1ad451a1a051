//! The reader of expressions.

ghost use Rattle.std.specs.Prelude.{◌+◌, ◌≤◌, IfOk, IfErr, length};
ghost use Rattle.elastic_ast.specs.Seen.{seen_expr};
ghost use Rattle.spelling.specs.Reading.{NamesAtMost};
ghost use Rattle.p4_expr.specs.Operators.{weakest};
ghost use Rattle.p4_expr.specs.Expressions.{HasFewOperators, SpellsLevel};
ghost use Rattle.p4_expr.specs.Expressions.{SpellsPrefixed, SpellsPrimary};
ghost use Rattle.p4_expr.specs.Standing.{EndsBase};
ghost use Rattle.p4_expr.specs.Bases.{SpellsBase, SpellsHash, SpellsInBrackets};
ghost use Rattle.p4_expr.specs.FormsAhead.{ReadsForm};
ghost use Rattle.p4_expr.specs.Readings.{Anything, GoesNoFurtherAt, ReadsAnywhere, ReadsCounted};
ghost use Rattle.p4_expr.specs.Readings.{ReadsExprAt};
ghost use Rattle.p4_expr.specs.Readings.{ReadsLevel, ReadsLongestAt, ReadsWhole, RefusesExprAt};
ghost use Rattle.p4_expr.specs.Readings.{TakesExprAt};

use crate::forms::{Form, form_ahead, is_at_cast, is_at_slice};
use crate::operators::operator;
use crate::parts::{lval, number};
use crate::pieces::{amount_before, binary, bit_range, boxed, cast, hash_end, truth, validity};
use elastic_ast::Expr;
use p4_lexer::Token;
use spelling::{Parsed, Reader};
use std::alloc::Global;

/// The weakest level of operators, which an expression without brackets around it has.
const WEAKEST: u8 = 10;

/// How many operators an expression may have.
const MOST_OPERATORS: u32 = 64;

/// Reads the expression that stands at a token of a text, which is counted from 0, and gives the place behind it: no more
/// tokens from there on spell one, and no operator and no slice stands behind it. Takes the text in bytes, its tokens, and
/// how many brackets may be open at a token.
///
/// NotProgram names the token at which the reading stopped: what stands before it is no expression, and doesn't go on there.
/// TooDeep names a token that opens a bracket where `most_depth` stand open before it, or begins an operator where as many
/// stand before it as may. Memory comes only for want of memory.
pub fn expr(
    alloc: Global,
    text: &[u8],
    tokens: &[Token],
    at: usize,
    most_depth: u32,
) -> Parsed<(Expr, usize)>
    ensures taken { TakesExprAt most_depth text.now tokens.now at result }
    ensures few { IfOk result (λ r. HasFewOperators (seen_expr r.0)) }
    ensures within { IfOk result (λ r. r.1 ≤ length tokens.now) }
    ensures only { ReadsExprAt most_depth text.now tokens.now at result }
    ensures longest { ReadsLongestAt text.now tokens.now at result }
    ensures whole { IfOk result (λ r. GoesNoFurtherAt weakest text.now tokens.now r.1) }
    ensures deep { RefusesExprAt most_depth text.now tokens.now at result }
    ensures named { IfErr result (NamesAtMost (length tokens.now)) }
{
    let mut reader = Reader::from(text, tokens, at);
    match read_expr(alloc, &mut reader, most_depth) {
        Ok(e) => Ok((e, tokens.len() - reader.left())),
        Err(error) => Err(error.within(tokens.len(), tokens.len().saturating_sub(reader.left()))),
    }
}

/// Reads the longest expression that stands next, up to where no operator stands and no slice. `depth` is how many brackets
/// may be open from here on.
pub fn read_expr(alloc: Global, reader: &mut Reader<'_>, depth: u32) -> Parsed<Expr>
    ensures { ReadsWhole depth reader.old reader.new result }
{
    let (e, _) = level(alloc, reader, depth, MOST_OPERATORS, WEAKEST)?;
    Ok(e)
}

/// Reads an expression of a level, with at most `left` operators, and gives how many of these it leaves.
#[cycle(expressions)]
fn level(
    alloc: Global,
    reader: &mut Reader<'_>,
    depth: u32,
    left: u32,
    level: u8,
) -> Parsed<(Expr, u32)>
    ensures { ReadsLevel level (λ n. SpellsLevel n level) depth left reader.old reader.new result }
{
    if level == 0 {
        return prefixed(alloc, reader, depth, left);
    }
    let (mut e, mut left) = self::level(alloc, reader, depth, left, level - 1)?;
    'operators: loop {
        let mut behind = reader.later(0);
        let Some(op) = operator(&mut behind, level) else {
            return Ok((e, left));
        };
        if left == 0 {
            return Err(reader.too_deep());
        }
        *reader = behind;
        let (right, fewer) = self::level(alloc, reader, depth, left - 1, level - 1)?;
        e = binary(alloc, op, e, right)?;
        left = fewer;
    }
}

/// Reads an expression of level 0: a primary one, with the prefixes and casts before it.
#[cycle(expressions)]
fn prefixed(alloc: Global, reader: &mut Reader<'_>, depth: u32, left: u32) -> Parsed<(Expr, u32)>
    ensures { ReadsLevel 0 SpellsPrefixed depth left reader.old reader.new result }
{
    let mut behind = reader.later(0);
    if let Some(op) = operator(&mut behind, 0) {
        if left == 0 {
            return Err(reader.too_deep());
        }
        *reader = behind;
        let (of, fewer) = prefixed(alloc, reader, depth, left - 1)?;
        let operand = boxed(alloc, of)?;
        return Ok((Expr::Unary { op, of: operand }, fewer));
    }
    if !is_at_cast(reader) {
        return primary(alloc, reader, depth, left);
    }
    if left == 0 {
        return Err(reader.too_deep());
    }
    let width = cast(reader, depth)?;
    let (of, fewer) = prefixed(alloc, reader, depth, left - 1)?;
    let operand = boxed(alloc, of)?;
    Ok((Expr::Cast { width, of: operand }, fewer))
}

/// Reads a primary expression, with the slices behind it.
#[cycle(expressions)]
fn primary(alloc: Global, reader: &mut Reader<'_>, depth: u32, left: u32) -> Parsed<(Expr, u32)>
    ensures { ReadsLevel 0 SpellsPrimary depth left reader.old reader.new result }
{
    let (mut e, mut left) = base(alloc, reader, depth, left)?;
    'slices: while is_at_slice(reader) {
        if left == 0 {
            return Err(reader.too_deep());
        }
        let (high, low) = bit_range(reader, depth)?;
        let of = boxed(alloc, e)?;
        e = Expr::Slice { of, high, low };
        left -= 1;
    }
    Ok((e, left))
}

/// Reads a primary expression without the slices behind it.
#[cycle(expressions)]
fn base(alloc: Global, reader: &mut Reader<'_>, depth: u32, left: u32) -> Parsed<(Expr, u32)>
    ensures { ReadsCounted EndsBase Anything SpellsBase depth left reader.old reader.new result }
{
    match form_ahead(reader) {
        Form::Bracketed => in_brackets(alloc, reader, depth, left),
        Form::Hash if left == 0 => Err(reader.too_deep()),
        Form::Hash => hash_of(alloc, reader, depth, left - 1),
        form => plain(alloc, reader, depth, left, form),
    }
}

/// `(EXPRESSION)`
#[cycle(expressions)]
fn in_brackets(alloc: Global, reader: &mut Reader<'_>, depth: u32, left: u32) -> Parsed<(Expr, u32)>
    ensures { ReadsAnywhere SpellsInBrackets depth left reader.old reader.new result }
{
    let inner = reader.open(b"(", depth)?;
    let (e, fewer) = level(alloc, reader, inner, left, WEAKEST)?;
    reader.sign(b")")?;
    Ok((e, fewer))
}

/// `hash(NUMBER, EXPRESSION, MODULUS)`, with at most `left` operators in the expression
#[cycle(expressions)]
fn hash_of(alloc: Global, reader: &mut Reader<'_>, depth: u32, left: u32) -> Parsed<(Expr, u32)>
    ensures { ReadsAnywhere SpellsHash depth (left + 1) reader.old reader.new result }
{
    reader.fixed_name(b"hash")?;
    let inner = reader.open(b"(", depth)?;
    let number = amount_before(alloc, reader, b",")?;
    let (of, fewer) = level(alloc, reader, inner, left, WEAKEST)?;
    let modulus = hash_end(alloc, reader)?;
    let operand = boxed(alloc, of)?;
    let e = Expr::Hash {
        k: number,
        of: operand,
        modulus,
    };
    Ok((e, fewer))
}

/// Reads a primary expression that has no other in it, by its form.
fn plain(
    alloc: Global,
    reader: &mut Reader<'_>,
    depth: u32,
    left: u32,
    form: Form,
) -> Parsed<(Expr, u32)>
    ensures { ReadsForm form depth left reader.old reader.new result }
{
    match form {
        Form::Number => {
            let (width, value) = number(reader)?;
            Ok((Expr::Num { width, value }, left))
        }
        Form::Truth => {
            let which = truth(reader)?;
            Ok((Expr::Bool(which), left))
        }
        Form::Name => {
            let name = reader.name(alloc)?;
            Ok((Expr::Named(name), left))
        }
        Form::Place => {
            let place = lval(alloc, reader, depth)?;
            Ok((Expr::Field(place), left))
        }
        Form::Validity => test_of(alloc, reader, depth, left),
        _ => Err(reader.refusal()),
    }
}

/// The test of a header, which is an operator.
fn test_of(alloc: Global, reader: &mut Reader<'_>, depth: u32, left: u32) -> Parsed<(Expr, u32)>
    ensures { ReadsForm Form.Validity depth left reader.old reader.new result }
{
    if left == 0 {
        return Err(reader.too_deep());
    }
    let header = validity(alloc, reader, depth)?;
    Ok((Expr::IsValid(header), left - 1))
}

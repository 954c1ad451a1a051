//! Texts and their trees, written with each operator before its operands.

ghost use Rattle.std.specs.Prelude.{◌<◌};

use elastic_ast::Expr;
use p4_expr::expr;
use p4_lexer::lex;
use spelling::SyntaxError;
use std::alloc::{AllocError, Global};
use std::test::Fail;

/// The expression that a text begins with, and how many tokens it has.
fn read(alloc: Global, text: &[u8], most_depth: u32) -> Result<(Expr, usize), SyntaxError> {
    if text.len() > 16_777_216 {
        return Err(SyntaxError::Memory);
    }
    match lex(alloc, text) {
        Ok(tokens) => expr(alloc, text, tokens.as_slice(), 0, most_depth),
        Err(_) => Err(SyntaxError::Memory),
    }
}

/// Writes a tree: names as they are, and a number or an operator's code as a letter, counted from A.
fn write(to: &mut Vec<u8>, e: &Expr) -> Result<(), AllocError> {
    match e {
        Expr::Num { value, .. } => put(to, b'#', (value % 26) as u8),
        Expr::Bool(which) => put(to, b'?', u8::from(*which)),
        Expr::Named(name) => to.extend_from_slice(name.as_slice()),
        Expr::Field(_) => to.extend_from_slice(b"."),
        Expr::IsValid(name) => to.extend_from_slice(name.as_slice()),
        Expr::Unary { op, of } => {
            put(to, b'(', (op % 26) as u8)?;
            write(to, of)?;
            to.extend_from_slice(b")")
        }
        Expr::Binary { op, left, right } => {
            put(to, b'(', (op % 26) as u8)?;
            write(to, left)?;
            to.extend_from_slice(b" ")?;
            write(to, right)?;
            to.extend_from_slice(b")")
        }
        Expr::Cast { width, of } => {
            put(to, b'c', width % 26)?;
            write(to, of)
        }
        Expr::Slice { of, high, low } => {
            put(to, b's', high % 26)?;
            put(to, b's', low % 26)?;
            write(to, of)
        }
        Expr::Hash { of, .. } => {
            to.extend_from_slice(b"h")?;
            write(to, of)
        }
    }
}

/// A sign and a letter.
fn put(to: &mut Vec<u8>, sign: u8, letter: u8) -> Result<(), AllocError>
    requires { letter < 26 }
{
    to.extend_from_slice(&[sign, b'A' + letter])
}

fn written(alloc: Global, text: &[u8]) -> Result<Vec<u8>, Fail> {
    let (e, _) = read(alloc, text, 80)?;
    let mut to = Vec::new(alloc);
    write(&mut to, &e)?;
    Ok(to)
}

#[test]
fn operators_group_by_their_levels(rt: HostRuntime) -> Result<(), Fail> {
    let cases: [(&[u8], &[u8]); 12] = [
        (b"a - b - c", b"(O(Oa b) c)"),
        (b"a + b * c", b"(Na (Qb c))"),
        (b"a >> 2", b"(Ma #C)"),
        (b"~x[3:0]", b"(RsDsAx)"),
        (b"h[7:4][1:0]", b"sBsAsHsEh"),
        (b"(bit<8>) x + 1", b"(NcIx #B)"),
        (b"hash(i, x, 7) & 3", b"(Khx #D)"),
        (b"hdr.h.isValid() && meta.x[i] == 1", b"(Bh (C. #B))"),
        (b"a || !b && c", b"(Aa (B(Sb) c))"),
        (b"meta.x[7:0] ++ hdr.h.f", b"(PsHsA. .)"),
        (b"(a <= b) != true", b"(D(Fa b) ?B)"),
        (b"hdr | hash ^ meta", b"(Ihdr (Jhash meta))"),
    ];
    for (text, tree) in &cases {
        let to = written(rt.alloc(), text)?;
        assert_eq!(rt; to.as_slice(), *tree);
    }
    Ok(())
}

#[test]
fn what_is_no_expression_is_refused_where_reading_stops(rt: HostRuntime) -> Result<(), Fail> {
    let cases: [(&[u8], u32); 6] = [
        (b"a > > 2", 2),
        (b"x[7 4]", 3),
        (b"", 0),
        (b"a + ;", 2),
        (b"(a", 2),
        (b"hash(i, x)", 5),
    ];
    for (text, token) in &cases {
        let result = read(rt.alloc(), text, 80);
        assert!(rt; matches!(result, Err(SyntaxError::NotProgram { token: at }) if at == *token));
    }
    Ok(())
}

fn repeated(alloc: Global, byte: u8, count: usize) -> Result<Vec<u8>, AllocError> {
    let mut text = Vec::new(alloc);
    for _ in 0..count {
        text.push(byte)?;
    }
    text.push(b'a')?;
    Ok(text)
}

#[test]
fn too_many_operators_and_brackets_are_refused(rt: HostRuntime) -> Result<(), Fail> {
    let few = repeated(rt.alloc(), b'~', 64)?;
    assert!(rt; matches!(read(rt.alloc(), few.as_slice(), 0), Ok((_, 65))));
    let many = repeated(rt.alloc(), b'~', 65)?;
    assert!(rt;
        matches!(
            read(rt.alloc(), many.as_slice(), 0),
            Err(SyntaxError::TooDeep { token: 64 })
        )
    );
    let open = repeated(rt.alloc(), b'(', 1_000_000)?;
    assert!(rt;
        matches!(
            read(rt.alloc(), open.as_slice(), 80),
            Err(SyntaxError::TooDeep { token: 80 })
        )
    );
    Ok(())
}

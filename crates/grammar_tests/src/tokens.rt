//! Tokens of texts, and the tables of words and signs.

use case_table::distinct;
use elx_bits::Items;
use operator_table::OPERATORS;
use p4_lexer::{Kind, LexError, RESERVED, SIGNS, Token, lex};
use std::alloc::Global;

fn tokens_of(alloc: Global, text: &str) -> Result<Items<Token>, LexError> {
    if text.len() > 1000 {
        Err(LexError::Memory)
    } else {
        lex(alloc, text.as_bytes())
    }
}

fn end_of(text: &str) -> u32 {
    if text.len() > 1000 {
        0
    } else {
        text.len() as u32
    }
}

fn token(kind: Kind, at: u32, end: u32) -> Token {
    Token { kind, at, end }
}

fn reserved(code: u16, at: u32, end: u32) -> Token {
    token(Kind::Reserved(code), at, end)
}

fn sign(code: u16, at: u32, end: u32) -> Token {
    token(Kind::Sign(code), at, end)
}

fn name(at: u32, end: u32) -> Token {
    token(Kind::Name, at, end)
}

fn number(width: Option<u8>, value: u128, at: u32, end: u32) -> Token {
    token(Kind::Number { width, value }, at, end)
}

#[test]
fn reads_a_declaration(rt: HostRuntime) {
    let want = [
        reserved(2, 0, 5),
        reserved(1, 6, 9),
        sign(6, 9, 10),
        number(None, 8, 10, 11),
        sign(7, 11, 12),
        name(13, 14),
        sign(12, 15, 16),
        number(Some(8), 31, 17, 23),
        sign(8, 23, 24),
    ];
    match tokens_of(rt.alloc(), "const bit<8> a = 8w0x1F;") {
        Ok(tokens) => assert_eq!(rt; tokens.as_slice(), &want[..]),
        Err(error) => assert!(rt; false, "{error}"),
    }
}

#[test]
fn reads_each_reserved_word_and_each_sign(rt: HostRuntime) {
    for row in &RESERVED {
        let want = [reserved(row.code, 0, end_of(row.word))];
        match tokens_of(rt.alloc(), row.word) {
            Ok(tokens) => assert_eq!(rt; tokens.as_slice(), &want[..]),
            Err(error) => assert!(rt; false, "{error}"),
        }
    }
    for row in &SIGNS {
        let want = [sign(row.code, 0, end_of(row.word))];
        match tokens_of(rt.alloc(), row.word) {
            Ok(tokens) => assert_eq!(rt; tokens.as_slice(), &want[..]),
            Err(error) => assert!(rt; false, "{error}"),
        }
    }
}

#[test]
fn takes_the_longest_piece(rt: HostRuntime) {
    let cases = [
        ("&&&&", sign(29, 0, 3), sign(16, 3, 4)),
        ("<<=", sign(28, 0, 2), sign(12, 2, 3)),
        (">>", sign(7, 0, 1), sign(7, 1, 2)),
        ("+++", sign(21, 0, 2), sign(13, 2, 3)),
        ("!==", sign(23, 0, 2), sign(12, 2, 3)),
        ("|||", sign(27, 0, 2), sign(17, 2, 3)),
        ("_ _a", reserved(22, 0, 1), name(2, 4)),
        ("a1_B constx", name(0, 4), name(5, 11)),
        ("bit<", reserved(1, 0, 3), sign(6, 3, 4)),
        (
            "#include \t <pisa.p4>x",
            token(Kind::Include(1), 0, 20),
            name(20, 21),
        ),
        (
            "#include <core.p4>\n#include <core.p4>",
            token(Kind::Include(0), 0, 18),
            token(Kind::Include(0), 19, 37),
        ),
    ];
    for (text, first, second) in cases {
        match tokens_of(rt.alloc(), text) {
            Ok(tokens) => assert_eq!(rt; tokens.as_slice(), &[first, second][..], "{text}"),
            Err(error) => assert!(rt; false, "{text}: {error}"),
        }
    }
}

#[test]
fn skips_spaces_and_comments(rt: HostRuntime) {
    let cases = [
        ("a//b\rc\nd", name(0, 1), name(7, 8)),
        ("a/**/b", name(0, 1), name(5, 6)),
        ("a/* * / */b//", name(0, 1), name(10, 11)),
        ("/***/a /*/ */b", name(5, 6), name(13, 14)),
        (" \t\r\na/*//*/b // x", name(4, 5), name(11, 12)),
    ];
    for (text, first, second) in cases {
        match tokens_of(rt.alloc(), text) {
            Ok(tokens) => assert_eq!(rt; tokens.as_slice(), &[first, second][..], "{text}"),
            Err(error) => assert!(rt; false, "{text}: {error}"),
        }
    }
    for text in ["", " \t\r\n", "//", "/**/", "// a\n/* b\n */ // c"] {
        match tokens_of(rt.alloc(), text) {
            Ok(tokens) => assert_eq!(rt; tokens.as_slice().len(), 0, "{text}"),
            Err(error) => assert!(rt; false, "{text}: {error}"),
        }
    }
}

#[test]
fn reads_numbers(rt: HostRuntime) {
    let cases = [
        ("0", None, 0),
        ("1_000", None, 1000),
        ("0_1_", None, 1),
        ("0x1_f", None, 31),
        ("0XAb", None, 171),
        ("0o17", None, 15),
        ("0O7", None, 7),
        ("0b101", None, 5),
        ("0B1_", None, 1),
        ("1w3", Some(1), 3),
        ("128w0", Some(128), 0),
        ("008w0b11", Some(8), 3),
        ("9w1__0", Some(9), 10),
        ("340282366920938463463374607431768211455", None, u128::MAX),
        (
            "128w0xffffffffffffffffffffffffffffffff",
            Some(128),
            u128::MAX,
        ),
    ];
    for (text, width, value) in cases {
        let want = [number(width, value, 0, end_of(text))];
        match tokens_of(rt.alloc(), text) {
            Ok(tokens) => assert_eq!(rt; tokens.as_slice(), &want[..], "{text}"),
            Err(error) => assert!(rt; false, "{text}: {error}"),
        }
    }
}

#[test]
fn names_the_place_of_a_bad_number(rt: HostRuntime) {
    let cases = [
        ("const bit<8> a = 129w1;", 17),
        ("0x", 0),
        (" 0x_1", 1),
        ("1_2w5", 0),
        ("0w1", 0),
        ("129w1", 0),
        ("18446744073709551617w1", 0),
        ("12ab", 0),
        ("8w", 0),
        ("8w_1", 0),
        ("1W1", 0),
        ("8w8w1", 0),
        ("w+0b2", 2),
        ("0o8", 0),
        ("0xg", 0),
        ("1w0x $", 0),
        ("340282366920938463463374607431768211456", 0),
        ("8w0x100000000000000000000000000000000", 0),
    ];
    for (text, at) in cases {
        assert_eq!(rt;
            tokens_of(rt.alloc(), text).err(),
            Some(LexError::BadNumber { at }),
            "{text}"
        );
    }
}

#[test]
fn names_the_place_of_a_bad_byte_and_of_an_open_comment(rt: HostRuntime) {
    let bad_bytes = [
        ("a $", 2),
        ("/", 0),
        ("a/b", 1),
        ("$ 0x", 0),
        ("1 /* $ */ $", 10),
        ("// $\n$ /*", 5),
        ("a\u{b}", 1),
        ("é", 0),
        ("a\"", 1),
        ("#include", 0),
        ("#include<core.p4>", 0),
        ("#include <core.p4", 0),
        ("#include <std.p4>", 0),
        ("a #include \n<core.p4>", 2),
        ("#", 0),
    ];
    for (text, at) in bad_bytes {
        assert_eq!(rt;
            tokens_of(rt.alloc(), text).err(),
            Some(LexError::BadByte { at }),
            "{text}"
        );
    }
    for (text, at) in [("/*", 0), ("/*/", 0), ("a /* $ 0x", 2), ("// /*\n/* *", 6)] {
        assert_eq!(rt;
            tokens_of(rt.alloc(), text).err(),
            Some(LexError::OpenComment { at }),
            "{text}"
        );
    }
}

#[test]
fn no_word_and_no_code_stands_twice(rt: HostRuntime) {
    assert!(rt; distinct(&RESERVED));
    assert!(rt; distinct(&SIGNS));
    assert!(rt; distinct(&OPERATORS));
}

#[test]
fn a_code_is_the_place_in_the_table(rt: HostRuntime) {
    for (place, row) in RESERVED.iter().enumerate() {
        assert_eq!(rt; usize::from(row.code), place);
    }
    for (place, row) in SIGNS.iter().enumerate() {
        assert_eq!(rt; usize::from(row.code), place);
    }
    for (place, row) in OPERATORS.iter().enumerate() {
        assert_eq!(rt; usize::from(row.code), place);
    }
}

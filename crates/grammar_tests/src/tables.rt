//! Tables and sets, read from texts.

use elastic_ast::{Keyset, Table};
use p4_lexer::lex;
use p4_tables::{set, table};
use spelling::{Reader, SyntaxError};
use std::alloc::Global;
use std::test::Fail;

fn table_of(alloc: Global, text: &[u8], depth: u32) -> Result<Table, SyntaxError> {
    if text.len() > 1000 {
        return Err(SyntaxError::Memory);
    }
    let Ok(tokens) = lex(alloc, text) else {
        return Err(SyntaxError::Memory);
    };
    table(alloc, &mut Reader::new(text, tokens.as_slice()), depth)
}

fn set_of(alloc: Global, text: &[u8]) -> Result<Keyset, SyntaxError> {
    if text.len() > 1000 {
        return Err(SyntaxError::Memory);
    }
    let Ok(tokens) = lex(alloc, text) else {
        return Err(SyntaxError::Memory);
    };
    set(alloc, &mut Reader::new(text, tokens.as_slice()))
}

/// How many keys, actions and entries, how many values of the default action, and the size.
fn counts(table: &Table) -> (usize, usize, usize, Option<usize>, Option<u32>) {
    let values = match &table.fallback {
        Some((_, args)) => Some(args.as_slice().len()),
        None => None,
    };
    (
        table.keys.as_slice().len(),
        table.actions.as_slice().len(),
        table.entries.as_slice().len(),
        values,
        table.size,
    )
}

#[test]
fn a_table_of_each_property_is_read(rt: HostRuntime) -> Result<(), Fail> {
    let text =
        b"table t { key = { hdr.ip.src : exact; meta.x[i] : ternary; } actions = { a; b; } const default_action = a(7, n); size = 16; const entries = { (1, 8w2 &&& 3) : a(7, 8); _ : b(); } }";
    let table = table_of(rt.alloc(), text, 3)?;
    assert_eq!(rt; counts(&table), (2, 2, 2, Some(2), Some(16)));
    Ok(())
}

#[test]
fn properties_stand_in_any_order_and_may_be_absent(rt: HostRuntime) -> Result<(), Fail> {
    let cases: [(&[u8], (usize, usize, usize, Option<usize>, Option<u32>)); 4] = [
        (b"table t { }", (0, 0, 0, None, None)),
        (
            b"table t { size = 4294967295; default_action = a(); actions = { a; } }",
            (0, 1, 0, Some(0), Some(4294967295)),
        ),
        (
            b"table t { const entries = { x : a(n, m); (x, _) : b(); } size = 0; }",
            (0, 0, 2, None, Some(0)),
        ),
        (
            b"table t { const default_action = a(n, m, n); const entries = { x &&& y : a(); } }",
            (0, 0, 1, Some(3), None),
        ),
    ];
    for (text, want) in cases {
        let table = table_of(rt.alloc(), text, 3)?;
        assert_eq!(rt; counts(&table), want);
    }
    Ok(())
}

#[test]
fn tokens_that_spell_no_table_are_refused_where_reading_stops(rt: HostRuntime) {
    let cases: [(&[u8], u32); 8] = [
        (b"table t { _ }", 3),
        (b"table t { size = 1; size = 1; }", 7),
        (b"table t { actions = { } size = 4294967296; }", 9),
        (b"table t { const size = 1; }", 4),
        (
            b"table t { default_action = a(); const default_action = a(); }",
            9,
        ),
        (b"table t { const entries = { () : a(); } }", 8),
        (b"table t { const entries = { (x) : a(n,); } }", 15),
        (b"table t { size = 1;", 7),
    ];
    for (text, token) in cases {
        let refusal = table_of(rt.alloc(), text, 9).err();
        assert_eq!(rt; refusal, Some(SyntaxError::NotProgram { token }));
    }
}

#[test]
fn a_bracket_past_the_depth_is_named(rt: HostRuntime) {
    for (depth, token) in [(0, 2), (1, 6), (2, 10)] {
        let refusal = table_of(
            rt.alloc(),
            b"table t { const entries = { x : a(); } }",
            depth,
        )
        .err();
        assert_eq!(rt; refusal, Some(SyntaxError::TooDeep { token }));
    }
}

#[test]
fn a_set_is_a_value_a_value_with_a_mask_or_any(rt: HostRuntime) -> Result<(), Fail> {
    assert!(rt; matches!(set_of(rt.alloc(), b"_")?, Keyset::Any));
    assert!(rt; matches!(set_of(rt.alloc(), b"x")?, Keyset::One(_)));
    assert!(rt; matches!(set_of(rt.alloc(), b"x &&& y")?, Keyset::Masked { .. }));
    Ok(())
}

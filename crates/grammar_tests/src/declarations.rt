//! Each form of declaration, read from a text.

use elastic_ast::{Amount, Decl, UtilTerm};
use elx_bits::Name;
use p4_declarations::flat;
use p4_lexer::lex;
use spelling::{Reader, SyntaxError};
use std::alloc::Global;
use std::test::Fail;

fn read(alloc: Global, text: &str, depth: u32) -> Result<Decl, SyntaxError> {
    if text.len() > 1000 {
        return Err(SyntaxError::Memory);
    }
    let Ok(tokens) = lex(alloc, text.as_bytes()) else {
        return Err(SyntaxError::Memory);
    };
    flat(
        alloc,
        &mut Reader::new(text.as_bytes(), tokens.as_slice()),
        depth,
    )
}

/// The place of a declaration's form among the forms.
fn form(decl: &Decl) -> u8 {
    match decl {
        Decl::Include(_) => 0,
        Decl::Symbol(_) => 1,
        Decl::Assume(_) => 2,
        Decl::Maximize(_) => 3,
        Decl::Const { .. } => 4,
        Decl::Header { .. } => 5,
        Decl::Headers(_) => 6,
        Decl::Meta(_) => 7,
        Decl::Register { .. } => 8,
        Decl::Deparser { .. } => 9,
        Decl::Main { .. } => 10,
        _ => 11,
    }
}

fn is(name: &Name, text: &[u8]) -> bool {
    name.as_slice() == text
}

#[test]
fn each_form_is_read_at_its_depth(rt: HostRuntime) -> Result<(), Fail> {
    let cases = [
        (0, "#include <core.p4>", 0),
        (1, "symbolic int rows;", 0),
        (2, "assume(rows >= 1 && 2 * rows + 1 < cols);", 1),
        (3, "maximize(10 * rows - table(cols) { 1: 5, 2: 7 });", 2),
        (4, "const bit<8> a = 8w31;", 0),
        (4, "const bit<8> a = 31;", 0),
        (5, "header h { bit<255> a; bit<1> b; }", 1),
        (6, "struct headers_t { h a; h b; }", 1),
        (7, "struct meta_t { bit<16>[rows] a; bit<8> b; }", 2),
        (8, "Register<bit<32>>(1024) counts;", 1),
        (8, "Register<bit<32>>(cols)[rows] counts;", 1),
        (
            9,
            "control d(packet_out pkt, in headers_t hdr) { apply { pkt.emit(hdr.a); } }",
            3,
        ),
        (10, "Pisa(p(), c(), d()) main;", 2),
    ];
    for (want, text, depth) in cases {
        let decl = read(rt.alloc(), text, depth)?;
        assert_eq!(rt; form(&decl), want, "{text}");
        if depth > 0 {
            let refusal = read(rt.alloc(), text, depth - 1).err();
            assert!(rt;
                matches!(refusal, Some(SyntaxError::TooDeep { .. })),
                "{text}"
            );
        }
    }
    Ok(())
}

#[test]
fn a_table_of_steps_keeps_its_sign_and_its_steps(rt: HostRuntime) -> Result<(), Fail> {
    let text = "maximize(rows - table(cols) { 1: 5, 2: 18446744073709551615 });";
    let Decl::Maximize(terms) = read(rt.alloc(), text, 2)? else {
        assert!(rt; false, "no utility");
        return Ok(());
    };
    let [
        UtilTerm::Lin(_),
        UtilTerm::Steps {
            minus,
            symbol,
            pairs,
        },
    ] = terms.as_slice()
    else {
        assert!(rt; false, "other terms");
        return Ok(());
    };
    assert!(rt; *minus && is(symbol, b"cols"));
    assert_eq!(rt;
        pairs.as_slice(),
        &[(1, 5), (2, 18_446_744_073_709_551_615)][..]
    );
    Ok(())
}

#[test]
fn a_register_has_its_cells_and_its_size(rt: HostRuntime) -> Result<(), Fail> {
    let decl = read(rt.alloc(), "Register<bit<32>>(1024)[rows] counts;", 1)?;
    let Decl::Register {
        name,
        width,
        cells: Amount::Num(cells),
        size: Some(size),
    } = &decl
    else {
        assert!(rt; false, "no array of registers");
        return Ok(());
    };
    assert!(rt; is(name, b"counts") && is(size, b"rows"));
    assert_eq!(rt; (*width, *cells), (32, 1024));
    Ok(())
}

#[test]
fn the_package_names_its_parts_in_order(rt: HostRuntime) -> Result<(), Fail> {
    let decl = read(rt.alloc(), "Pisa(p(), c(), d()) main;", 2)?;
    let Decl::Main {
        parser,
        control,
        deparser,
    } = &decl
    else {
        assert!(rt; false, "no package");
        return Ok(());
    };
    assert!(rt; is(parser, b"p") && is(control, b"c") && is(deparser, b"d"));
    Ok(())
}

#[test]
fn what_no_declaration_goes_on_with_is_named(rt: HostRuntime) -> Result<(), Fail> {
    let cases = [
        ("rows;", 0),
        ("symbolic int 7;", 2),
        ("maximize(- rows);", 2),
        ("maximize(table(cols) { });", 7),
        ("maximize(table(cols) { 1: 18446744073709551616 });", 9),
        ("const bit<8> a = 9w31;", 7),
        ("struct other_t { h a; }", 1),
        ("header h { bit<8>[rows] a; }", 7),
        ("control c(inout headers_t hdr) { apply { } }", 3),
    ];
    for (text, token) in cases {
        let refusal = read(rt.alloc(), text, 9).err();
        assert_eq!(rt; refusal, Some(SyntaxError::NotProgram { token }), "{text}");
    }
    Ok(())
}

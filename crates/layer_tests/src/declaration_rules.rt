//! What the rules of types say of whole declarations, of their order, and of which of several broken ones is named.

use crate::pipelines::{EMPTY, ONE_BYTE, Pipeline, source};
use crate::sources::{Breach, expect};
use std::alloc::{AllocError, Global};
use std::test::Fail;
use width_check::Rule;

/// The declaration that a word stands for; each is typed behind the ones before it, but for the last three.
fn declaration(word: &str) -> &'static str {
    match word {
        "headers" => "struct headers_t { } ",
        "meta" => "struct meta_t { } ",
        "parser" => {
            "parser P(packet_in pkt, out headers_t hdr, inout meta_t meta, inout std_t std) { state start { transition accept; } } "
        }
        "parser_again" => {
            "parser Q(packet_in pkt, out headers_t hdr, inout meta_t meta, inout std_t std) { state start { transition accept; } } "
        }
        "control" => {
            "control C(inout headers_t hdr, inout meta_t meta, inout std_t std) { apply { } } "
        }
        "control_again" => {
            "control B(inout headers_t hdr, inout meta_t meta, inout std_t std) { apply { } } "
        }
        "deparser" => "control D(packet_out pkt, in headers_t hdr) { apply { } } ",
        "deparser_again" => "control E(packet_out pkt, in headers_t hdr) { apply { } } ",
        "main" => "Pisa(P(), C(), D()) main; ",
        "swapped" => "Pisa(D(), C(), P()) main; ",
        "register" => "Register<bit<8>>(4) r; ",
        "looping" => {
            "parser P(packet_in pkt, out headers_t hdr, inout meta_t meta, inout std_t std) { state start { transition start; } } "
        }
        "astray" => {
            "parser P(packet_in pkt, out headers_t hdr, inout meta_t meta, inout std_t std) { state start { transition start; } state a { transition z; } } "
        }
        _ => "const bit<1> broken = 2; ",
    }
}

/// The text of the declarations that some words stand for.
fn declared(alloc: Global, words: &str) -> Result<String, AllocError> {
    let mut text = String::new(alloc);
    for word in words.split(' ') {
        text.push_str(declaration(word))?;
    }
    Ok(text)
}

const NO_MAIN: Rule = Rule::NoMain;

/// Declarations, and the first that breaks a rule.
const ORDERS: [(&str, Option<Breach>); 39] = [
    ("headers meta", None),
    ("headers meta parser control deparser main", None),
    ("meta headers deparser control parser main", None),
    ("headers meta parser", Some((NO_MAIN, 2))),
    ("headers meta control", Some((NO_MAIN, 2))),
    ("headers deparser", Some((NO_MAIN, 1))),
    ("headers meta parser control", Some((NO_MAIN, 2))),
    ("headers meta control parser", Some((NO_MAIN, 2))),
    ("headers meta parser control deparser", Some((NO_MAIN, 2))),
    ("headers deparser meta control parser", Some((NO_MAIN, 1))),
    ("main", Some((Rule::UnknownName, 0))),
    ("parser", Some((Rule::UnknownName, 0))),
    ("headers parser", Some((Rule::UnknownName, 1))),
    ("meta parser headers", Some((Rule::UnknownName, 1))),
    ("headers control meta", Some((Rule::UnknownName, 1))),
    ("meta control", Some((Rule::UnknownName, 1))),
    ("meta deparser", Some((Rule::UnknownName, 1))),
    (
        "headers meta parser control main",
        Some((Rule::UnknownName, 4)),
    ),
    (
        "headers meta control deparser main",
        Some((Rule::UnknownName, 4)),
    ),
    (
        "headers meta parser deparser main",
        Some((Rule::UnknownName, 4)),
    ),
    (
        "headers meta parser control deparser swapped",
        Some((Rule::UnknownName, 5)),
    ),
    ("headers headers", Some((Rule::Twice, 1))),
    ("headers meta meta", Some((Rule::Twice, 2))),
    (
        "headers meta parser parser_again control deparser main",
        Some((Rule::Twice, 3)),
    ),
    (
        "headers meta parser parser control deparser main",
        Some((Rule::Twice, 3)),
    ),
    (
        "headers meta parser control control_again deparser main",
        Some((Rule::Twice, 4)),
    ),
    (
        "headers meta parser control deparser deparser_again main",
        Some((Rule::Twice, 5)),
    ),
    (
        "headers meta parser control deparser main main",
        Some((Rule::Twice, 6)),
    ),
    ("headers meta looping", Some((Rule::ParserLoop, 2))),
    (
        "headers meta looping control deparser main",
        Some((Rule::ParserLoop, 2)),
    ),
    (
        "headers meta looping control deparser main broken",
        Some((Rule::ParserLoop, 2)),
    ),
    ("headers meta looping broken", Some((Rule::ParserLoop, 2))),
    (
        "broken headers meta looping",
        Some((Rule::LiteralTooWide, 0)),
    ),
    (
        "headers meta broken looping",
        Some((Rule::LiteralTooWide, 2)),
    ),
    ("headers meta astray", Some((Rule::UnknownName, 2))),
    ("headers meta control broken", Some((NO_MAIN, 2))),
    (
        "headers meta broken control",
        Some((Rule::LiteralTooWide, 2)),
    ),
    (
        "register headers meta looping",
        Some((Rule::RegisterUnused, 0)),
    ),
    ("headers meta looping register", Some((Rule::ParserLoop, 2))),
];

#[test]
fn the_first_broken_declaration_is_named(rt: HostRuntime) -> Result<(), Fail> {
    for (words, want) in ORDERS {
        let text = declared(rt.alloc(), words)?;
        expect(&rt, rt.alloc(), text.as_str(), want);
    }
    Ok(())
}

/// Declarations that need no pipeline.
const TEXTS: [(&str, Option<Breach>); 34] = [
    ("const bit<8> a = 255; const bit<128> b = 0;", None),
    ("const bit<8> a = 8w7;", None),
    ("const bit<8> a = 256;", Some((Rule::LiteralTooWide, 0))),
    ("const bit<129> a = 1;", Some((Rule::Width, 0))),
    (
        "const bit<8> a = 1; const bit<8> a = 1;",
        Some((Rule::Twice, 1)),
    ),
    (
        "symbolic int a; const bit<8> a = 1;",
        Some((Rule::Twice, 1)),
    ),
    ("symbolic int a; header a { }", Some((Rule::Twice, 1))),
    ("const bit<8> main = 1;", Some((Rule::Twice, 0))),
    ("header Pisa { }", Some((Rule::Twice, 0))),
    ("header std_t { }", Some((Rule::Twice, 0))),
    ("Register<bit<8>>(1) accept;", Some((Rule::Twice, 0))),
    ("symbolic int reject;", Some((Rule::Twice, 0))),
    ("symbolic int NoAction;", Some((Rule::Twice, 0))),
    ("symbolic int Register;", Some((Rule::Twice, 0))),
    ("symbolic int headers_t;", Some((Rule::Twice, 0))),
    ("symbolic int meta_t;", Some((Rule::Twice, 0))),
    ("const bit<8> a__b = 1;", Some((Rule::ReservedName, 0))),
    ("header __a { }", Some((Rule::ReservedName, 0))),
    ("Register<bit<8>>(1) a__;", Some((Rule::ReservedName, 0))),
    ("header h { }", None),
    ("header h { bit<3> a; bit<5> h; }", None),
    ("header h { bit<128> a; bit<128> b; bit<120> c; }", None),
    (
        "header h { bit<8> a; bit<7> b; }",
        Some((Rule::OddHeader, 0)),
    ),
    ("header h { bit<8> a; bit<0> b; }", Some((Rule::Width, 0))),
    ("header h { bit<136> a; }", Some((Rule::Width, 0))),
    ("header h { bit<8> a; bit<8> a; }", Some((Rule::Twice, 0))),
    ("header h { bit<8> hdr; }", Some((Rule::Twice, 0))),
    ("header h { bit<8> a__b; }", Some((Rule::ReservedName, 0))),
    ("header h { } struct headers_t { h h; h g; }", None),
    (
        "struct headers_t { h h; } header h { }",
        Some((Rule::UnknownName, 0)),
    ),
    (
        "symbolic int h; struct headers_t { h g; }",
        Some((Rule::UnknownName, 1)),
    ),
    (
        "header h { } struct headers_t { h h; h h; }",
        Some((Rule::Twice, 1)),
    ),
    (
        "header h { } struct headers_t { h pkt; }",
        Some((Rule::Twice, 1)),
    ),
    (
        "header h { } struct headers_t { h g__; }",
        Some((Rule::ReservedName, 1)),
    ),
];

#[test]
fn declarations_break_the_rules_on_names_and_numbers(rt: HostRuntime) {
    for (text, want) in TEXTS {
        expect(&rt, rt.alloc(), text, want);
    }
}

/// Headers that are emitted, and what is broken. The deparser is declaration 5.
const EMITS: [(&str, Option<Breach>); 4] = [
    ("pkt.emit(hdr.h); pkt.emit(hdr.h);", None),
    ("", None),
    ("pkt.emit(hdr.z);", Some((Rule::UnknownName, 5))),
    (
        "pkt.emit(hdr.h); pkt.emit(hdr.h_t);",
        Some((Rule::UnknownName, 5)),
    ),
];

#[test]
fn headers_are_declared_before_they_are_emitted(rt: HostRuntime) -> Result<(), Fail> {
    for (emits, want) in EMITS {
        let text = source(rt.alloc(), &Pipeline { emits, ..ONE_BYTE })?;
        expect(&rt, rt.alloc(), text.as_str(), want);
    }
    let named_twice = Pipeline {
        top: "symbolic int P; struct headers_t { }",
        ..EMPTY
    };
    let text = source(rt.alloc(), &named_twice)?;
    expect(&rt, rt.alloc(), text.as_str(), Some((Rule::Twice, 3)));
    Ok(())
}

//! A smallest program for each rule of types that breaks this rule, and no other one before it, through the command.

use crate::size_tests::{one_stage, refuses};
use std::alloc::{AllocError, Global};
use std::test::Fail;

/// Texts without a pipeline, each with the rule and the declaration that breaks it.
const ALONE: [(&str, &str); 12] = [
    ("maximize(a);", "UnknownName 0"),
    ("symbolic int hash;", "Twice 0"),
    ("symbolic int s; symbolic int s;", "Twice 1"),
    ("const bit<0> a = 0;", "Width 0"),
    ("const bit<1> a = 2;", "LiteralTooWide 0"),
    ("Register<bit<1>>(0) r;", "BadAmount 0"),
    ("maximize(1000000001);", "BadTerm 0"),
    ("header h { bit<1> a; }", "OddHeader 0"),
    ("Register<bit<1>>(1) r;", "RegisterUnused 0"),
    ("symbolic int __;", "ReservedName 0"),
    ("symbolic int a__1;", "ReservedName 0"),
    (
        "struct headers_t { } control D(packet_out pkt, in headers_t hdr) { apply { } }",
        "NoMain 1",
    ),
];

/// The parser's one state in the smallest pipeline.
const START: &str = "state start { transition accept; }";

/// What stands in the smallest pipeline: before all, in the parser, and in the control before and in its body.
const IN_A_PIPELINE: [[&str; 5]; 12] = [
    ["", START, "", "if (0 == 0) { }", "NoWidth 3"],
    ["", START, "", "if (0) { }", "NotBool 3"],
    [
        "symbolic int n;",
        "state start { transition select (std.drop) { n: accept; } }",
        "",
        "",
        "NotConst 3",
    ],
    ["", START, "action a[int i]() { }", "a();", "BadIndex 3"],
    ["", START, "", "std.drop = std.drop[1:1];", "BadSlice 3"],
    [
        "symbolic int n;",
        START,
        "",
        "for (i < n) { for (j < n) { } }",
        "NestedLoop 4",
    ],
    [
        "Register<bit<1>>(1) r;",
        START,
        "",
        "r.write(0, 0); r.write(0, 0);",
        "RegisterTwice 0",
    ],
    [
        "Register<bit<1>>(1) r;",
        START,
        "action a() { r.write(0, 0); } table t { actions = { a; } }",
        "t.apply();",
        "RegisterInTable 4",
    ],
    [
        "",
        "state start { transition select (0) { } }",
        "",
        "",
        "BadKey 2",
    ],
    ["", START, "table t { size = 1000001; }", "", "BadEntries 3"],
    ["", START, "", "NoAction(0);", "BadCall 3"],
    ["", "", "", "", "ParserLoop 2"],
];

/// The text of a pipeline with these four parts.
fn pipeline(alloc: Global, parts: [&str; 5]) -> Result<String, AllocError> {
    let [top, states, locals, body, _] = parts;
    format!(in alloc;
        "{top} struct headers_t {{ }} struct meta_t {{ }}\n\
        parser P(packet_in pkt, out headers_t hdr, inout meta_t meta, inout std_t std) {{ {states} }}\n\
        control C(inout headers_t hdr, inout meta_t meta, inout std_t std) {{ {locals} apply {{ {body} }} }}\n\
        control D(packet_out pkt, in headers_t hdr) {{ apply {{ }} }}\n\
        Pisa(P(), C(), D()) main;\n"
    )
}

/// Whether `size` refuses a source for what is named.
fn names(alloc: Global, source: &str, target: &str, named: &str) -> Result<bool, AllocError> {
    let line = format!(in alloc; "refused src rule {named}\n")?;
    refuses(alloc, source.as_bytes(), target.as_bytes(), line.as_str())
}

#[test]
fn each_rule_is_named_with_its_declaration(rt: HostRuntime) -> Result<(), Fail> {
    let target = one_stage(rt.alloc(), 64)?;
    for (source, named) in ALONE {
        let refused = names(rt.alloc(), source, target.as_str(), named)?;
        assert!(rt; refused, "{named}");
    }
    for parts in IN_A_PIPELINE {
        let source = pipeline(rt.alloc(), parts)?;
        let refused = names(rt.alloc(), source.as_str(), target.as_str(), parts[4])?;
        assert!(rt; refused, "{}", parts[4]);
    }
    Ok(())
}

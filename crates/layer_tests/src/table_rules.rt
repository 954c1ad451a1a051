//! What the rules of types say of tables, each text as the properties of one.

use crate::pipelines::{FIELDS, Part, expect_in};
use std::test::Fail;
use width_check::Rule;

const TYPED: [&str; 11] = [
    "",
    "key = { } actions = { } const entries = { }",
    "size = 0;",
    "size = 1000000;",
    "key = { hdr.h.v : exact; meta.k : ternary; std.in_port : exact; }",
    "default_action = NoAction();",
    "actions = { set; } const default_action = set(255);",
    "key = { hdr.h.v : exact; } actions = { set; NoAction; } const entries = { 1 : set(2); (c) : set(c); 255 : NoAction(); } default_action = NoAction(); size = 3;",
    "key = { hdr.h.v : ternary; } actions = { set; } const entries = { 1 &&& 3 : set(1); c &&& c : set(2); _ : set(3); 8w9 : set(4); }",
    "key = { hdr.h.v : ternary; hdr.h.w : ternary; meta.f : exact; } actions = { both; set; } const entries = { (1 &&& 3, _, 0) : both(c, 300); (_, 16w7, 1w1) : set(c); }",
    "size = 1; default_action = set(1); const entries = { 1 : set(0); } actions = { set; } key = { hdr.h.v : exact; }",
];

const UNKNOWN: [&str; 4] = [
    "key = { hdr.h.z : exact; }",
    "actions = { z; }",
    "actions = { t; }",
    "actions = { later; }",
];

const WIDTH: [&str; 4] = [
    "key = { hdr.h.w : exact; } actions = { set; } const entries = { c : set(1); }",
    "key = { hdr.h.v : ternary; } actions = { set; } const entries = { 1 &&& 9w1 : set(1); }",
    "key = { hdr.h.v : exact; } actions = { both; } const entries = { 1 : both(1, c); }",
    "actions = { set; } default_action = set(9w1);",
];

const TOO_WIDE: [&str; 4] = [
    "key = { hdr.h.v : exact; } actions = { set; } const entries = { 256 : set(1); }",
    "key = { hdr.h.v : ternary; } actions = { set; } const entries = { 1 &&& 256 : set(1); }",
    "key = { hdr.h.v : exact; } actions = { set; } const entries = { 1 : set(256); }",
    "actions = { set; } default_action = set(256);",
];

const NOT_CONST: [&str; 4] = [
    "key = { hdr.h.v : exact; } actions = { set; } const entries = { n : set(1); }",
    "key = { hdr.h.v : ternary; } actions = { set; } const entries = { 1 &&& h_t : set(1); }",
    "key = { hdr.h.v : exact; } actions = { set; } const entries = { 1 : set(n); }",
    "actions = { set; } default_action = set(P);",
];

const KEYS: [&str; 7] = [
    "key = { hdr.h.v : exact; } actions = { set; } const entries = { 1 &&& 1 : set(1); }",
    "key = { hdr.h.v : exact; } actions = { set; } const entries = { _ : set(1); }",
    "key = { hdr.h.v : ternary; hdr.h.w : exact; } actions = { set; } const entries = { (1, 1 &&& 1) : set(1); }",
    "key = { hdr.h.v : exact; } actions = { set; } const entries = { 1 : set(1); (1, 2) : set(1); }",
    "key = { hdr.h.v : exact; hdr.h.w : exact; } actions = { set; } const entries = { 1 : set(1); }",
    "key = { } actions = { set; } const entries = { 1 : set(1); }",
    "actions = { set; } const entries = { _ : set(1); }",
];

const ENTRIES: [&str; 7] = [
    "size = 1000001;",
    "key = { hdr.h.v : exact; } actions = { set; } const entries = { 1 : set(1); 2 : set(2); } size = 1;",
    "key = { hdr.h.v : exact; } actions = { set; } const entries = { 1 : set(1); } size = 0;",
    "key = { hdr.h.v : exact; } actions = { both; NoAction; } const entries = { 1 : set(1); }",
    "key = { hdr.h.v : exact; } actions = { set; } const entries = { 1 : NoAction(); }",
    "actions = { both; } default_action = set(1);",
    "default_action = set(1);",
];

const CALLS: [&str; 7] = [
    "key = { hdr.h.v : exact; } actions = { set; } const entries = { 1 : set(); }",
    "key = { hdr.h.v : exact; } actions = { set; } const entries = { 1 : set(1, 2); }",
    "key = { hdr.h.v : exact; } actions = { NoAction; } const entries = { 1 : NoAction(1); }",
    "actions = { both; } default_action = both(1);",
    "default_action = NoAction(1);",
    "actions = { each; }",
    "actions = { set; rest; }",
];

const INDEX: [&str; 2] = [
    "key = { meta.x : exact; }",
    "key = { hdr.h.v : exact; meta.y : ternary; }",
];

#[test]
fn tables_break_the_rules_on_keys_and_entries(rt: HostRuntime) -> Result<(), Fail> {
    let before = FIELDS.locals;
    for (rule, texts) in [
        (None, TYPED.as_slice()),
        (Some(Rule::UnknownName), UNKNOWN.as_slice()),
        (Some(Rule::Width), WIDTH.as_slice()),
        (Some(Rule::LiteralTooWide), TOO_WIDE.as_slice()),
        (Some(Rule::NotConst), NOT_CONST.as_slice()),
        (Some(Rule::BadIndex), INDEX.as_slice()),
        (Some(Rule::BadKey), KEYS.as_slice()),
        (Some(Rule::BadEntries), ENTRIES.as_slice()),
        (Some(Rule::BadCall), CALLS.as_slice()),
    ] {
        for properties in texts {
            let locals = format!(in rt.alloc();
                "{before} table t {{ {properties} }} action later() {{ }}"
            )?;
            let one = [locals.as_str()];
            expect_in(&rt, rt.alloc(), Part::Locals, rule, one.as_slice())?;
        }
    }
    Ok(())
}
